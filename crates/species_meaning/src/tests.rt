use crate::{Arrays, RunAnswer, run_source};
use species_ast::{
    Array, Binary, Dims, Expr, Includes, Kind, LocalInfo, Loop, Mark, Name, OutOfMemory, Stmt,
    Test, Trap, Unit, Value,
};
use species_cint::number;
use sqlite_items::{Boxed, Items};
use std::alloc::Global;
use std::test::Fail;

// ---- programs in postfix order. Expressions: a digit, `g` for 2147483647, `h` for 4294967295u and
// `l` for 2147483647ll; the local `a`; the iterators `i`, `j` and `k`; elements of the arrays
// `int A[64]`, `unsigned U[4]`, `long long L[4]` and `int X[n][n]`, `M[n][n]` and `O[n][n]`;
// `+ - * / <`, `&` and `|` for `&&` and `||`, `?`, and `n` for a minus before its operand. A statement
// has the place of its code.

#[derive(Drop)]
struct Stacks {
    exprs: Items<Expr>,
    stmts: Items<Stmt>,
}

fn top(stacks: &mut Stacks) -> Result<Expr, OutOfMemory> {
    stacks.exprs.pop().ok_or(OutOfMemory)
}

fn child(alloc: Global, stacks: &mut Stacks) -> Result<Boxed<Expr>, OutOfMemory> {
    Ok(Boxed::new(alloc, top(stacks)?)?)
}

fn binary(alloc: Global, op: Binary, stacks: &mut Stacks) -> Result<Expr, OutOfMemory> {
    let b = child(alloc, stacks)?;
    let a = child(alloc, stacks)?;
    Ok(Expr::Binary(op, a, b))
}

fn both(alloc: Global, stacks: &mut Stacks) -> Result<Expr, OutOfMemory> {
    let b = child(alloc, stacks)?;
    let a = child(alloc, stacks)?;
    Ok(Expr::And(a, b))
}

fn either(alloc: Global, stacks: &mut Stacks) -> Result<Expr, OutOfMemory> {
    let b = child(alloc, stacks)?;
    let a = child(alloc, stacks)?;
    Ok(Expr::Or(a, b))
}

fn cond(alloc: Global, stacks: &mut Stacks) -> Result<Expr, OutOfMemory> {
    let b = child(alloc, stacks)?;
    let a = child(alloc, stacks)?;
    let test = child(alloc, stacks)?;
    Ok(Expr::Cond(test, a, b))
}

/// The last expressions, the first of them first.
fn subs(alloc: Global, count: u32, stacks: &mut Stacks) -> Result<Items<Expr>, OutOfMemory> {
    let mut back = Items::new(alloc);
    for _ in 0..count {
        back.push(top(stacks)?)?;
    }
    let mut all = Items::new(alloc);
    for _ in 0..count {
        all.push(back.pop().ok_or(OutOfMemory)?)?;
    }
    Ok(all)
}

/// The last statements, the first of them first.
fn list(alloc: Global, count: u32, stacks: &mut Stacks) -> Result<Items<Stmt>, OutOfMemory> {
    let mut back = Items::new(alloc);
    for _ in 0..count {
        back.push(stacks.stmts.pop().ok_or(OutOfMemory)?)?;
    }
    let mut all = Items::new(alloc);
    for _ in 0..count {
        all.push(back.pop().ok_or(OutOfMemory)?)?;
    }
    Ok(all)
}

fn expr(alloc: Global, code: u8, stacks: &mut Stacks) -> Result<Expr, OutOfMemory> {
    match code {
        b'0'..=b'9' => Ok(Expr::Literal(Value::Int((code - b'0') as i32))),
        b'g' => Ok(Expr::Literal(Value::Int(2147483647))),
        b'h' => Ok(Expr::Literal(Value::Unsigned(4294967295))),
        b'l' => Ok(Expr::Literal(Value::Long(2147483647))),
        b'a' => Ok(Expr::Local(0)),
        b'i'..=b'k' => Ok(Expr::Iter((code - b'i') as u32)),
        b'A' => Ok(Expr::Elem(0, subs(alloc, 1, stacks)?)),
        b'U' => Ok(Expr::Elem(1, subs(alloc, 1, stacks)?)),
        b'L' => Ok(Expr::Elem(2, subs(alloc, 1, stacks)?)),
        b'X' => Ok(Expr::Elem(3, subs(alloc, 2, stacks)?)),
        b'M' => Ok(Expr::Elem(4, subs(alloc, 2, stacks)?)),
        b'O' => Ok(Expr::Elem(5, subs(alloc, 2, stacks)?)),
        b'+' => binary(alloc, Binary::Add, stacks),
        b'-' => binary(alloc, Binary::Sub, stacks),
        b'*' => binary(alloc, Binary::Mul, stacks),
        b'/' => binary(alloc, Binary::Div, stacks),
        b'<' => binary(alloc, Binary::Lt, stacks),
        b'&' => both(alloc, stacks),
        b'|' => either(alloc, stacks),
        b'n' => Ok(Expr::Unary(species_ast::Unary::Neg, child(alloc, stacks)?)),
        _ => cond(alloc, stacks),
    }
}

// Statements: `S`, `T`, `P`, `Y`, `y` and `z` assign to an element of A, U, L, X, M and O; `Q` and `Z`
// add to one of A and X, `R` atomically to one of U; `D` and `N` declare `a` with and without initialiser, `V` sets it; `W` is
// an `if` over one statement, `K` a block of two; `E`, `F` and `H` are loops upward over one, one and
// three statements, `E` with `<=`.

fn assign(
    alloc: Global,
    array: u32,
    dims: u32,
    place: u32,
    stacks: &mut Stacks,
) -> Result<Stmt, OutOfMemory> {
    let value = child(alloc, stacks)?;
    let subs = subs(alloc, dims, stacks)?;
    Ok(Stmt::Assign {
        place,
        array,
        subs,
        value: value.into_inner(),
    })
}

fn add(
    alloc: Global,
    array: u32,
    dims: u32,
    place: u32,
    atomic: bool,
    stacks: &mut Stacks,
) -> Result<Stmt, OutOfMemory> {
    let value = child(alloc, stacks)?;
    let subs = subs(alloc, dims, stacks)?;
    Ok(Stmt::AddTo {
        place,
        array,
        subs,
        value: value.into_inner(),
        atomic,
    })
}

fn declare(alloc: Global, place: u32, stacks: &mut Stacks) -> Result<Stmt, OutOfMemory> {
    let init = child(alloc, stacks)?;
    Ok(Stmt::Declare {
        place,
        local: 0,
        init: Some(init.into_inner()),
    })
}

fn set(alloc: Global, place: u32, stacks: &mut Stacks) -> Result<Stmt, OutOfMemory> {
    let value = child(alloc, stacks)?;
    Ok(Stmt::SetLocal {
        place,
        local: 0,
        value: value.into_inner(),
    })
}

fn choice(alloc: Global, place: u32, stacks: &mut Stacks) -> Result<Stmt, OutOfMemory> {
    let body = list(alloc, 1, stacks)?;
    let test = child(alloc, stacks)?;
    Ok(Stmt::If {
        place,
        test: test.into_inner(),
        body,
        otherwise: Items::new(alloc),
    })
}

fn upward(
    alloc: Global,
    test: Test,
    count: u32,
    place: u32,
    stacks: &mut Stacks,
) -> Result<Stmt, OutOfMemory> {
    let body = list(alloc, count, stacks)?;
    let limit = child(alloc, stacks)?;
    let start = child(alloc, stacks)?;
    Ok(Stmt::For(Loop {
        place,
        iter: Name::from_vec(Vec::new(alloc)),
        start: start.into_inner(),
        test,
        limit: limit.into_inner(),
        step: 1,
        body,
        line: None,
        mark: Mark::Plain,
    }))
}

fn stmt(alloc: Global, code: u8, place: u32, stacks: &mut Stacks) -> Result<Stmt, OutOfMemory> {
    match code {
        b'S' => assign(alloc, 0, 1, place, stacks),
        b'T' => assign(alloc, 1, 1, place, stacks),
        b'P' => assign(alloc, 2, 1, place, stacks),
        b'Y' => assign(alloc, 3, 2, place, stacks),
        b'y' => assign(alloc, 4, 2, place, stacks),
        b'z' => assign(alloc, 5, 2, place, stacks),
        b'Q' => add(alloc, 0, 1, place, false, stacks),
        b'Z' => add(alloc, 3, 2, place, false, stacks),
        b'R' => add(alloc, 1, 1, place, true, stacks),
        b'D' => declare(alloc, place, stacks),
        b'N' => Ok(Stmt::Declare {
            place,
            local: 0,
            init: None,
        }),
        b'V' => set(alloc, place, stacks),
        b'W' => choice(alloc, place, stacks),
        b'K' => Ok(Stmt::Block(list(alloc, 2, stacks)?)),
        b'E' => upward(alloc, Test::Le, 1, place, stacks),
        b'F' => upward(alloc, Test::Lt, 1, place, stacks),
        _ => upward(alloc, Test::Lt, 3, place, stacks),
    }
}

fn is_stmt(code: u8) -> bool {
    matches!(
        code,
        b'S' | b'y'
            | b'z'
            | b'Z'
            | b'T'
            | b'P'
            | b'Y'
            | b'Q'
            | b'R'
            | b'D'
            | b'N'
            | b'V'
            | b'W'
            | b'K'
            | b'E'
            | b'F'
            | b'H'
    )
}

fn push(alloc: Global, code: u8, place: u32, stacks: &mut Stacks) -> Result<(), OutOfMemory> {
    if is_stmt(code) {
        let next = Boxed::new(alloc, stmt(alloc, code, place, stacks)?)?;
        stacks.stmts.push(next.into_inner())?;
    } else {
        let next = Boxed::new(alloc, expr(alloc, code, stacks)?)?;
        stacks.exprs.push(next.into_inner())?;
    }
    Ok(())
}

fn body(alloc: Global, codes: &[u8]) -> Result<Items<Stmt>, OutOfMemory> {
    let mut stacks = Stacks {
        exprs: Items::new(alloc),
        stmts: Items::new(alloc),
    };
    let mut place: u32 = 0;
    for code in codes {
        push(alloc, *code, place, &mut stacks)?;
        place = place.saturating_add(1);
    }
    Ok(stacks.stmts)
}

fn array(alloc: Global, kind: Kind, sizes: &[u32]) -> Result<Array, OutOfMemory> {
    let dims = Vec::from_slice(alloc, sizes)?;
    Ok(Array {
        name: Name::from_vec(Vec::new(alloc)),
        kind,
        dims: Dims::from_vec(dims),
    })
}

fn arrays(alloc: Global, n: u32) -> Result<Items<Array>, OutOfMemory> {
    let mut arrays = Items::new(alloc);
    arrays.push(array(alloc, Kind::Int, &[64])?)?;
    arrays.push(array(alloc, Kind::Unsigned, &[4])?)?;
    arrays.push(array(alloc, Kind::Long, &[4])?)?;
    arrays.push(array(alloc, Kind::Int, &[n, n])?)?;
    arrays.push(array(alloc, Kind::Int, &[n, n])?)?;
    arrays.push(array(alloc, Kind::Int, &[n, n])?)?;
    Ok(arrays)
}

fn unit(alloc: Global, n: u32, codes: &[u8]) -> Result<Unit, OutOfMemory> {
    let arrays = arrays(alloc, n)?;
    let mut locals = Items::new(alloc);
    locals.push(LocalInfo {
        name: Name::from_vec(Vec::new(alloc)),
        kind: Kind::Int,
    })?;
    let body = body(alloc, codes)?;
    Ok(Unit {
        includes: Includes::new(alloc),
        arrays,
        locals,
        function: Name::from_vec(Vec::new(alloc)),
        body,
    })
}

/// The run of a program from zeros but for `A[0]`.
fn run(alloc: Global, n: u32, codes: &[u8], first: i32) -> Result<Arrays, RunAnswer> {
    let unit = unit(alloc, n, codes)?;
    let mut start = Arrays::zeros(alloc, &unit)?;
    start.set(0, 0, Value::Int(first));
    run_source(alloc, &unit, start)
}

/// A program, `A[0]` at the start, and the first four elements of an array at the end.
const ENDED: [(&[u8], i32, u32, [i64; 4]); 13] = [
    // A[i] = A[i - 1] upward
    (b"14ii1-ASF", 7, 0, [7, 7, 7, 7]),
    // L[0] = A[0] * 2147483647ll
    (b"00Al*P", 2147483647, 2, [4611686014132420609, 0, 0, 0]),
    // two atomic additions of 4294967295u
    (b"1hR1hR", 0, 1, [0, 4294967294, 0, 0]),
    // a right side that `&&` and `||` do not evaluate, and the truth of one that they do
    (b"0010/&S", 7, 0, [0, 0, 0, 0]),
    (b"0110/|S", 7, 0, [1, 0, 0, 0]),
    (b"015&S103|S", 7, 0, [1, 1, 0, 0]),
    // a part that `?:` does not evaluate, and the kind of the other
    (b"01510/?S", 7, 0, [5, 0, 0, 0]),
    (
        b"011nh?P10h1n?P211nl?P",
        7,
        2,
        [4294967295, 4294967295, -1, 0],
    ),
    // A[0] += 1 for i from 2147483646 to 2147483647
    (b"g1-g01QE", 3, 0, [5, 0, 0, 0]),
    // the limit is not evaluated again: for (i = 0; i < A[0]; i++) A[0] += 1
    (b"00A01QF", 3, 0, [6, 0, 0, 0]),
    // subscripts of every kind, of two dimensions in row order
    (b"lg-5Shh-1+6S", 7, 0, [5, 6, 0, 0]),
    (b"018Y109Y", 7, 3, [0, 8, 9, 0]),
    // an inner loop, and a local of its own in each turn
    (b"02iDiaSKF", 7, 0, [0, 1, 0, 0]),
];

/// A program, and why and where it is undefined, from `A[0]` = 2147483647.
const STOPPED: [(&[u8], Trap, u32); 12] = [
    // the index is tested before the value is evaluated, also in `+=`
    (b"88*10/S", Trap::Index, 6),
    (b"88*10/Q", Trap::Index, 6),
    (b"1n4R", Trap::Index, 3),
    // all subscripts are evaluated before the first is tested
    (b"910/0Y", Trap::DivZero, 5),
    (b"1nAD", Trap::Index, 3),
    // A[0] + 1
    (b"01Q", Trap::Overflow, 2),
    (b"00A2*S", Trap::Overflow, 5),
    // `&&` evaluates its right side
    (b"0110/&S", Trap::DivZero, 6),
    // a local in its own initialiser, in a later turn, and behind its block
    (b"aD", Trap::Unset, 1),
    (b"02Ni1<5VWiaSH", Trap::Unset, 11),
    (b"5D1aSK0aS", Trap::Unset, 8),
    // the limit of a loop, before its first turn
    (b"010/01QF", Trap::DivZero, 7),
];

#[test]
fn where_runs_end(rt: HostRuntime) -> Result<(), Fail> {
    let alloc = rt.alloc();
    for (codes, first, array, cells) in &ENDED {
        match run(alloc, 2, codes, *first) {
            Err(_) => assert!(rt; false, "undefined"),
            Ok(arrays) => {
                for at in 0..4 {
                    let value = number(arrays.get(*array, at as u32));
                    assert_eq!(rt; value, i128::from(cells[at]), "an element");
                }
            }
        }
    }
    Ok(())
}

#[test]
fn where_runs_are_undefined(rt: HostRuntime) -> Result<(), Fail> {
    let alloc = rt.alloc();
    for (codes, why, place) in &STOPPED {
        match run(alloc, 2, codes, 2147483647) {
            Ok(_) => assert!(rt; false, "defined"),
            Err(answer) => assert_eq!(rt; answer, RunAnswer::Undefined(*why, *place), "the trap"),
        }
    }
    Ok(())
}

#[test]
fn a_recurrence(rt: HostRuntime) -> Result<(), Fail> {
    let alloc = rt.alloc();
    let Ok(arrays) = run(alloc, 2, b"188*ii1-ASF", 7) else {
        assert!(rt; false, "undefined");
        return Ok(());
    };
    let copy = arrays.copy(alloc)?;
    for at in 0..64 {
        assert_eq!(rt; copy.get(0, at), Value::Int(7), "an element");
    }
    assert_eq!(rt; copy.get(0, 64), Value::Int(0), "no element");
    Ok(())
}

// `bench/meaning.sh` runs these two beside the same kernels in C.

/// M[i][j] = i and O[i][j] = j + 1, and then the product X, of 128 rows and columns.
#[test]
fn a_matrix_product(rt: HostRuntime) -> Result<(), Fail> {
    let alloc = rt.alloc();
    let codes = b"088*2*088*2*ijiyijj1+zKFF088*2*088*2*088*2*ijikMkjO*ZFFF";
    let Ok(arrays) = run(alloc, 128, codes, 0) else {
        assert!(rt; false, "undefined");
        return Ok(());
    };
    assert_eq!(rt; arrays.get(3, 16383), Value::Int(2080768), "X[127][127]");
    Ok(())
}

/// M[i][j] = i, and then 64 times the mean of five neighbours in X, of 128 rows and columns.
#[test]
fn a_stencil(rt: HostRuntime) -> Result<(), Fail> {
    let alloc = rt.alloc();
    let codes = b"088*2*088*2*ijiyFF088*188*2*1-188*2*1-jkj1-kMj1+kMjk1-Mjk1+MjkM++++5/YFFF";
    let Ok(arrays) = run(alloc, 128, codes, 0) else {
        assert!(rt; false, "undefined");
        return Ok(());
    };
    assert_eq!(rt; arrays.get(3, 12900), Value::Int(100), "X[100][100]");
    Ok(())
}
