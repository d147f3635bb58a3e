//! Builders of nests. Expressions and statements stand in postfix order: a number with a blank behind
//! it, the iterators `i` to `k` of the levels 0 to 2, the local `s`, `+ - *`, `&`, `|` and `?` for `&&`, `||`
//! and `?:`, and the elements `A` to `C` of three arrays, each behind its subscripts. `S`, `T` and `U` assign
//! to an element of these arrays, `P`, `Q` and `R` add to one, and `L` sets the local. The codes of the
//! other statements stand behind the number of statements in them: `F` and `G` count from one expression
//! up to below another, `F` by 1 and `G` by 3; `J` is an `if` that has its last statement behind `else`.

use species_ast::{
    Array, Binary, Dims, Expr, Includes, Kind, Loop, Mark, Name, OutOfMemory, Stmt, Test, Unit,
    Value,
};
use sqlite_items::{Boxed, Items};
use std::alloc::Global;

/// The sizes of arrays.
pub(super) type Sizes = &'static [&'static [u32]];

/// What stands before a code.
#[derive(Drop)]
struct Stacks {
    exprs: Items<Expr>,
    stmts: Items<Stmt>,
}

fn pop(alloc: Global, stacks: &mut Stacks) -> Result<Boxed<Expr>, OutOfMemory> {
    let top = stacks.exprs.pop().ok_or(OutOfMemory)?;
    Ok(Boxed::new(alloc, top)?)
}

fn binary(alloc: Global, op: Binary, stacks: &mut Stacks) -> Result<Expr, OutOfMemory> {
    let b = pop(alloc, stacks)?;
    let a = pop(alloc, stacks)?;
    Ok(Expr::Binary(op, a, b))
}

fn both(alloc: Global, stacks: &mut Stacks) -> Result<Expr, OutOfMemory> {
    let b = pop(alloc, stacks)?;
    let a = pop(alloc, stacks)?;
    Ok(Expr::And(a, b))
}

fn either(alloc: Global, stacks: &mut Stacks) -> Result<Expr, OutOfMemory> {
    let b = pop(alloc, stacks)?;
    let a = pop(alloc, stacks)?;
    Ok(Expr::Or(a, b))
}

fn cond(alloc: Global, stacks: &mut Stacks) -> Result<Expr, OutOfMemory> {
    let b = pop(alloc, stacks)?;
    let a = pop(alloc, stacks)?;
    let test = pop(alloc, stacks)?;
    Ok(Expr::Cond(test, a, b))
}

/// As many of the last expressions as an array has sizes, the first of them first.
fn subs(
    alloc: Global,
    sizes: &[&[u32]],
    array: u8,
    stacks: &mut Stacks,
) -> Result<Items<Expr>, OutOfMemory> {
    let count = sizes.get(array as usize).map_or(0, |s| s.len());
    let mut back = Items::new(alloc);
    for _ in 0..count {
        back.push(stacks.exprs.pop().ok_or(OutOfMemory)?)?;
    }
    let mut all = Items::new(alloc);
    for _ in 0..count {
        all.push(back.pop().ok_or(OutOfMemory)?)?;
    }
    Ok(all)
}

/// The last statements, the first of them first.
fn list(alloc: Global, count: i32, stacks: &mut Stacks) -> Result<Items<Stmt>, OutOfMemory> {
    let mut back = Items::new(alloc);
    for _ in 0..count {
        back.push(stacks.stmts.pop().ok_or(OutOfMemory)?)?;
    }
    let mut all = Items::new(alloc);
    for _ in 0..count {
        all.push(back.pop().ok_or(OutOfMemory)?)?;
    }
    Ok(all)
}

fn expr(
    alloc: Global,
    sizes: &[&[u32]],
    code: u8,
    stacks: &mut Stacks,
) -> Result<Expr, OutOfMemory> {
    match code {
        b'i'..=b'k' => Ok(Expr::Iter(u32::from(code - b'i'))),
        b's' => Ok(Expr::Local(0)),
        b'+' => binary(alloc, Binary::Add, stacks),
        b'-' => binary(alloc, Binary::Sub, stacks),
        b'*' => binary(alloc, Binary::Mul, stacks),
        b'&' => both(alloc, stacks),
        b'|' => either(alloc, stacks),
        b'A'..=b'C' => Ok(Expr::Elem(
            u32::from(code - b'A'),
            subs(alloc, sizes, code - b'A', stacks)?,
        )),
        _ => cond(alloc, stacks),
    }
}

fn assign(
    alloc: Global,
    sizes: &[&[u32]],
    array: u8,
    stacks: &mut Stacks,
) -> Result<Stmt, OutOfMemory> {
    let value = pop(alloc, stacks)?;
    let subs = subs(alloc, sizes, array, stacks)?;
    Ok(Stmt::Assign {
        place: 0,
        array: u32::from(array),
        subs,
        value: value.into_inner(),
    })
}

fn add(
    alloc: Global,
    sizes: &[&[u32]],
    array: u8,
    stacks: &mut Stacks,
) -> Result<Stmt, OutOfMemory> {
    let value = pop(alloc, stacks)?;
    let subs = subs(alloc, sizes, array, stacks)?;
    Ok(Stmt::AddTo {
        place: 0,
        array: u32::from(array),
        subs,
        value: value.into_inner(),
        atomic: false,
    })
}

fn set(alloc: Global, stacks: &mut Stacks) -> Result<Stmt, OutOfMemory> {
    let value = pop(alloc, stacks)?;
    Ok(Stmt::SetLocal {
        place: 0,
        local: 0,
        value: value.into_inner(),
    })
}

fn choice(alloc: Global, count: i32, stacks: &mut Stacks) -> Result<Stmt, OutOfMemory> {
    let otherwise = list(alloc, 1, stacks)?;
    let body = list(alloc, count.saturating_sub(1), stacks)?;
    let test = pop(alloc, stacks)?;
    Ok(Stmt::If {
        place: 0,
        test: test.into_inner(),
        body,
        otherwise,
    })
}

fn upward(alloc: Global, count: i32, step: i32, stacks: &mut Stacks) -> Result<Stmt, OutOfMemory> {
    let body = list(alloc, count, stacks)?;
    let limit = pop(alloc, stacks)?;
    let start = pop(alloc, stacks)?;
    Ok(Stmt::For(Loop {
        place: 0,
        iter: Name::from_vec(Vec::new(alloc)),
        start: start.into_inner(),
        test: Test::Lt,
        limit: limit.into_inner(),
        step,
        body,
        line: None,
        mark: Mark::Plain,
    }))
}

fn stmt(
    alloc: Global,
    sizes: &[&[u32]],
    code: u8,
    count: i32,
    stacks: &mut Stacks,
) -> Result<Stmt, OutOfMemory> {
    match code {
        b'S'..=b'U' => assign(alloc, sizes, code - b'S', stacks),
        b'P'..=b'R' => add(alloc, sizes, code - b'P', stacks),
        b'L' => set(alloc, stacks),
        b'F' => upward(alloc, count, 1, stacks),
        b'G' => upward(alloc, count, 3, stacks),
        _ => choice(alloc, count, stacks),
    }
}

fn push(
    alloc: Global,
    sizes: &[&[u32]],
    code: u8,
    count: i32,
    stacks: &mut Stacks,
) -> Result<(), OutOfMemory> {
    if code == b' ' {
        stacks.exprs.push(Expr::Literal(Value::Int(count)))?;
    } else if b'D' <= code && code <= b'Z' {
        let next = Boxed::new(alloc, stmt(alloc, sizes, code, count, stacks)?)?;
        stacks.stmts.push(next.into_inner())?;
    } else {
        let next = Boxed::new(alloc, expr(alloc, sizes, code, stacks)?)?;
        stacks.exprs.push(next.into_inner())?;
    }
    Ok(())
}

fn body(alloc: Global, sizes: &[&[u32]], codes: &str) -> Result<Items<Stmt>, OutOfMemory> {
    let mut stacks = Stacks {
        exprs: Items::new(alloc),
        stmts: Items::new(alloc),
    };
    let mut count = 0i32;
    for code in codes.bytes() {
        match code {
            b'0'..=b'9' => {
                count = count.wrapping_mul(10).wrapping_add(i32::from(code - b'0'));
            }
            _ => {
                push(alloc, sizes, code, count, &mut stacks)?;
                count = 0;
            }
        }
    }
    Ok(stacks.stmts)
}

fn arrays(alloc: Global, sizes: &[&[u32]]) -> Result<Items<Array>, OutOfMemory> {
    let mut all = Items::new(alloc);
    for dims in sizes {
        let dims = Vec::from_slice(alloc, dims)?;
        all.push(Array {
            name: Name::from_vec(Vec::new(alloc)),
            kind: Kind::Unsigned,
            dims: Dims::from_vec(dims),
        })?;
    }
    Ok(all)
}

/// A unit of arrays of these sizes and these statements.
pub(super) fn unit(alloc: Global, sizes: &[&[u32]], codes: &str) -> Result<Unit, OutOfMemory> {
    let arrays = arrays(alloc, sizes)?;
    let body = body(alloc, sizes, codes)?;
    Ok(Unit {
        includes: Includes::new(alloc),
        arrays,
        locals: Items::new(alloc),
        function: Name::from_vec(Vec::new(alloc)),
        body,
    })
}
