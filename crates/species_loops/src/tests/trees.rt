//! Builders of loops. Expressions and statements stand in postfix order: a number with a blank behind
//! it, the iterators `i` to `l` of the levels 0 to 3, `+ - * /`, and `n` for a minus before its operand.
//! `S` is an assignment. The codes of the other statements stand behind the number of statements in
//! them: `F` and `G` count from one expression up to below another, `F` by 1 and `G` by 3; `B` is a
//! block, and `W` and `J` an `if`, of which `J` has its last statement behind `else`.

use species_ast::{
    Binary, Expr, Includes, Loop, Mark, Name, OutOfMemory, Stmt, Test, Unary, Unit, Value,
};
use sqlite_items::{Boxed, Items};
use std::alloc::Global;

/// What a loop starts with, its test against a limit, and its step.
pub(super) type Header = (&'static str, Test, &'static str, i32);

/// What stands before a code.
#[derive(Drop)]
struct Stacks {
    exprs: Items<Expr>,
    stmts: Items<Stmt>,
}

fn pop(alloc: Global, stacks: &mut Stacks) -> Result<Boxed<Expr>, OutOfMemory> {
    let top = stacks.exprs.pop().ok_or(OutOfMemory)?;
    Ok(Boxed::new(alloc, top)?)
}

fn binary(alloc: Global, op: Binary, stacks: &mut Stacks) -> Result<Expr, OutOfMemory> {
    let b = pop(alloc, stacks)?;
    let a = pop(alloc, stacks)?;
    Ok(Expr::Binary(op, a, b))
}

fn expr(alloc: Global, code: u8, stacks: &mut Stacks) -> Result<Expr, OutOfMemory> {
    match code {
        b'i'..=b'l' => Ok(Expr::Iter(u32::from(code - b'i'))),
        b'+' => binary(alloc, Binary::Add, stacks),
        b'-' => binary(alloc, Binary::Sub, stacks),
        b'*' => binary(alloc, Binary::Mul, stacks),
        b'/' => binary(alloc, Binary::Div, stacks),
        _ => Ok(Expr::Unary(Unary::Neg, pop(alloc, stacks)?)),
    }
}

fn number(n: i32) -> Expr {
    Expr::Literal(Value::Int(n))
}

/// The last statements, the first of them first.
fn list(alloc: Global, count: i32, stacks: &mut Stacks) -> Result<Items<Stmt>, OutOfMemory> {
    let mut back = Items::new(alloc);
    for _ in 0..count {
        back.push(stacks.stmts.pop().ok_or(OutOfMemory)?)?;
    }
    let mut all = Items::new(alloc);
    for _ in 0..count {
        all.push(back.pop().ok_or(OutOfMemory)?)?;
    }
    Ok(all)
}

fn looped(
    alloc: Global,
    start: Boxed<Expr>,
    test: Test,
    limit: Boxed<Expr>,
    step: i32,
    body: Items<Stmt>,
) -> Loop {
    Loop {
        place: 0,
        iter: Name::from_vec(Vec::new(alloc)),
        start: start.into_inner(),
        test,
        limit: limit.into_inner(),
        step,
        body,
        line: None,
        mark: Mark::Plain,
    }
}

fn upward(alloc: Global, count: i32, step: i32, stacks: &mut Stacks) -> Result<Stmt, OutOfMemory> {
    let body = list(alloc, count, stacks)?;
    let limit = pop(alloc, stacks)?;
    let start = pop(alloc, stacks)?;
    Ok(Stmt::For(looped(alloc, start, Test::Lt, limit, step, body)))
}

fn choice(alloc: Global, count: i32, last: i32, stacks: &mut Stacks) -> Result<Stmt, OutOfMemory> {
    let otherwise = list(alloc, last, stacks)?;
    let body = list(alloc, count, stacks)?;
    Ok(Stmt::If {
        place: 0,
        test: number(1),
        body,
        otherwise,
    })
}

fn stmt(alloc: Global, code: u8, count: i32, stacks: &mut Stacks) -> Result<Stmt, OutOfMemory> {
    match code {
        b'F' => upward(alloc, count, 1, stacks),
        b'G' => upward(alloc, count, 3, stacks),
        b'B' => Ok(Stmt::Block(list(alloc, count, stacks)?)),
        b'W' => choice(alloc, count, 0, stacks),
        b'J' => choice(alloc, count.saturating_sub(1), 1, stacks),
        _ => Ok(Stmt::Assign {
            place: 0,
            array: 0,
            subs: Items::new(alloc),
            value: number(0),
        }),
    }
}

fn push(alloc: Global, code: u8, count: i32, stacks: &mut Stacks) -> Result<(), OutOfMemory> {
    if code == b' ' {
        stacks.exprs.push(number(count))?;
    } else if b'A' <= code && code <= b'Z' {
        let next = Boxed::new(alloc, stmt(alloc, code, count, stacks)?)?;
        stacks.stmts.push(next.into_inner())?;
    } else {
        let next = Boxed::new(alloc, expr(alloc, code, stacks)?)?;
        stacks.exprs.push(next.into_inner())?;
    }
    Ok(())
}

fn read_codes(alloc: Global, codes: &str) -> Result<Stacks, OutOfMemory> {
    let mut stacks = Stacks {
        exprs: Items::new(alloc),
        stmts: Items::new(alloc),
    };
    let mut count = 0i32;
    for code in codes.bytes() {
        match code {
            b'0'..=b'9' => {
                count = count.wrapping_mul(10).wrapping_add(i32::from(code - b'0'));
            }
            _ => {
                push(alloc, code, count, &mut stacks)?;
                count = 0;
            }
        }
    }
    Ok(stacks)
}

fn bound(alloc: Global, codes: &str) -> Result<Boxed<Expr>, OutOfMemory> {
    let mut stacks = read_codes(alloc, codes)?;
    pop(alloc, &mut stacks)
}

/// Loops with these headers and nothing in them.
pub(super) fn loops(alloc: Global, headers: &[Header]) -> Result<Items<Loop>, OutOfMemory> {
    let mut all = Items::new(alloc);
    for (start, test, limit, step) in headers {
        let start = bound(alloc, start)?;
        let limit = bound(alloc, limit)?;
        let empty = Items::new(alloc);
        all.push(looped(alloc, start, *test, limit, *step, empty))?;
    }
    Ok(all)
}

/// A unit of these statements, with no arrays.
pub(super) fn unit(alloc: Global, codes: &str) -> Result<Unit, OutOfMemory> {
    let stacks = read_codes(alloc, codes)?;
    Ok(Unit {
        includes: Includes::new(alloc),
        arrays: Items::new(alloc),
        locals: Items::new(alloc),
        function: Name::from_vec(Vec::new(alloc)),
        body: stacks.stmts,
    })
}
