//! Builders of trees. Expressions stand in postfix order: `a` to `c` are locals, `i` and `j` iterators,
//! `A` to `C` take one subscript and `X` and `Y` two, `n` is a minus before its operand, `m` the
//! literal -1; `k`, `l` and `x` are literals of 64 bits, `u`, `L` and `U` casts. Where memory runs out
//! a name or a list is too short, so that no test finds the text right.

use species_ast::{
    Array, Binary, Dims, Expr, Includes, Kind, LineText, LocalInfo, Loop, Mark, Name, OutOfMemory,
    Stmt, Test, Unary, Unit, Value,
};
use sqlite_items::{Boxed, Items};
use std::alloc::Global;

fn bytes(alloc: Global, text: &str) -> Vec<u8> {
    let mut all = Vec::new(alloc);
    let _ = all.extend_from_slice(text.as_bytes());
    all
}

pub(super) fn name(alloc: Global, text: &str) -> Name {
    Name::from_vec(bytes(alloc, text))
}

pub(super) fn line(alloc: Global, text: &str) -> LineText {
    LineText::new(bytes(alloc, text), 30)
}

pub(super) fn header(alloc: Global) -> Includes {
    let mut includes = Includes::new(alloc);
    let _ = includes.push(name(alloc, "<stdint.h>"));
    includes
}

fn dims(alloc: Global, sizes: &[u32]) -> Dims {
    let mut all = Vec::new(alloc);
    let _ = all.extend_from_slice(sizes);
    Dims::from_vec(all)
}

pub(super) fn arrays(alloc: Global, rows: &[(&str, Kind, &[u32])]) -> Items<Array> {
    let mut all = Items::new(alloc);
    for (text, kind, sizes) in rows {
        let _ = all.push(Array {
            name: name(alloc, text),
            kind: *kind,
            dims: dims(alloc, sizes),
        });
    }
    all
}

fn locals(alloc: Global) -> Items<LocalInfo> {
    let mut all = Items::new(alloc);
    for text in ["a", "b", "c"] {
        let _ = all.push(LocalInfo {
            name: name(alloc, text),
            kind: Kind::Unsigned,
        });
    }
    all
}

/// A unit of these arrays and this body, with locals `a` to `c`.
pub(super) fn unit(alloc: Global, arrays: Items<Array>, body: Items<Stmt>) -> Unit {
    Unit {
        includes: Includes::new(alloc),
        arrays,
        locals: locals(alloc),
        function: name(alloc, "k"),
        body,
    }
}

/// A list of this statement alone.
pub(super) fn only(alloc: Global, stmt: Stmt) -> Items<Stmt> {
    let mut all = Items::new(alloc);
    let _ = all.push(stmt);
    all
}

pub(super) fn number(n: i32) -> Expr {
    Expr::Literal(Value::Int(n))
}

/// A loop from `start` that counts up by 1.
pub(super) fn count(alloc: Global, iter: &str, start: i32, limit: Expr, body: Items<Stmt>) -> Loop {
    Loop {
        place: 50,
        iter: name(alloc, iter),
        start: number(start),
        test: Test::Lt,
        limit,
        step: 1,
        body,
        line: None,
        mark: Mark::Plain,
    }
}

fn pop(alloc: Global, stack: &mut Items<Expr>) -> Result<Boxed<Expr>, OutOfMemory> {
    let top = stack.pop().ok_or(OutOfMemory)?;
    Ok(Boxed::new(alloc, top)?)
}

fn binary(alloc: Global, op: Binary, stack: &mut Items<Expr>) -> Result<Expr, OutOfMemory> {
    let b = pop(alloc, stack)?;
    let a = pop(alloc, stack)?;
    Ok(Expr::Binary(op, a, b))
}

fn cond(alloc: Global, stack: &mut Items<Expr>) -> Result<Expr, OutOfMemory> {
    let b = pop(alloc, stack)?;
    let a = pop(alloc, stack)?;
    let test = pop(alloc, stack)?;
    Ok(Expr::Cond(test, a, b))
}

fn element(alloc: Global, array: u8, stack: &mut Items<Expr>) -> Result<Expr, OutOfMemory> {
    let mut subs = Items::new(alloc);
    subs.push(stack.pop().ok_or(OutOfMemory)?)?;
    Ok(Expr::Elem(u32::from(array), subs))
}

fn element2(alloc: Global, array: u8, stack: &mut Items<Expr>) -> Result<Expr, OutOfMemory> {
    let second = pop(alloc, stack)?;
    let mut subs = Items::new(alloc);
    subs.push(stack.pop().ok_or(OutOfMemory)?)?;
    subs.push(second.into_inner())?;
    Ok(Expr::Elem(u32::from(array), subs))
}

fn operator(code: u8) -> Binary {
    match code {
        b'+' => Binary::Add,
        b'-' => Binary::Sub,
        b'*' => Binary::Mul,
        b'/' => Binary::Div,
        b'&' => Binary::BitAnd,
        _ => Binary::Eq,
    }
}

fn cast(code: u8) -> Kind {
    match code {
        b'L' => Kind::Long,
        b'U' => Kind::UnsignedLong,
        _ => Kind::Unsigned,
    }
}

fn literal(code: u8) -> Value {
    match code {
        b'l' => Value::Long(i64::MAX),
        b'k' => Value::Long(-1),
        b'x' => Value::UnsignedLong(u64::MAX),
        b'0'..=b'9' => Value::Int(i32::from(code - b'0')),
        _ => Value::Int(-1),
    }
}

fn term(alloc: Global, code: u8, stack: &mut Items<Expr>) -> Result<Expr, OutOfMemory> {
    match code {
        b'a'..=b'c' => Ok(Expr::Local(u32::from(code - b'a'))),
        b'i'..=b'j' => Ok(Expr::Iter(u32::from(code - b'i'))),
        b'A'..=b'C' => element(alloc, code - b'A', stack),
        b'X'..=b'Y' => element2(alloc, code - b'X', stack),
        b'n' => Ok(Expr::Unary(Unary::Neg, pop(alloc, stack)?)),
        b'~' => Ok(Expr::Unary(Unary::Not, pop(alloc, stack)?)),
        b'?' => cond(alloc, stack),
        b'u' | b'L' | b'U' => Ok(Expr::Cast(cast(code), pop(alloc, stack)?)),
        b'+' | b'-' | b'*' | b'/' | b'&' | b'=' => binary(alloc, operator(code), stack),
        _ => Ok(Expr::Literal(literal(code))),
    }
}

/// The expressions that these codes leave, in their order.
pub(super) fn exprs(alloc: Global, codes: &str) -> Result<Items<Expr>, OutOfMemory> {
    let mut stack = Items::new(alloc);
    for code in codes.bytes() {
        let next = term(alloc, code, &mut stack)?;
        stack.push(next)?;
    }
    Ok(stack)
}

pub(super) fn expr(alloc: Global, codes: &str) -> Result<Expr, OutOfMemory> {
    let mut stack = exprs(alloc, codes)?;
    stack.pop().ok_or(OutOfMemory)
}

/// A list of one assignment to an element.
pub(super) fn assign(
    alloc: Global,
    array: u32,
    subs: &str,
    value: &str,
) -> Result<Items<Stmt>, OutOfMemory> {
    let subs = exprs(alloc, subs)?;
    let value = expr(alloc, value)?;
    Ok(only(
        alloc,
        Stmt::Assign {
            place: 0,
            array,
            subs,
            value,
        },
    ))
}

/// A list of `a = value;` alone.
pub(super) fn set(alloc: Global, value: &str) -> Result<Items<Stmt>, OutOfMemory> {
    let value = expr(alloc, value)?;
    Ok(only(
        alloc,
        Stmt::SetLocal {
            place: 0,
            local: 0,
            value,
        },
    ))
}
