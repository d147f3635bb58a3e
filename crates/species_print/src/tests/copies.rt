//! Copies of a marked loop, and what is left of one that is stripped.

use super::trees::{arrays, count, expr, exprs, header, line, number, only, unit};
use species_ast::{Expr, Kind, Loop, Mark, OutOfMemory, Schedule, Stmt, Unit, copy, strip};
use sqlite_items::Items;
use std::alloc::Global;
use std::process::Abort;
use std::test::Fail;

/// `A[i] += 3 - i;`
fn sum(alloc: Global, atomic: bool) -> Result<Stmt, OutOfMemory> {
    let subs = exprs(alloc, "i")?;
    let value = expr(alloc, "3i-")?;
    Ok(Stmt::AddTo {
        place: 60,
        array: 0,
        subs,
        value,
        atomic,
    })
}

/// A list of one atomic and one plain addition.
fn sums(alloc: Global) -> Result<Items<Stmt>, OutOfMemory> {
    let mut all = Items::new(alloc);
    all.push(sum(alloc, true)?)?;
    all.push(sum(alloc, false)?)?;
    Ok(all)
}

/// An `if` with both branches.
fn branches(alloc: Global) -> Result<Items<Stmt>, OutOfMemory> {
    let body = sums(alloc)?;
    let otherwise = sums(alloc)?;
    Ok(only(
        alloc,
        Stmt::If {
            place: 55,
            test: Expr::Local(0),
            body,
            otherwise,
        },
    ))
}

/// A parallel loop with a species line around these statements.
fn marked_loop(alloc: Global, body: Items<Stmt>) -> Items<Stmt> {
    let mut head = count(alloc, "i", 0, number(10), body);
    head.line = Some(line(alloc, "A[0:9]|shared"));
    head.mark = Mark::Parallel {
        depth: 1,
        schedule: Schedule::Guided,
    };
    only(alloc, Stmt::For(head))
}

fn marked(alloc: Global) -> Result<Unit, OutOfMemory> {
    let body = marked_loop(alloc, branches(alloc)?);
    let rows = [("A", Kind::Int, [10].as_slice())];
    let mut made = unit(alloc, arrays(alloc, &rows), body);
    made.includes = header(alloc);
    Ok(made)
}

fn put(text: &[u8], out: &mut Vec<u8>) {
    let _ = out.extend_from_slice(text);
}

fn addition(atomic: bool) -> &'static [u8] {
    if atomic { b"atomic;" } else { b"plain;" }
}

/// The marks of a loop, and its word.
fn describe_head(head: &Loop, out: &mut Vec<u8>) {
    if let Some(line) = &head.line {
        put(line.text(), out);
        put(b" ", out);
    }
    if let Mark::Parallel { .. } = head.mark {
        put(b"parallel ", out);
    }
    put(b"for{", out);
}

/// Writes the words of a loop, of the parts of an `if` and of additions, each with its marks.
fn describe(stmts: &[Stmt], out: &mut Vec<u8>) {
    for stmt in stmts {
        match stmt {
            Stmt::AddTo { atomic, .. } => put(addition(*atomic), out),
            Stmt::If {
                body,
                otherwise,
                ..
            } => {
                put(b"if{", out);
                describe(body.as_slice(), out);
                put(b"}else{", out);
                describe(otherwise.as_slice(), out);
                put(b"}", out);
            }
            Stmt::For(head) => {
                describe_head(head, out);
                describe(head.body.as_slice(), out);
                put(b"}", out);
            }
            _ => put(b"other;", out),
        }
    }
}

fn described(alloc: Global, made: &Unit) -> Result<String, Fail> {
    let mut text = Vec::new(alloc);
    put(made.function.as_slice(), &mut text);
    put(b" ", &mut text);
    describe(made.body.as_slice(), &mut text);
    Ok(String::from_utf8(text)?)
}

fn compare(
    rt: &impl Abort,
    alloc: Global,
    made: Result<Unit, OutOfMemory>,
    want: &str,
) -> Result<(), Fail> {
    let made = made?;
    let found = described(alloc, &made)?;
    assert_eq!(rt; found.as_str(), want);
    assert_eq!(rt; made.arrays.as_slice().len(), 1);
    assert_eq!(rt; made.locals.as_slice().len(), 3);
    assert_eq!(rt; made.includes.as_slice().len(), 1);
    Ok(())
}

#[test]
fn strip_and_copy_of_a_marked_loop(rt: HostRuntime) -> Result<(), Fail> {
    let alloc = rt.alloc();
    let unit = marked(alloc)?;
    let same = "k A[0:9]|shared parallel for{if{atomic;plain;}else{atomic;plain;}}";
    compare(&rt, alloc, copy(alloc, &unit), same)?;
    let lined = "k A[0:9]|shared for{if{plain;plain;}else{plain;plain;}}";
    compare(&rt, alloc, strip(alloc, &unit, true), lined)?;
    let bare = "k for{if{plain;plain;}else{plain;plain;}}";
    compare(&rt, alloc, strip(alloc, &unit, false), bare)
}
