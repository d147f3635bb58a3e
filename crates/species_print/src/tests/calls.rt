//! The calls for parts of a unit, on a loop of two turns that does nothing.
ghost use Rattle.std.specs.Prelude.{IfOk, All};
ghost use Rattle.species_ast.specs.declared.tree.Unit.{Unit};
ghost use Rattle.species_print.specs.Named.{IsNamed, IsNamedLoop, HasHead};

use super::trees::{arrays, name, unit};
use crate::{print_head, print_loop, print_stmt};
use species_ast::{Expr, Loop, Mark, OutOfMemory, Stmt, Test, Unit, Value};
use sqlite_items::Items;
use std::alloc::Global;
use std::process::Abort;
use std::test::Fail;

fn idle_loop(alloc: Global) -> Loop
    ensures { (u : Unit) → IsNamedLoop u 0 result }
{
    Loop {
        place: 0,
        iter: name(alloc, "i"),
        start: Expr::Literal(Value::Int(0)),
        test: Test::Lt,
        limit: Expr::Literal(Value::Int(2)),
        step: 1,
        body: Items::new(alloc),
        line: None,
        mark: Mark::Plain,
    }
}

/// A list of this loop alone, in which it has its names.
fn idle(alloc: Global) -> Result<Items<Stmt>, OutOfMemory>
    ensures { (u : Unit) → IfOk result (λ all. All (IsNamed u 0) all × All HasHead all) }
{
    let head = idle_loop(alloc);
    let mut all = Items::new(alloc);
    all.push(Stmt::For(head))?;
    Ok(all)
}

fn loop_text(alloc: Global, made: &Unit) -> Result<Vec<u8>, OutOfMemory> {
    let head = idle_loop(alloc);
    let mut text = Vec::new(alloc);
    print_loop(alloc, made, &head, &[], 1, &mut text)?;
    Ok(text)
}

fn head_text(alloc: Global, made: &Unit) -> Result<Vec<u8>, OutOfMemory> {
    let all = idle(alloc)?;
    let mut text = Vec::new(alloc);
    for stmt in all.as_slice() {
        print_head(alloc, made, stmt, &[], 2, &mut text)?;
    }
    Ok(text)
}

fn stmt_text(alloc: Global, made: &Unit) -> Result<Vec<u8>, OutOfMemory> {
    let all = idle(alloc)?;
    let mut text = Vec::new(alloc);
    for stmt in all.as_slice() {
        print_stmt(alloc, made, stmt, &[], 0, &mut text)?;
    }
    Ok(text)
}

fn compare(rt: &impl Abort, found: Result<Vec<u8>, OutOfMemory>, want: &str) -> Result<(), Fail> {
    let found = String::from_utf8(found?)?;
    assert_eq!(rt; found.as_str(), want);
    Ok(())
}

#[test]
fn a_loop_its_head_and_its_statement(rt: HostRuntime) -> Result<(), Fail> {
    let alloc = rt.alloc();
    let made = unit(alloc, arrays(alloc, &[]), Items::new(alloc));
    let lines = "    for (int i = 0; i < 2; i++) {\n    }\n";
    compare(&rt, loop_text(alloc, &made), lines)?;
    let first = "        for (int i = 0; i < 2; i++) {\n";
    compare(&rt, head_text(alloc, &made), first)?;
    compare(
        &rt,
        stmt_text(alloc, &made),
        "for (int i = 0; i < 2; i++) {\n}\n",
    )
}
