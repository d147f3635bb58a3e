//! Statements and loops, a line each.
ghost use Rattle.std.specs.Prelude.{◌≡◌, ◌++◌, [], ◌∷◌, OnOk, OnErr, IfOk, List, length, codes};
ghost use Rattle.std.specs.List.{flat_map};
ghost use Rattle.species_print.specs.Printed.{text_of};
ghost use Rattle.species_print.specs.Named.{IsNamed, IsNamedLoop, HasHead};
ghost use Rattle.species_print.specs.Statements.{indentation, deeper, stmt_text, loop_text, head_text, without_line, initialiser, atomic_line, step_printed};
ghost use Rattle.species_print.specs.Texts.{element_text, assignment_text, declaration_text, for_start_text, for_test_text, for_end_text, for_head_text, if_head_text, stmts_text, else_text, pragma_text, species_text};

use crate::expressions::{print_expr, print_subs};
use crate::words::{array_name, kind_words, local_kind, local_name, put, put_number, put_spaced};
use species_ast::{Expr, LineText, Loop, Name, OutOfMemory, Stmt, Test, Unit};
use sqlite_items::Items;
use std::alloc::Global;

/// Appends the canonical text of the statement: species lines and atomic lines are written, parallel
/// lines are not. `iters` has the names of the loops around it, outermost first, and `depth` is its
/// indentation in levels of four spaces.
pub fn print_stmt(
    alloc: Global,
    unit: &Unit,
    stmt: &Stmt,
    iters: &[Name],
    depth: u32,
    out: &mut Vec<u8>,
) -> Result<(), OutOfMemory>
    requires { IsNamed unit.now (length iters.now) stmt.now }
    ensures ok { OnOk result (out.new.items ≡ out.old.items ++ stmt_text unit.now iters.now (indentation depth) stmt.now) }
    ensures err { OnErr result (out.new.items ≡ out.old.items) }
{
    let indent = indentation(alloc, depth)?;
    let mut text = Vec::new(alloc);
    print_one(alloc, unit, stmt, iters, indent.as_slice(), &mut text)?;
    put(text.as_slice(), out)?;
    Ok(())
}

/// Appends the canonical text of the loop, as [`print_stmt`] does, without the loop's own species
/// line.
pub fn print_loop(
    alloc: Global,
    unit: &Unit,
    head: &Loop,
    iters: &[Name],
    depth: u32,
    out: &mut Vec<u8>,
) -> Result<(), OutOfMemory>
    requires { IsNamedLoop unit.now (length iters.now) head.now }
    ensures ok { OnOk result (out.new.items ≡ out.old.items ++ loop_text unit.now iters.now (indentation depth) (without_line head.now)) }
    ensures err { OnErr result (out.new.items ≡ out.old.items) }
{
    let indent = indentation(alloc, depth)?;
    let mut text = Vec::new(alloc);
    print_bare_loop(alloc, unit, head, iters, indent.as_slice(), &mut text)?;
    put(text.as_slice(), out)?;
    Ok(())
}

/// Appends the first line of an `if` or of a loop, without pragma lines.
pub fn print_head(
    alloc: Global,
    unit: &Unit,
    stmt: &Stmt,
    iters: &[Name],
    depth: u32,
    out: &mut Vec<u8>,
) -> Result<(), OutOfMemory>
    requires named { IsNamed unit.now (length iters.now) stmt.now }
    requires has_head { HasHead stmt.now }
    ensures ok { OnOk result (out.new.items ≡ out.old.items ++ head_text unit.now iters.now (indentation depth) stmt.now) }
    ensures err { OnErr result (out.new.items ≡ out.old.items) }
{
    let indent = indentation(alloc, depth)?;
    let mut text = Vec::new(alloc);
    print_first_line(alloc, unit, stmt, iters, indent.as_slice(), &mut text)?;
    put(text.as_slice(), out)?;
    Ok(())
}

fn indentation(alloc: Global, depth: u32) -> Result<Vec<u8>, OutOfMemory>
    ensures { IfOk result (λ indent. indent.items ≡ indentation depth) }
{
    let mut indent = Vec::new(alloc);
    for _level in 0..depth {
        indent.extend_from_slice(b"    ")?;
    }
    Ok(indent)
}

/// The indentation of one level more.
fn deeper(alloc: Global, indent: &[u8]) -> Result<Vec<u8>, OutOfMemory>
    ensures { IfOk result (λ more. more.items ≡ deeper indent.now) }
{
    let mut more = Vec::from_slice(alloc, indent)?;
    more.extend_from_slice(b"    ")?;
    Ok(more)
}

/// The names of the loops around a loop, and its own.
fn names_within(alloc: Global, iters: &[Name], iter: &Name) -> Result<Items<Name>, OutOfMemory>
    ensures { IfOk result (λ names. names ≡ iters.now ++ iter.now ∷ []) }
{
    let mut names = Items::new(alloc);
    for name in iters {
        names.push(name.copy(alloc)?)?;
    }
    names.push(iter.copy(alloc)?)?;
    Ok(names)
}

fn print_first_line(
    alloc: Global,
    unit: &Unit,
    stmt: &Stmt,
    iters: &[Name],
    indent: &[u8],
    out: &mut Vec<u8>,
) -> Result<(), OutOfMemory>
    ensures { OnOk result (out.new.items ≡ out.old.items ++ head_text unit.now iters.now indent.now stmt.now) }
{
    match stmt {
        Stmt::If { test, .. } => {
            print_if_head(unit, iters, indent, test, out)?;
            Ok(())
        }
        Stmt::For(head) => {
            print_for_head(alloc, unit, iters, indent, head, out)?;
            Ok(())
        }
        _ => Ok(()),
    }
}

fn print_if_head(
    unit: &Unit,
    iters: &[Name],
    indent: &[u8],
    test: &Expr,
    out: &mut Vec<u8>,
) -> Result<(), OutOfMemory>
    ensures { OnOk result (out.new.items ≡ out.old.items ++ if_head_text unit.now iters.now indent.now test.now) }
{
    put(indent, out)?;
    put(b"if (", out)?;
    print_expr(unit, iters, test, out)?;
    put(b") {\n", out)?;
    Ok(())
}

fn print_for_head(
    alloc: Global,
    unit: &Unit,
    iters: &[Name],
    indent: &[u8],
    head: &Loop,
    out: &mut Vec<u8>,
) -> Result<(), OutOfMemory>
    ensures { OnOk result (out.new.items ≡ out.old.items ++ for_head_text unit.now iters.now indent.now head.now) }
{
    let names = names_within(alloc, iters, &head.iter)?;
    let iter = head.iter.as_slice();
    print_for_start(unit, iters, indent, iter, &head.start, out)?;
    print_for_test(unit, names.as_slice(), iter, head.test, &head.limit, out)?;
    print_for_end(iter, head, out)?;
    Ok(())
}

fn print_for_start(
    unit: &Unit,
    iters: &[Name],
    indent: &[u8],
    iter: &[u8],
    start: &Expr,
    out: &mut Vec<u8>,
) -> Result<(), OutOfMemory>
    ensures { OnOk result (out.new.items ≡ out.old.items ++ for_start_text unit.now iters.now indent.now iter.now start.now) }
{
    put(indent, out)?;
    put(b"for (int ", out)?;
    put(iter, out)?;
    put(b" = ", out)?;
    print_expr(unit, iters, start, out)?;
    put(b"; ", out)?;
    Ok(())
}

fn print_for_test(
    unit: &Unit,
    iters: &[Name],
    iter: &[u8],
    test: Test,
    limit: &Expr,
    out: &mut Vec<u8>,
) -> Result<(), OutOfMemory>
    ensures { OnOk result (out.new.items ≡ out.old.items ++ for_test_text unit.now iters.now iter.now test limit.now) }
{
    put(iter, out)?;
    put_spaced(test.sign(), out)?;
    print_expr(unit, iters, limit, out)?;
    put(b"; ", out)?;
    Ok(())
}

fn print_for_end(iter: &[u8], head: &Loop, out: &mut Vec<u8>) -> Result<(), OutOfMemory>
    ensures { OnOk result (out.new.items ≡ out.old.items ++ for_end_text iter.now head.now) }
{
    print_step(iter, head.step, out)?;
    put(b") {\n", out)?;
    Ok(())
}

fn print_step(iter: &[u8], step: i32, out: &mut Vec<u8>) -> Result<(), OutOfMemory>
    ensures { OnOk result (out.new.items ≡ out.old.items ++ text_of (step_printed iter.now step)) }
{
    put(iter, out)?;
    match step {
        1 => put(b"++", out)?,
        -1 => put(b"--", out)?,
        n if n < 0 => {
            put(b" -= ", out)?;
            put_number(u64::from(n.unsigned_abs()), out)?;
        }
        n => {
            put(b" += ", out)?;
            put_number(u64::from(n.unsigned_abs()), out)?;
        }
    }
    Ok(())
}

fn print_assignment(
    unit: &Unit,
    iters: &[Name],
    sign: &[u8],
    value: &Expr,
    out: &mut Vec<u8>,
) -> Result<(), OutOfMemory>
    ensures { OnOk result (out.new.items ≡ out.old.items ++ assignment_text unit.now iters.now sign.now value.now) }
{
    put(sign, out)?;
    print_expr(unit, iters, value, out)?;
    put(b";\n", out)?;
    Ok(())
}

fn print_element(
    unit: &Unit,
    iters: &[Name],
    array: u32,
    subs: &[Expr],
    out: &mut Vec<u8>,
) -> Result<(), OutOfMemory>
    ensures { OnOk result (out.new.items ≡ out.old.items ++ element_text unit.now iters.now array subs.now) }
{
    put(array_name(unit, array), out)?;
    print_subs(unit, iters, subs, out)?;
    Ok(())
}

fn print_declaration(
    unit: &Unit,
    iters: &[Name],
    local: u32,
    init: &Option<Expr>,
    out: &mut Vec<u8>,
) -> Result<(), OutOfMemory>
    ensures { OnOk result (out.new.items ≡ out.old.items ++ declaration_text unit.now iters.now local init.now) }
{
    put(kind_words(local_kind(unit, local)), out)?;
    put(b" ", out)?;
    put(local_name(unit, local), out)?;
    print_initialiser(unit, iters, init, out)?;
    put(b";\n", out)?;
    Ok(())
}

fn print_initialiser(
    unit: &Unit,
    iters: &[Name],
    init: &Option<Expr>,
    out: &mut Vec<u8>,
) -> Result<(), OutOfMemory>
    ensures { OnOk result (out.new.items ≡ out.old.items ++ text_of (initialiser unit.now iters.now init.now)) }
{
    match init {
        None => Ok(()),
        Some(expr) => {
            put(b" = ", out)?;
            print_expr(unit, iters, expr, out)?;
            Ok(())
        }
    }
}

fn print_species_line(
    indent: &[u8],
    line: &Option<LineText>,
    out: &mut Vec<u8>,
) -> Result<(), OutOfMemory>
    ensures { OnOk result (out.new.items ≡ out.old.items ++ species_text indent.now line.now) }
{
    match line {
        None => Ok(()),
        Some(line) => {
            put(indent, out)?;
            print_pragma(line.text(), out)?;
            Ok(())
        }
    }
}

fn print_pragma(text: &[u8], out: &mut Vec<u8>) -> Result<(), OutOfMemory>
    ensures { OnOk result (out.new.items ≡ out.old.items ++ pragma_text text.now) }
{
    put(b"#pragma species ", out)?;
    put(text, out)?;
    put(b"\n", out)?;
    Ok(())
}

fn print_atomic_line(indent: &[u8], atomic: bool, out: &mut Vec<u8>) -> Result<(), OutOfMemory>
    ensures { OnOk result (out.new.items ≡ out.old.items ++ text_of (atomic_line atomic indent.now)) }
{
    if atomic {
        put(indent, out)?;
        put(b"#pragma omp atomic update\n", out)?;
        Ok(())
    } else {
        Ok(())
    }
}

/// `depth` in [`print_stmt`] is `indent` here, as the text that it is.
#[cycle(print_stmt)]
fn print_one(
    alloc: Global,
    unit: &Unit,
    stmt: &Stmt,
    iters: &[Name],
    indent: &[u8],
    out: &mut Vec<u8>,
) -> Result<(), OutOfMemory>
    ensures { OnOk result (out.new.items ≡ out.old.items ++ stmt_text unit.now iters.now indent.now stmt.now) }
{
    match stmt {
        Stmt::Assign {
            array,
            subs,
            value,
            ..
        } => {
            put(indent, out)?;
            print_element(unit, iters, *array, subs.as_slice(), out)?;
            print_assignment(unit, iters, b" = ", value, out)?;
            Ok(())
        }
        Stmt::AddTo {
            array,
            subs,
            value,
            atomic,
            ..
        } => {
            print_atomic_line(indent, *atomic, out)?;
            put(indent, out)?;
            print_element(unit, iters, *array, subs.as_slice(), out)?;
            print_assignment(unit, iters, b" += ", value, out)?;
            Ok(())
        }
        Stmt::Declare { local, init, .. } => {
            put(indent, out)?;
            print_declaration(unit, iters, *local, init, out)?;
            Ok(())
        }
        Stmt::SetLocal { local, value, .. } => {
            put(indent, out)?;
            put(local_name(unit, *local), out)?;
            print_assignment(unit, iters, b" = ", value, out)?;
            Ok(())
        }
        Stmt::If {
            test,
            body,
            otherwise,
            ..
        } => {
            print_if_head(unit, iters, indent, test, out)?;
            print_deeper(alloc, unit, body.as_slice(), iters, indent, out)?;
            print_else(alloc, unit, otherwise.as_slice(), iters, indent, out)?;
            print_close(indent, out)?;
            Ok(())
        }
        Stmt::For(head) => {
            print_species_line(indent, &head.line, out)?;
            print_bare_loop(alloc, unit, head, iters, indent, out)?;
            Ok(())
        }
        Stmt::Block(body) => {
            put(indent, out)?;
            put(b"{\n", out)?;
            print_deeper(alloc, unit, body.as_slice(), iters, indent, out)?;
            print_close(indent, out)?;
            Ok(())
        }
    }
}

#[cycle(print_stmt)]
fn print_bare_loop(
    alloc: Global,
    unit: &Unit,
    head: &Loop,
    iters: &[Name],
    indent: &[u8],
    out: &mut Vec<u8>,
) -> Result<(), OutOfMemory>
    ensures { OnOk result (out.new.items ≡ out.old.items ++ loop_text unit.now iters.now indent.now (without_line head.now)) }
{
    print_for_head(alloc, unit, iters, indent, head, out)?;
    let names = names_within(alloc, iters, &head.iter)?;
    print_deeper(
        alloc,
        unit,
        head.body.as_slice(),
        names.as_slice(),
        indent,
        out,
    )?;
    print_close(indent, out)?;
    Ok(())
}

fn print_close(indent: &[u8], out: &mut Vec<u8>) -> Result<(), OutOfMemory>
    ensures { OnOk result (out.new.items ≡ out.old.items ++ (indent.now ++ codes "}\n")) }
{
    put(indent, out)?;
    put(b"}\n", out)?;
    Ok(())
}

#[cycle(print_stmt)]
fn print_else(
    alloc: Global,
    unit: &Unit,
    otherwise: &[Stmt],
    iters: &[Name],
    indent: &[u8],
    out: &mut Vec<u8>,
) -> Result<(), OutOfMemory>
    ensures { OnOk result (out.new.items ≡ out.old.items ++ else_text unit.now iters.now indent.now otherwise.now) }
{
    if otherwise.is_empty() {
        Ok(())
    } else {
        put(indent, out)?;
        put(b"} else {\n", out)?;
        print_deeper(alloc, unit, otherwise, iters, indent, out)?;
        Ok(())
    }
}

/// The statements, each one level deeper.
#[cycle(print_stmt)]
fn print_deeper(
    alloc: Global,
    unit: &Unit,
    stmts: &[Stmt],
    iters: &[Name],
    indent: &[u8],
    out: &mut Vec<u8>,
) -> Result<(), OutOfMemory>
    ensures { OnOk result (out.new.items ≡ out.old.items ++ stmts_text unit.now iters.now (deeper indent.now) stmts.now) }
{
    let indent = deeper(alloc, indent)?;
    print_all(alloc, unit, stmts, iters, indent.as_slice(), out)?;
    Ok(())
}

/// The statements at this indentation.
#[cycle(print_stmt)]
pub(crate) fn print_all(
    alloc: Global,
    unit: &Unit,
    stmts: &[Stmt],
    iters: &[Name],
    indent: &[u8],
    out: &mut Vec<u8>,
) -> Result<(), OutOfMemory>
    ensures { OnOk result (out.new.items ≡ out.old.items ++ stmts_text unit.now iters.now indent.now stmts.now) }
{
    for stmt in stmts {
        print_one(alloc, unit, stmt, iters, indent, out)?;
    }
    Ok(())
}
