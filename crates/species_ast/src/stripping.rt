//! Kernels without their marks.

ghost use Rattle.std.specs.Prelude.{◌≡◌, IfOk, false, map};
ghost use Rattle.species_ast.specs.Marks.{IsUnmarked, HasNoLine};
ghost use Rattle.species_ast.specs.Scope.References.{HasReadSize};
ghost use Rattle.species_ast.specs.Scope.WellMade.{IsWellMade};
ghost use Rattle.species_ast.specs.Strip.{strip_of, strip_stmt, strip_loop};

use crate::copies::{copy_arrays, copy_expr, copy_exprs, copy_init, copy_line, copy_locals};
use crate::memory::OutOfMemory;
use crate::tree::{Loop, Mark, Stmt, Unit};
use sqlite_items::Items;
use std::alloc::Global;

/// A copy of the unit with plain marks and no atomic addition. Its species lines stay where
/// `keep_lines` is true, and are left out where it is false. A well made unit stays well made, and
/// keeps the size of one that is read.
pub fn strip(alloc: Global, unit: &Unit, keep_lines: bool) -> Result<Unit, OutOfMemory>
    ensures value { IfOk result (λ stripped. stripped ≡ strip_of keep_lines unit.now) }
    ensures unmarked { IfOk result IsUnmarked }
    ensures without_lines { keep_lines ≡ false → IfOk result HasNoLine }
    ensures well_made { IsWellMade unit.now → IfOk result IsWellMade }
    ensures size { HasReadSize unit.now → IfOk result HasReadSize }
{
    let includes = unit.includes.copy(alloc)?;
    let arrays = copy_arrays(alloc, unit.arrays.as_slice())?;
    let locals = copy_locals(alloc, unit.locals.as_slice())?;
    let function = unit.function.copy(alloc)?;
    let body = strip_stmts(alloc, unit.body.as_slice(), keep_lines)?;
    Ok(Unit {
        includes,
        arrays,
        locals,
        function,
        body,
    })
}

#[cycle(strip)]
fn strip_one(alloc: Global, stmt: &Stmt, keep_lines: bool) -> Result<Stmt, OutOfMemory>
    ensures { IfOk result (λ stripped. stripped ≡ strip_stmt keep_lines stmt.now) }
{
    match stmt {
        Stmt::Assign {
            place,
            array,
            subs,
            value,
        } => {
            let subs = copy_exprs(alloc, subs.as_slice())?;
            let value = copy_expr(alloc, value)?;
            Ok(Stmt::Assign {
                place: *place,
                array: *array,
                subs,
                value,
            })
        }
        Stmt::AddTo {
            place,
            array,
            subs,
            value,
            atomic: _,
        } => {
            let subs = copy_exprs(alloc, subs.as_slice())?;
            let value = copy_expr(alloc, value)?;
            Ok(Stmt::AddTo {
                place: *place,
                array: *array,
                subs,
                value,
                atomic: false,
            })
        }
        Stmt::Declare { place, local, init } => {
            let init = copy_init(alloc, init)?;
            Ok(Stmt::Declare {
                place: *place,
                local: *local,
                init,
            })
        }
        Stmt::SetLocal {
            place,
            local,
            value,
        } => {
            let value = copy_expr(alloc, value)?;
            Ok(Stmt::SetLocal {
                place: *place,
                local: *local,
                value,
            })
        }
        Stmt::If {
            place,
            test,
            body,
            otherwise,
        } => {
            let test = copy_expr(alloc, test)?;
            let body = strip_stmts(alloc, body.as_slice(), keep_lines)?;
            let otherwise = strip_stmts(alloc, otherwise.as_slice(), keep_lines)?;
            Ok(Stmt::If {
                place: *place,
                test,
                body,
                otherwise,
            })
        }
        Stmt::For(head) => {
            let head = strip_head(alloc, head, keep_lines)?;
            Ok(Stmt::For(head))
        }
        Stmt::Block(body) => {
            let body = strip_stmts(alloc, body.as_slice(), keep_lines)?;
            Ok(Stmt::Block(body))
        }
    }
}

#[cycle(strip)]
fn strip_head(alloc: Global, head: &Loop, keep_lines: bool) -> Result<Loop, OutOfMemory>
    ensures { IfOk result (λ stripped. stripped ≡ strip_loop keep_lines head.now) }
{
    let iter = head.iter.copy(alloc)?;
    let start = copy_expr(alloc, &head.start)?;
    let limit = copy_expr(alloc, &head.limit)?;
    let body = strip_stmts(alloc, head.body.as_slice(), keep_lines)?;
    let line = if keep_lines {
        copy_line(alloc, &head.line)?
    } else {
        None
    };
    Ok(Loop {
        place: head.place,
        iter,
        start,
        test: head.test,
        limit,
        step: head.step,
        body,
        line,
        mark: Mark::Plain,
    })
}

#[cycle(strip)]
fn strip_stmts(alloc: Global, all: &[Stmt], keep_lines: bool) -> Result<Items<Stmt>, OutOfMemory>
    ensures { IfOk result (λ copies. copies ≡ map (strip_stmt keep_lines) all.now) }
{
    let mut copies = Items::new(alloc);
    for stmt in all {
        copies.push(strip_one(alloc, stmt, keep_lines)?)?;
    }
    Ok(copies)
}
