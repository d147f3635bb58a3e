//! Copies of trees.

ghost use Rattle.std.specs.Prelude.{◌≡◌, IfOk};

use crate::memory::OutOfMemory;
use crate::text::LineText;
use crate::tree::{Array, Expr, LocalInfo, Loop, Stmt, Unit};
use sqlite_items::{Boxed, Items};
use std::alloc::Global;

/// A copy of the expression.
#[cycle(copy_expr)]
pub fn copy_expr(alloc: Global, expr: &Expr) -> Result<Expr, OutOfMemory>
    ensures { IfOk result (λ copy. copy ≡ expr.now) }
{
    match expr {
        Expr::Literal(value) => Ok(Expr::Literal(*value)),
        Expr::Iter(level) => Ok(Expr::Iter(*level)),
        Expr::Local(local) => Ok(Expr::Local(*local)),
        Expr::Elem(array, subs) => {
            let subs = copy_exprs(alloc, subs.as_slice())?;
            Ok(Expr::Elem(*array, subs))
        }
        Expr::Unary(op, a) => {
            let a = copy_boxed(alloc, a)?;
            Ok(Expr::Unary(*op, a))
        }
        Expr::Binary(op, a, b) => {
            let a = copy_boxed(alloc, a)?;
            let b = copy_boxed(alloc, b)?;
            Ok(Expr::Binary(*op, a, b))
        }
        Expr::And(a, b) => {
            let a = copy_boxed(alloc, a)?;
            let b = copy_boxed(alloc, b)?;
            Ok(Expr::And(a, b))
        }
        Expr::Or(a, b) => {
            let a = copy_boxed(alloc, a)?;
            let b = copy_boxed(alloc, b)?;
            Ok(Expr::Or(a, b))
        }
        Expr::Cond(test, a, b) => {
            let test = copy_boxed(alloc, test)?;
            let a = copy_boxed(alloc, a)?;
            let b = copy_boxed(alloc, b)?;
            Ok(Expr::Cond(test, a, b))
        }
        Expr::Cast(kind, a) => {
            let a = copy_boxed(alloc, a)?;
            Ok(Expr::Cast(*kind, a))
        }
    }
}

#[cycle(copy_expr)]
fn copy_boxed(alloc: Global, expr: &Boxed<Expr>) -> Result<Boxed<Expr>, OutOfMemory>
    ensures { IfOk result (λ copy. copy ≡ expr.now) }
{
    let copy = copy_expr(alloc, expr.get())?;
    let copy = Boxed::new(alloc, copy)?;
    Ok(copy)
}

/// A copy of each expression.
#[cycle(copy_expr)]
pub fn copy_exprs(alloc: Global, all: &[Expr]) -> Result<Items<Expr>, OutOfMemory>
    ensures { IfOk result (λ copies. copies ≡ all.now) }
{
    let mut copies = Items::new(alloc);
    for expr in all {
        copies.push(copy_expr(alloc, expr)?)?;
    }
    Ok(copies)
}

pub(crate) fn copy_init(alloc: Global, init: &Option<Expr>) -> Result<Option<Expr>, OutOfMemory>
    ensures { IfOk result (λ copy. copy ≡ init.now) }
{
    match init {
        None => Ok(None),
        Some(expr) => Ok(Some(copy_expr(alloc, expr)?)),
    }
}

/// A copy of the statement, marks and species lines included.
#[cycle(copy_stmt)]
pub fn copy_stmt(alloc: Global, stmt: &Stmt) -> Result<Stmt, OutOfMemory>
    ensures { IfOk result (λ copy. copy ≡ stmt.now) }
{
    match stmt {
        Stmt::Assign {
            place,
            array,
            subs,
            value,
        } => {
            let subs = copy_exprs(alloc, subs.as_slice())?;
            let value = copy_expr(alloc, value)?;
            Ok(Stmt::Assign {
                place: *place,
                array: *array,
                subs,
                value,
            })
        }
        Stmt::AddTo {
            place,
            array,
            subs,
            value,
            atomic,
        } => {
            let subs = copy_exprs(alloc, subs.as_slice())?;
            let value = copy_expr(alloc, value)?;
            Ok(Stmt::AddTo {
                place: *place,
                array: *array,
                subs,
                value,
                atomic: *atomic,
            })
        }
        Stmt::Declare { place, local, init } => {
            let init = copy_init(alloc, init)?;
            Ok(Stmt::Declare {
                place: *place,
                local: *local,
                init,
            })
        }
        Stmt::SetLocal {
            place,
            local,
            value,
        } => {
            let value = copy_expr(alloc, value)?;
            Ok(Stmt::SetLocal {
                place: *place,
                local: *local,
                value,
            })
        }
        Stmt::If {
            place,
            test,
            body,
            otherwise,
        } => {
            let test = copy_expr(alloc, test)?;
            let body = copy_stmts(alloc, body.as_slice())?;
            let otherwise = copy_stmts(alloc, otherwise.as_slice())?;
            Ok(Stmt::If {
                place: *place,
                test,
                body,
                otherwise,
            })
        }
        Stmt::For(head) => {
            let head = copy_loop(alloc, head)?;
            Ok(Stmt::For(head))
        }
        Stmt::Block(body) => {
            let body = copy_stmts(alloc, body.as_slice())?;
            Ok(Stmt::Block(body))
        }
    }
}

/// A copy of the loop, with its species line and its mark.
#[cycle(copy_stmt)]
pub fn copy_loop(alloc: Global, head: &Loop) -> Result<Loop, OutOfMemory>
    ensures { IfOk result (λ copy. copy ≡ head.now) }
{
    let iter = head.iter.copy(alloc)?;
    let start = copy_expr(alloc, &head.start)?;
    let limit = copy_expr(alloc, &head.limit)?;
    let body = copy_stmts(alloc, head.body.as_slice())?;
    let line = copy_line(alloc, &head.line)?;
    Ok(Loop {
        place: head.place,
        iter,
        start,
        test: head.test,
        limit,
        step: head.step,
        body,
        line,
        mark: head.mark,
    })
}

/// A copy of each statement.
#[cycle(copy_stmt)]
pub fn copy_stmts(alloc: Global, all: &[Stmt]) -> Result<Items<Stmt>, OutOfMemory>
    ensures { IfOk result (λ copies. copies ≡ all.now) }
{
    let mut copies = Items::new(alloc);
    for stmt in all {
        copies.push(copy_stmt(alloc, stmt)?)?;
    }
    Ok(copies)
}

pub(crate) fn copy_line(
    alloc: Global,
    line: &Option<LineText>,
) -> Result<Option<LineText>, OutOfMemory>
    ensures { IfOk result (λ copy. copy ≡ line.now) }
{
    match line {
        None => Ok(None),
        Some(line) => Ok(Some(line.copy(alloc)?)),
    }
}

pub(crate) fn copy_arrays(alloc: Global, all: &[Array]) -> Result<Items<Array>, OutOfMemory>
    ensures { IfOk result (λ copies. copies ≡ all.now) }
{
    let mut copies = Items::new(alloc);
    for array in all {
        let name = array.name.copy(alloc)?;
        let dims = array.dims.copy(alloc)?;
        copies.push(Array {
            name,
            kind: array.kind,
            dims,
        })?;
    }
    Ok(copies)
}

pub(crate) fn copy_locals(alloc: Global, all: &[LocalInfo]) -> Result<Items<LocalInfo>, OutOfMemory>
    ensures { IfOk result (λ copies. copies ≡ all.now) }
{
    let mut copies = Items::new(alloc);
    for local in all {
        let name = local.name.copy(alloc)?;
        copies.push(LocalInfo {
            name,
            kind: local.kind,
        })?;
    }
    Ok(copies)
}

/// A copy of the unit.
pub fn copy(alloc: Global, unit: &Unit) -> Result<Unit, OutOfMemory>
    ensures { IfOk result (λ copy. copy ≡ unit.now) }
{
    let includes = unit.includes.copy(alloc)?;
    let arrays = copy_arrays(alloc, unit.arrays.as_slice())?;
    let locals = copy_locals(alloc, unit.locals.as_slice())?;
    let function = unit.function.copy(alloc)?;
    let body = copy_stmts(alloc, unit.body.as_slice())?;
    Ok(Unit {
        includes,
        arrays,
        locals,
        function,
        body,
    })
}
