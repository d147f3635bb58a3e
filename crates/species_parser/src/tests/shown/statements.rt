//! Statements and declarations as texts.
use super::expressions::{put_expr, put_target};
use super::{Shown, kind_word, op_word};
use crate::{RawChange, RawExpr, RawLocal, RawLoop, RawName, RawStep, RawStmt, RawTarget, RawWhat};
use species_ast::Kind;

fn put_local(local: &RawLocal<'_>, out: &mut Shown) {
    out.open_next();
    out.name(&local.name);
    if let Some(value) = &local.init {
        put_expr(value, out);
    }
    out.close();
}

fn put_declaration(kind: Kind, locals: &[RawLocal<'_>], out: &mut Shown) {
    out.open(b"declare ");
    out.put(kind_word(kind));
    for local in locals {
        put_local(local, out);
    }
    out.close();
}

/// A form of a target alone.
fn put_counted(word: &[u8], target: &RawTarget<'_>, out: &mut Shown) {
    out.open(word);
    put_target(target, out);
    out.close();
}

fn put_assigned(word: &[u8], target: &RawTarget<'_>, value: &RawExpr<'_>, out: &mut Shown) {
    out.open(word);
    put_target(target, out);
    put_expr(value, out);
    out.close();
}

fn put_change(change: &RawChange<'_>, out: &mut Shown) {
    match change {
        RawChange::Set(target, op, value) => put_assigned(op_word(*op), target, value, out),
        RawChange::Up(target) => put_counted(b"up ", target, out),
        RawChange::UpBefore(target) => put_counted(b"up-before ", target, out),
        RawChange::Down(target) => put_counted(b"down ", target, out),
        RawChange::DownBefore(target) => put_counted(b"down-before ", target, out),
    }
}

pub(super) fn put_named(word: &[u8], name: &RawName<'_>, out: &mut Shown) {
    out.open(word);
    out.spaced_name(name);
    out.close();
}

fn put_stepped(word: &[u8], name: &RawName<'_>, by: &RawExpr<'_>, out: &mut Shown) {
    out.open(word);
    out.spaced_name(name);
    put_expr(by, out);
    out.close();
}

fn put_set(
    word: &[u8],
    name: &RawName<'_>,
    other: &RawName<'_>,
    by: &RawExpr<'_>,
    out: &mut Shown,
) {
    out.open(word);
    out.spaced_name(name);
    out.spaced_name(other);
    put_expr(by, out);
    out.close();
}

fn put_step(step: &RawStep<'_>, out: &mut Shown) {
    out.put(b" ");
    match step {
        RawStep::Up(name) => put_named(b"up", name, out),
        RawStep::UpBefore(name) => put_named(b"up-before", name, out),
        RawStep::Down(name) => put_named(b"down", name, out),
        RawStep::DownBefore(name) => put_named(b"down-before", name, out),
        RawStep::AddBy(name, by) => put_stepped(b"+=", name, by, out),
        RawStep::SubBy(name, by) => put_stepped(b"-=", name, by, out),
        RawStep::SetAdd(name, other, by) => put_set(b"=+", name, other, by, out),
        RawStep::SetSub(name, other, by) => put_set(b"=-", name, other, by, out),
    }
}

/// The pragmas of a loop.
fn put_pragmas(head: &RawLoop<'_>, out: &mut Shown) {
    if let Some(line) = &head.line {
        out.put(b" ");
        put_named(b"line", line, out);
    }
    if let Some((depth, schedule)) = &head.parallel {
        out.put_shown(format!(in out.alloc; " (parallel {depth} {schedule:?})"));
    }
}

fn put_header(head: &RawLoop<'_>, out: &mut Shown) {
    if head.typed {
        out.put(b" typed");
    }
    out.spaced_name(&head.iter);
    put_expr(&head.start, out);
    out.spaced_name(&head.tested);
    out.put(b" ");
    out.put(head.test.sign());
    put_expr(&head.limit, out);
    put_step(&head.step, out);
}

#[cycle(put_stmt)]
fn put_stmt(stmt: &RawStmt<'_>, out: &mut Shown) {
    out.begin(stmt.place);
    put_what(&stmt.what, out);
}

#[cycle(put_stmt)]
fn put_what(what: &RawWhat<'_>, out: &mut Shown) {
    match what {
        RawWhat::Declare { kind, locals } => put_declaration(*kind, locals.as_slice(), out),
        RawWhat::Block(stmts) => {
            out.open(b"block");
            put_stmts(stmts.as_slice(), out);
            out.close();
        }
        RawWhat::Empty => out.put(b"(empty)"),
        RawWhat::If {
            test,
            body,
            otherwise,
        } => {
            out.open(b"if");
            put_expr(test.get(), out);
            put_stmt(body.get(), out);
            if let Some(stmt) = otherwise {
                put_stmt(stmt.get(), out);
            }
            out.close();
        }
        RawWhat::Loop(head) => put_loop(head.get(), out),
        RawWhat::Change(change) => put_change(change.get(), out),
        RawWhat::Atomic { target, value } => {
            put_assigned(b"atomic += ", target.get(), value.get(), out);
        }
    }
}

#[cycle(put_stmt)]
fn put_loop(head: &RawLoop<'_>, out: &mut Shown) {
    out.open(b"for");
    put_pragmas(head, out);
    put_header(head, out);
    put_stmt(head.body.get(), out);
    out.close();
}

#[cycle(put_stmt)]
pub(super) fn put_stmts(stmts: &[RawStmt<'_>], out: &mut Shown) {
    for stmt in stmts {
        put_stmt(stmt, out);
    }
}
