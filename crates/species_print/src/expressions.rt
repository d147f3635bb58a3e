//! Expressions, with brackets where their levels need them.
ghost use Rattle.std.specs.Prelude.{◌≡◌, ◌++◌, ◌<◌, pos, OnOk, nat_lt, int_lt};
ghost use Rattle.std.specs.List.{flat_map};
ghost use Rattle.species_print.specs.Printed.{text_of};
ghost use Rattle.species_print.specs.Expressions.{is_minus, is_negative, level_of, is_negation, bracketed, at_least, behind_unary, expr_printed};
ghost use Rattle.species_print.specs.Texts.{subscript_text};

use crate::words::{array_name, iter_name, kind_words, local_name, put, put_literal, put_spaced};
use species_ast::{Expr, Name, OutOfMemory, Unary, Unit, Value};

fn is_minus(op: Unary) -> bool
    ensures { result ≡ is_minus op }
{
    match op {
        Unary::Neg => true,
        Unary::Not | Unary::LogNot => false,
    }
}

fn is_below_zero(n: i64) -> bool
    ensures { result ≡ int_lt n (pos 0) }
{
    n < 0
}

fn is_negative(value: Value) -> bool
    ensures { result ≡ is_negative value }
{
    match value {
        Value::Int(n) => is_below_zero(i64::from(n)),
        Value::Long(n) => is_below_zero(n),
        Value::Unsigned(_) | Value::UnsignedLong(_) => false,
    }
}

fn level_of(expr: &Expr) -> u8
    ensures { result ≡ level_of expr.now }
{
    match expr {
        Expr::Literal(value) => if is_negative(*value) { 11 } else { 12 },
        Expr::Iter(_) | Expr::Local(_) | Expr::Elem(_, _) => 12,
        Expr::Unary(_, _) | Expr::Cast(_, _) => 11,
        Expr::Binary(op, _, _) => op.level(),
        Expr::And(_, _) => 2,
        Expr::Or(_, _) => 1,
        Expr::Cond(_, _, _) => 0,
    }
}

fn is_negation(expr: &Expr) -> bool
    ensures { result ≡ is_negation expr.now }
{
    match expr {
        Expr::Literal(value) => is_negative(*value),
        Expr::Unary(op, _) => is_minus(*op),
        _ => false,
    }
}

/// Appends the text of the expression.
#[cycle(print_expr)]
pub(crate) fn print_expr(
    unit: &Unit,
    iters: &[Name],
    expr: &Expr,
    out: &mut Vec<u8>,
) -> Result<(), OutOfMemory>
    ensures { OnOk result (out.new.items ≡ out.old.items ++ text_of (expr_printed unit.now iters.now expr.now)) }
{
    match expr {
        Expr::Literal(value) => {
            put_literal(*value, out)?;
            Ok(())
        }
        Expr::Iter(level) => {
            put(iter_name(iters, *level), out)?;
            Ok(())
        }
        Expr::Local(local) => {
            put(local_name(unit, *local), out)?;
            Ok(())
        }
        Expr::Elem(array, subs) => {
            put(array_name(unit, *array), out)?;
            print_subs(unit, iters, subs.as_slice(), out)?;
            Ok(())
        }
        Expr::Unary(op, a) => {
            put(op.sign(), out)?;
            print_behind_unary(unit, iters, *op, a.get(), out)?;
            Ok(())
        }
        Expr::Binary(op, a, b) => {
            let level = op.level();
            print_operand(unit, iters, level, a.get(), out)?;
            put_spaced(op.sign(), out)?;
            print_operand(unit, iters, level + 1, b.get(), out)?;
            Ok(())
        }
        Expr::And(a, b) => {
            print_operand(unit, iters, 2, a.get(), out)?;
            put(b" && ", out)?;
            print_operand(unit, iters, 3, b.get(), out)?;
            Ok(())
        }
        Expr::Or(a, b) => {
            print_operand(unit, iters, 1, a.get(), out)?;
            put(b" || ", out)?;
            print_operand(unit, iters, 2, b.get(), out)?;
            Ok(())
        }
        Expr::Cond(test, a, b) => {
            print_operand(unit, iters, 1, test.get(), out)?;
            put(b" ? ", out)?;
            print_expr(unit, iters, a.get(), out)?;
            put(b" : ", out)?;
            print_expr(unit, iters, b.get(), out)?;
            Ok(())
        }
        Expr::Cast(kind, a) => {
            put(b"(", out)?;
            put(kind_words(*kind), out)?;
            put(b")", out)?;
            print_operand(unit, iters, 11, a.get(), out)?;
            Ok(())
        }
    }
}

/// In brackets where the operand binds less tightly than `least`.
#[cycle(print_expr)]
fn print_operand(
    unit: &Unit,
    iters: &[Name],
    least: u8,
    expr: &Expr,
    out: &mut Vec<u8>,
) -> Result<(), OutOfMemory>
    ensures { OnOk result (out.new.items ≡ out.old.items ++ text_of (at_least least (expr.now, expr_printed unit.now iters.now expr.now))) }
{
    let brackets = level_of(expr) < least;
    print_bracketed(unit, iters, brackets, expr, out)?;
    Ok(())
}

/// `- -x` and `--x` are other texts than `-(-x)`, so a minus behind a minus stands in brackets.
#[cycle(print_expr)]
fn print_behind_unary(
    unit: &Unit,
    iters: &[Name],
    op: Unary,
    expr: &Expr,
    out: &mut Vec<u8>,
) -> Result<(), OutOfMemory>
    ensures { OnOk result (out.new.items ≡ out.old.items ++ text_of (behind_unary op (expr.now, expr_printed unit.now iters.now expr.now))) }
{
    let brackets = level_of(expr) < 11 || (is_minus(op) && is_negation(expr));
    print_bracketed(unit, iters, brackets, expr, out)?;
    Ok(())
}

#[cycle(print_expr)]
fn print_bracketed(
    unit: &Unit,
    iters: &[Name],
    brackets: bool,
    expr: &Expr,
    out: &mut Vec<u8>,
) -> Result<(), OutOfMemory>
    ensures { OnOk result (out.new.items ≡ out.old.items ++ text_of (bracketed brackets (expr_printed unit.now iters.now expr.now))) }
{
    if brackets {
        put(b"(", out)?;
        print_expr(unit, iters, expr, out)?;
        put(b")", out)?;
        Ok(())
    } else {
        print_expr(unit, iters, expr, out)?;
        Ok(())
    }
}

/// Appends each subscript in its brackets.
#[cycle(print_expr)]
pub(crate) fn print_subs(
    unit: &Unit,
    iters: &[Name],
    subs: &[Expr],
    out: &mut Vec<u8>,
) -> Result<(), OutOfMemory>
    ensures { OnOk result (out.new.items ≡ out.old.items ++ flat_map (subscript_text unit.now iters.now) subs.now) }
{
    for expr in subs {
        print_subscript(unit, iters, expr, out)?;
    }
    Ok(())
}

#[cycle(print_expr)]
fn print_subscript(
    unit: &Unit,
    iters: &[Name],
    expr: &Expr,
    out: &mut Vec<u8>,
) -> Result<(), OutOfMemory>
    ensures { OnOk result (out.new.items ≡ out.old.items ++ subscript_text unit.now iters.now expr.now) }
{
    put(b"[", out)?;
    print_expr(unit, iters, expr, out)?;
    put(b"]", out)?;
    Ok(())
}
