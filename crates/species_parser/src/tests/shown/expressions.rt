//! Expressions as texts.
use super::{Shown, kind_word, unary_word};
use crate::{RawExpr, RawTarget, RawTerm};
use sqlite_items::Boxed;

#[cycle(put_expr)]
pub(super) fn put_expr(expr: &RawExpr<'_>, out: &mut Shown) {
    out.begin(expr.place);
    put_term(&expr.what, out);
}

#[cycle(put_expr)]
fn put_term(term: &RawTerm<'_>, out: &mut Shown) {
    match term {
        RawTerm::Number(value) => out.value(*value),
        RawTerm::Target(target) => put_target(target, out),
        RawTerm::Paren(a) => put_only(b"paren", a, out),
        RawTerm::Unary(op, a) => put_only(unary_word(*op), a, out),
        RawTerm::Cast(kind, a) => put_only(kind_word(*kind), a, out),
        RawTerm::Binary(op, a, b) => {
            out.open(op.sign());
            put_expr(a.get(), out);
            put_last(b, out);
        }
        RawTerm::And(a, b) => {
            out.open(b"&&");
            put_expr(a.get(), out);
            put_last(b, out);
        }
        RawTerm::Or(a, b) => {
            out.open(b"||");
            put_expr(a.get(), out);
            put_last(b, out);
        }
        RawTerm::Cond(test, a, b) => {
            out.open(b"?");
            put_expr(test.get(), out);
            put_expr(a.get(), out);
            put_last(b, out);
        }
    }
}

#[cycle(put_expr)]
fn put_only(word: &[u8], expr: &Boxed<RawExpr<'_>>, out: &mut Shown) {
    out.open(word);
    put_expr(expr.get(), out);
    out.close();
}

/// The last operand of a form, and the bracket that closes the form.
#[cycle(put_expr)]
fn put_last(expr: &Boxed<RawExpr<'_>>, out: &mut Shown) {
    put_expr(expr.get(), out);
    out.close();
}

/// A name, or an element in brackets.
#[cycle(put_expr)]
pub(super) fn put_target(target: &RawTarget<'_>, out: &mut Shown) {
    if target.subs.as_slice().is_empty() {
        out.name(&target.name);
    } else {
        out.open(b"");
        out.name(&target.name);
        put_exprs(target.subs.as_slice(), out);
        out.close();
    }
}

#[cycle(put_expr)]
pub(super) fn put_exprs(exprs: &[RawExpr<'_>], out: &mut Shown) {
    for expr in exprs {
        put_expr(expr, out);
    }
}
