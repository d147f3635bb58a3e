//! The form of an expression.

ghost use Rattle.std.specs.Prelude.{◌≡◌, ◌≤◌, ◌+◌, ℕ, Option, Some, None, IfOk, IfSome, pos};
ghost use Rattle.species_ast.specs.declared.tree.Expr.TheOpen.{Expr-F};
ghost use Rattle.species_ast.specs.Scope.Forms as text;
ghost use Rattle.species_affine.specs.Limited.{IsWithin};
ghost use Rattle.species_affine.specs.Subscript.{IsSameForm, IsSubscript, HasFormNumbers};

use crate::dense::Dense;
use species_ast::{Binary, Expr, OutOfMemory, Unary, Value};
use species_linear::{Form, Term, Terms};
use std::alloc::Global;

/// A subscript or a bound: its affine form, or that it has none.
#[derive(Debug, Drop)]
pub enum Subscript {
    Affine(Form),
    Other,
}

/// The affine form of an expression.
pub fn form_of(alloc: Global, expr: &Expr) -> Result<Subscript, OutOfMemory>
    ensures form { IfOk result (λ s. IsSubscript s (text.form_of expr.now)) }
    ensures numbers { IfOk result HasFormNumbers }
{
    match dense_of(alloc, expr)? {
        Some(dense) => Ok(Subscript::Affine(sparse(alloc, &dense)?)),
        None => Ok(Subscript::Other),
    }
}

/// The form of an expression with a coefficient for each level.
fn dense_of(alloc: Global, expr: &Expr) -> Result<Option<Dense>, OutOfMemory>
    ensures { IfOk result (λ f. f ≡ text.form_of expr.now) }
{
    match expr {
        Expr::Literal(value) => Ok(of_literal(alloc, *value)),
        Expr::Iter(level) => {
            let form = Dense::iterator(alloc, *level)?;
            Ok(Some(form))
        }
        Expr::Unary(op, a) => {
            let a = dense_of(alloc, a.get())?;
            let form = of_unary(alloc, *op, a)?;
            Ok(form)
        }
        Expr::Binary(op, a, b) => {
            let a = dense_of(alloc, a.get())?;
            let b = dense_of(alloc, b.get())?;
            let form = of_binary(alloc, *op, a, b)?;
            Ok(form)
        }
        Expr::Local(_) => Ok(None),
        Expr::Elem(_, _) => Ok(None),
        Expr::And(_, _) => Ok(None),
        Expr::Or(_, _) => Ok(None),
        Expr::Cond(_, _, _) => Ok(None),
        Expr::Cast(_, _) => Ok(None),
    }
}

fn of_literal(alloc: Global, value: Value) -> Option<Dense>
    ensures { result ≡ text.form_step (Expr-F.Literal value) }
{
    match value {
        Value::Int(n) => Dense::limited(i64::from(n), Vec::new(alloc)),
        Value::Unsigned(_) => None,
        Value::Long(_) => None,
        Value::UnsignedLong(_) => None,
    }
}

fn of_unary(alloc: Global, op: Unary, a: Option<Dense>) -> Result<Option<Dense>, OutOfMemory>
    ensures { IfOk result (λ f. f ≡ text.form_step (Expr-F.Unary op a)) }
{
    let Some(a) = a else {
        return Ok(None);
    };
    match op {
        Unary::Neg => {
            let form = a.negation(alloc)?;
            Ok(form)
        }
        Unary::Not => Ok(None),
        Unary::LogNot => Ok(None),
    }
}

fn of_binary(
    alloc: Global,
    op: Binary,
    a: Option<Dense>,
    b: Option<Dense>,
) -> Result<Option<Dense>, OutOfMemory>
    ensures { IfOk result (λ f. f ≡ text.form_step (Expr-F.Binary op a b)) }
{
    let (Some(a), Some(b)) = (a, b) else {
        return Ok(None);
    };
    match op {
        Binary::Add => {
            let form = a.plus(alloc, &b)?;
            Ok(form)
        }
        Binary::Sub => {
            let b = b.negated(alloc)?;
            let form = a.plus(alloc, &b)?;
            Ok(form)
        }
        Binary::Mul => {
            let form = a.times(alloc, &b)?;
            Ok(form)
        }
        Binary::Div | Binary::Rem => Ok(None),
        Binary::Shl | Binary::Shr => Ok(None),
        Binary::Lt | Binary::Le | Binary::Gt | Binary::Ge => Ok(None),
        Binary::Eq | Binary::Ne => Ok(None),
        Binary::BitAnd | Binary::BitXor | Binary::BitOr => Ok(None),
    }
}

/// The form by its terms other than 0.
fn sparse(alloc: Global, dense: &Dense) -> Result<Form, OutOfMemory>
    ensures form { IfOk result (λ f. IsSameForm f dense.now) }
    ensures numbers { IfOk result (λ f. HasFormNumbers (Subscript.Affine f)) }
{
    let mut terms = Terms::new(alloc);
    for (level, c) in dense.coefficients().iter().enumerate() {
        if *c != 0 {
            terms.push(Term {
                level: level as u32,
                coefficient: i128::from(*c),
            })?;
        }
    }
    Ok(Form {
        constant: i128::from(dense.constant()),
        terms,
    })
}

/// The constant of an expression whose form is constant.
pub fn constant_of(alloc: Global, expr: &Expr) -> Result<Option<i64>, OutOfMemory>
    ensures value { IfOk result (λ n. n ≡ text.constant_of expr.now) }
    ensures small { IfOk result (λ n. IfSome n IsWithin) }
{
    match dense_of(alloc, expr)? {
        Some(dense) => Ok(dense.alone()),
        None => Ok(None),
    }
}
