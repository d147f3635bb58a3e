//! The kinds of arrays, locals and expressions.
ghost use Rattle.std.specs.Prelude.{◌≡◌};
ghost use Rattle.species_ast.specs.Operators as operators;
ghost use Rattle.species_ast.specs.Evaluation as evaluation;
ghost use Rattle.species_ast.specs.Run.{source_context};
ghost use Rattle.bones_meaning.specs.Walked.{reads};

use species_ast::{Binary, Expr, Kind, Unary, Unit};
use species_cint::{is_shift, joint, kind_of};

/// The kind of an array; Int for what is no array.
pub(crate) fn array_kind(unit: &Unit, array: u32) -> Kind
    ensures { result ≡ evaluation.array_kind (source_context unit.now) array }
{
    match unit.arrays.get(array as usize) {
        Some(array) => array.kind,
        None => Kind::Int,
    }
}

/// The kind of a local; Int for what is no local.
pub(crate) fn local_kind(unit: &Unit, local: u32) -> Kind
    ensures { result ≡ evaluation.local_kind (source_context unit.now) local }
{
    match unit.locals.get(local as usize) {
        Some(local) => local.kind,
        None => Kind::Int,
    }
}

fn is_comparison(op: Binary) -> bool
    ensures { result ≡ operators.is_comparison op }
{
    matches!(
        op,
        Binary::Lt | Binary::Le | Binary::Gt | Binary::Ge | Binary::Eq | Binary::Ne
    )
}

pub(crate) fn unary_kind(op: Unary, kind: Kind) -> Kind
    ensures { result ≡ operators.unary_kind op kind }
{
    match op {
        Unary::LogNot => Kind::Int,
        Unary::Neg => kind,
        Unary::Not => kind,
    }
}

pub(crate) fn binary_kind(op: Binary, a: Kind, b: Kind) -> Kind
    ensures { result ≡ operators.binary_kind op a b }
{
    if is_comparison(op) {
        Kind::Int
    } else if is_shift(op) {
        a
    } else {
        joint(a, b)
    }
}

/// The kind of an expression's value, which its text tells.
pub(crate) fn kind(unit: &Unit, e: &Expr) -> Kind
    ensures { result ≡ (reads (source_context unit.now) e.now).kind }
{
    match e {
        Expr::Literal(v) => kind_of(*v),
        Expr::Iter(_) => Kind::Int,
        Expr::Local(local) => local_kind(unit, *local),
        Expr::Elem(array, _) => array_kind(unit, *array),
        Expr::Unary(op, a) => {
            let a = kind(unit, a.get());
            unary_kind(*op, a)
        }
        Expr::Binary(op, a, b) => {
            let a = kind(unit, a.get());
            let b = kind(unit, b.get());
            binary_kind(*op, a, b)
        }
        Expr::And(_, _) => Kind::Int,
        Expr::Or(_, _) => Kind::Int,
        Expr::Cond(_, a, b) => {
            let a = kind(unit, a.get());
            let b = kind(unit, b.get());
            joint(a, b)
        }
        Expr::Cast(kind, _) => *kind,
    }
}
