//! What expressions become, and what is refused of the names in them.

ghost use Rattle.std.specs.Prelude.{◌≡◌, ◌++◌, ◌∷◌, [], IfOk, OnOk, length};
ghost use Rattle.std.specs.Option.{option_map};
ghost use Rattle.species_ast.specs.Scope.Meanings.{Taken, occurrence};
ghost use Rattle.species_ast.specs.Scope.Expressions.{reading, target_in, value_of, unary_expr, taken};
ghost use Rattle.species_names.specs.Seen.{seen};
ghost use Rattle.species_names.specs.Noted.{noted};
ghost use Rattle.species_scope.specs.Readings.{exprs_in, names_in, value_with};

use species_ast::{Expr, OutOfMemory, RawExpr, RawTarget, RawTerm, RawUnary, Unary, Value};
use species_names::{Findings, Meaning, Place, Role};
use sqlite_items::{Boxed, Items};
use std::alloc::Global;

/// What an expression becomes; what is refused of the names in it is noted.
#[cycle(expression)]
pub(crate) fn expression(
    alloc: Global,
    raw: &RawExpr,
    place: &Place,
    found: &mut Findings,
) -> Result<Expr, OutOfMemory>
    ensures value { IfOk result (λ e. e ≡ (reading raw.now place.now).expr) }
    ensures noted { OnOk result (found.new ≡ noted place.now.iterators found.old (reading raw.now place.now).names) }
{
    match &raw.what {
        RawTerm::Number(value) => Ok(Expr::Literal(*value)),
        RawTerm::Target(t) => {
            let value = taken(alloc, t, place, found)?;
            Ok(value)
        }
        RawTerm::Paren(a) => {
            let value = expression(alloc, a.get(), place, found)?;
            Ok(value)
        }
        RawTerm::Unary(op, a) => {
            let a = boxed(alloc, a, place, found)?;
            let value = unary(*op, a)?;
            Ok(value)
        }
        RawTerm::Cast(kind, a) => {
            let a = boxed(alloc, a, place, found)?;
            Ok(Expr::Cast(*kind, a))
        }
        RawTerm::Binary(op, a, b) => {
            let a = boxed(alloc, a, place, found)?;
            let b = boxed(alloc, b, place, found)?;
            Ok(Expr::Binary(*op, a, b))
        }
        RawTerm::And(a, b) => {
            let a = boxed(alloc, a, place, found)?;
            let b = boxed(alloc, b, place, found)?;
            Ok(Expr::And(a, b))
        }
        RawTerm::Or(a, b) => {
            let a = boxed(alloc, a, place, found)?;
            let b = boxed(alloc, b, place, found)?;
            Ok(Expr::Or(a, b))
        }
        RawTerm::Cond(test, a, b) => {
            let test = boxed(alloc, test, place, found)?;
            let a = boxed(alloc, a, place, found)?;
            let b = boxed(alloc, b, place, found)?;
            Ok(Expr::Cond(test, a, b))
        }
    }
}

#[cycle(expression)]
fn boxed(
    alloc: Global,
    raw: &Boxed<RawExpr>,
    place: &Place,
    found: &mut Findings,
) -> Result<Boxed<Expr>, OutOfMemory>
    ensures value { IfOk result (λ e. e ≡ (reading raw.now place.now).expr) }
    ensures noted { OnOk result (found.new ≡ noted place.now.iterators found.old (reading raw.now place.now).names) }
{
    let value = expression(alloc, raw.get(), place, found)?;
    let value = Boxed::new(alloc, value)?;
    Ok(value)
}

#[cycle(expression)]
pub(crate) fn expressions(
    alloc: Global,
    all: &[RawExpr],
    place: &Place,
    found: &mut Findings,
) -> Result<Items<Expr>, OutOfMemory>
    ensures value { IfOk result (λ es. es ≡ exprs_in all.now place.now) }
    ensures noted { OnOk result (found.new ≡ noted place.now.iterators found.old (names_in all.now place.now)) }
{
    let mut values = Items::new(alloc);
    for raw in all {
        values.push(expression(alloc, raw, place, found)?)?;
    }
    Ok(values)
}

/// The value of a target.
#[cycle(expression)]
fn taken(
    alloc: Global,
    target: &RawTarget,
    place: &Place,
    found: &mut Findings,
) -> Result<Expr, OutOfMemory>
    ensures value { IfOk result (λ e. e ≡ value_of place.now (target_in target.now place.now)) }
    ensures noted { OnOk result (found.new ≡ noted place.now.iterators found.old (taken place.now (target_in target.now place.now)).names) }
{
    let means = place.meaning(&target.name);
    found.note_name(
        &target.name,
        Role::Taken(target.subs.len()),
        &means,
        place.iterators(),
    );
    let subs = expressions(alloc, target.subs.as_slice(), place, found)?;
    Ok(value(&means, subs, place))
}

pub(crate) fn value(means: &Option<Meaning>, subs: Items<Expr>, place: &Place) -> Expr
    ensures { result ≡ value_with place.now (option_map seen means.now) subs }
{
    match means {
        Some(Meaning::Array(a, _)) => Expr::Elem(*a, subs),
        Some(Meaning::Variable(x)) => Expr::Local(place.number(x.serial)),
        Some(Meaning::Iterator(level)) => Expr::Iter(*level),
        Some(Meaning::Function) => Expr::Literal(Value::Int(0)),
        None => Expr::Literal(Value::Int(0)),
    }
}

fn unary(op: RawUnary, a: Boxed<Expr>) -> Result<Expr, OutOfMemory>
    ensures { IfOk result (λ e. e ≡ unary_expr op a) }
{
    match op {
        RawUnary::Neg => Ok(Expr::Unary(Unary::Neg, a)),
        RawUnary::Plus => Ok(a.into_inner()),
        RawUnary::Not => Ok(Expr::Unary(Unary::Not, a)),
        RawUnary::LogNot => Ok(Expr::Unary(Unary::LogNot, a)),
    }
}

/// What an expression becomes, in a box.
pub(crate) fn boxed_value(
    alloc: Global,
    raw: &RawExpr,
    place: &Place,
    found: &mut Findings,
) -> Result<Boxed<Expr>, OutOfMemory>
    ensures value { IfOk result (λ e. e ≡ (reading raw.now place.now).expr) }
    ensures noted { OnOk result (found.new ≡ noted place.now.iterators found.old (reading raw.now place.now).names) }
{
    let value = expression(alloc, raw, place, found)?;
    let value = Boxed::new(alloc, value)?;
    Ok(value)
}
