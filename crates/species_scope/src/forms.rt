//! What is refused of the bounds, the steps and the sizes of a program.

ghost use Rattle.std.specs.Prelude.{◌≡◌, ◌&&◌, ◌||◌, not, ◌<ℤ◌, negsuc, map, flat_map, IfOk, OnOk, IfSome};
ghost use Rattle.species_ast.specs.declared.tree.Loop.{out-Loop};
ghost use Rattle.species_ast.specs.declared.raw.RawLoop.{out-RawLoop};
ghost use Rattle.species_ast.specs.Scope.Forms as text;
ghost use Rattle.species_ast.specs.Scope.Limits as limits;
ghost use Rattle.species_ast.specs.Scope.Meanings.{is_among};
ghost use Rattle.species_ast.specs.Scope.Conditions as conditions;
ghost use Rattle.species_names.specs.Kept.{kept};
ghost use Rattle.species_loops.specs.Bands.{iterators_of_all};
ghost use Rattle.species_scope.specs.Loops.{site_of};
ghost use Rattle.species_scope.specs.Formed.{forms_at};

use species_affine::{Subscript, constant_of, form_of};
use species_ast::{Expr, Loop, OutOfMemory, RawLoop, Test};
use species_names::{Findings, Refusal};
use std::alloc::Global;

/// The constant of an expression whose form is constant.
pub(crate) fn constant(alloc: Global, e: &Expr) -> Result<Option<i32>, OutOfMemory>
    ensures small { IfOk result (λ n. IfSome n (λ x. negsuc 2147483647 <ℤ x)) }
    ensures value { IfOk result (λ n. n ≡ text.constant_of e.now) }
{
    match constant_of(alloc, e)? {
        Some(n) => Ok(Some(n as i32)),
        None => Ok(None),
    }
}

/// Whether an expression names the iterator of a level.
#[cycle(names)]
fn names(e: &Expr, level: u32) -> bool
    ensures { result ≡ is_among (text.iterators_in e.now) level }
{
    match e {
        Expr::Literal(_) => false,
        Expr::Iter(other) => level == *other,
        Expr::Local(_) => false,
        Expr::Elem(_, subs) => any_names(subs.as_slice(), level),
        Expr::Unary(_, a) => names(a.get(), level),
        Expr::Binary(_, a, b) => {
            let a = names(a.get(), level);
            let b = names(b.get(), level);
            either(a, b)
        }
        Expr::And(a, b) => {
            let a = names(a.get(), level);
            let b = names(b.get(), level);
            either(a, b)
        }
        Expr::Or(a, b) => {
            let a = names(a.get(), level);
            let b = names(b.get(), level);
            either(a, b)
        }
        Expr::Cond(test, a, b) => {
            let test = names(test.get(), level);
            let a = names(a.get(), level);
            let b = names(b.get(), level);
            either(test, either(a, b))
        }
        Expr::Cast(_, a) => names(a.get(), level),
    }
}

#[cycle(names)]
fn any_names(all: &[Expr], level: u32) -> bool
    ensures { result ≡ is_among (iterators_of_all all.now) level }
{
    let mut found = false;
    for e in all {
        let here = names(e, level);
        found = either(found, here);
    }
    found
}

fn either(a: bool, b: bool) -> bool
    ensures { result ≡ (a || b) }
{
    a || b
}

/// Whether a bound of a loop of this level is affine, and does not name the loop's own iterator.
fn is_static(alloc: Global, level: u32, e: &Expr) -> Result<bool, OutOfMemory>
    ensures { IfOk result (λ holds. holds ≡ conditions.is_static level e.now) }
{
    let own = names(e, level);
    match form_of(alloc, e)? {
        Subscript::Affine(_) => Ok(!own),
        Subscript::Other => Ok(false),
    }
}

fn goes(test: Test, step: i32) -> bool
    ensures { result ≡ limits.goes test step }
{
    match test {
        Test::Lt => 0 < step,
        Test::Le => 0 < step,
        Test::Gt => step < 0,
        Test::Ge => step < 0,
    }
}

fn is_good_step(test: Test, step: Option<i32>) -> bool
    ensures { result ≡ conditions.is_good_step test step }
{
    match step {
        Some(n) => goes(test, n),
        None => false,
    }
}

/// Notes what is refused of the bounds and the step of a loop.
pub(crate) fn note_forms(
    alloc: Global,
    at: u32,
    raw: &RawLoop,
    level: u32,
    head: &Loop,
    one_variable: bool,
    number: Option<i32>,
    found: &mut Findings,
) -> Result<(), OutOfMemory>
    ensures { OnOk result (found.new ≡ kept found.old (forms_at (site_of (out-RawLoop raw.now) at level head.now one_variable number))) }
{
    let start = is_static(alloc, level, &head.start)?;
    let limit = is_static(alloc, level, &head.limit)?;
    let good = one_variable && is_good_step(head.test, number);
    found.note_if(!start, Refusal::NotStatic, raw.start.place);
    found.note_if(!limit, Refusal::NotStatic, raw.limit.place);
    found.note_if(!good, Refusal::BadStep, at);
    Ok(())
}
