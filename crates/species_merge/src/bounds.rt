//! The least and the greatest value of a loop's iterator.

ghost use Rattle.std.specs.Prelude.{◌≡◌, ℕ, ◌≤◌, ◌^◌, List, IfOk};
ghost use Rattle.std.specs.Int.RustNames.{unsigned_abs};
ghost use Rattle.species_affine.specs.Subscript.{IsSameForm};
ghost use Rattle.species_ast.specs.declared.tree.Loop.{out-Loop};
ghost use Rattle.species_ast.specs.Scope.Forms as text;
ghost use Rattle.species_ast.specs.Scope.Hulls as hulls;
ghost use Rattle.species_linear.specs.Box.{HasSmallEnds};
ghost use Rattle.species_merge.specs.Bounds.{IsBoundOf};
ghost use Rattle.species_merge.specs.Sizes.{HasNumbers, IsSmallBound};
ghost use Rattle.species_references.specs.Ranges.{range_seen};

use crate::bands::BandBound;
use species_affine::{Subscript, form_of};
use species_ast::{Expr, Loop, OutOfMemory, Test};
use species_linear::{Form, LoopRange, Terms};
use std::alloc::Global;

fn constant(alloc: Global, number: i128) -> Form
    ensures form { IsSameForm result (text.constant_form number) }
    ensures numbers { (m : ℕ) → unsigned_abs number ≤ m → HasNumbers m result }
{
    Form {
        constant: number,
        terms: Terms::new(alloc),
    }
}

/// The form of a bound. One that is not affine, which no lawful loop has, counts as 0.
fn bound_form(alloc: Global, bound: &Expr) -> Result<Form, OutOfMemory>
    ensures form { IfOk result (λ f. IsSameForm f (hulls.bound_form bound.now)) }
    ensures numbers { IfOk result (HasNumbers text.form_limit) }
{
    match form_of(alloc, bound)? {
        Subscript::Affine(form) => Ok(form),
        Subscript::Other => Ok(constant(alloc, 0)),
    }
}

/// The last number that passes a test against a limit.
fn last_form(test: Test, limit: Form) -> Form
    requires { HasNumbers text.form_limit limit }
    ensures form { (f : text.Form) → IsSameForm limit f → IsSameForm result (hulls.last_form test f) }
    ensures numbers { HasNumbers (2 ^ 40) result }
{
    let moved = match test {
        Test::Lt => -1,
        Test::Le => 0,
        Test::Gt => 1,
        Test::Ge => 0,
    };
    Form {
        constant: limit.constant + moved,
        terms: limit.terms,
    }
}

/// The bounds of a loop with this range.
pub fn bound_of(alloc: Global, head: &Loop, range: LoopRange) -> Result<BandBound, OutOfMemory>
    requires { HasSmallEnds range }
    ensures bound { IfOk result (λ b. (path : List hulls.Range) → range_seen range ≡ hulls.range_of path (out-Loop head.now) → IsBoundOf (out-Loop head.now) b) }
    ensures small { IfOk result IsSmallBound }
{
    let step = head.step;
    if range.start.is_some() && range.fixed {
        return Ok(BandBound {
            least: constant(alloc, range.low as i128),
            greatest: constant(alloc, range.high as i128),
            step,
        });
    }
    let first = bound_form(alloc, &head.start)?;
    let last = last_form(head.test, bound_form(alloc, &head.limit)?);
    if step < 0 {
        Ok(BandBound {
            least: last,
            greatest: first,
            step,
        })
    } else {
        Ok(BandBound {
            least: first,
            greatest: last,
            step,
        })
    }
}
