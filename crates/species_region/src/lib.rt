//! The pairs of iterations that a direction of dependence speaks of, for the tests on pairs of array
//! references that stand on it.
//!
//! The definitions are in `specs/`. Here is what the tests read of a form and of a path, by level.
#![tactic(auto)]

ghost use Rattle.std.specs.Prelude.{◌≡◌};
ghost use Rattle.species_linear.specs.Rising.{IsRising};
ghost use Rattle.species_linear.specs.Value.{coefficient_at};
ghost use Rattle.species_linear.specs.Box.{range_at};
ghost use Rattle.species_region.specs.Region.{level_of};

use species_linear::{Direction, Form, LoopRange};

/// The level at which the iterations of a direction differ, counted from the outermost loop of all.
pub fn level_of(at: &Direction) -> usize
    ensures { result ≡ level_of at.now }
{
    at.outer as usize + at.level as usize
}

/// The coefficient of a level, 0 where the form does not name it.
pub fn coefficient(form: &Form, level: usize) -> i128
    ensures value { result ≡ coefficient_at form.now.terms level }
    ensures rising { IsRising form.now.terms }
{
    for term in form.terms.as_slice() {
        if term.level as usize == level {
            return term.coefficient;
        }
    }
    0
}

/// The range of a level; beyond the path it holds 0 alone.
pub fn range_or_zero(path: &[LoopRange], level: usize) -> LoopRange
    ensures { result ≡ range_at path.now level }
{
    if level < path.len() {
        path[level]
    } else {
        LoopRange {
            low: 0,
            high: 0,
            step: 0,
            start: None,
            fixed: false,
        }
    }
}
