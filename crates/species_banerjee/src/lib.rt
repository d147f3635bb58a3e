//! Banerjee's test: whether the difference of two affine subscripts has one sign over a whole region.
//!
//! A region (`species_region`) can have 2^59 pairs and more. The difference is a sum of one part for each
//! level, and the coordinates of a level are free of those of the others, so the extremes add up; and those
//! of one level are taken at corners. The time is constant.
#![tactic(auto)]

ghost use Rattle.std.specs.Prelude.{◌≡◌, ◌≤◌, ◌<◌, ◌^◌, ◌+ℤ◌, ◌↔◌, ◌⊎◌, ℕ, IsTrue};
ghost use Rattle.std.specs.Bool.{OnTrue};
ghost use Rattle.std.specs.Int.RustNames.{unsigned_abs};
ghost use Rattle.species_region.specs.Region.{IsEmptyRegion, NeverMeet};
ghost use Rattle.species_region.specs.Asked.{ShareLoops, IsSmallPath, IsFormOver};
ghost use Rattle.species_banerjee.specs.Excluded.{IsExcluded, IsPositive, IsNegative};
ghost use Rattle.species_banerjee.specs.LoopPair.{loop_pair_at, IsOpen};

use crate::pairs::{extremes_of, is_open, loop_pair_at};
use species_linear::{Direction, Form, LoopRange};
use species_region::coefficient;

mod pairs;
mod spans;
#[cfg(test)]
mod tests;

/// Whether each level has a pair of coordinates as the direction asks.
fn all_open(at: &Direction, p_path: &[LoopRange], q_path: &[LoopRange]) -> bool
    requires loops { ShareLoops at.now p_path.now q_path.now }
    requires first_path { IsSmallPath p_path.now }
    requires second_path { IsSmallPath q_path.now }
    ensures { IsTrue result ↔ ((k : ℕ) → IsOpen (loop_pair_at at.now p_path.now q_path.now k)) }
{
    for level in 0..16 {
        if !is_open(loop_pair_at(at, p_path, q_path, level)) {
            return false;
        }
    }
    true
}

/// Whether the region of the direction `at` is empty. `p_path` and `q_path` have the ranges of the loops
/// around the two references.
pub fn region_empty(at: &Direction, p_path: &[LoopRange], q_path: &[LoopRange]) -> bool
    requires loops { ShareLoops at.now p_path.now q_path.now }
    requires first_path { IsSmallPath p_path.now }
    requires second_path { IsSmallPath q_path.now }
    ensures { IsTrue result ↔ IsEmptyRegion at.now p_path.now q_path.now }
{
    !all_open(at, p_path, q_path)
}

/// A total and a number more.
fn plus(total: i128, more: i128) -> i128
    requires small_total { unsigned_abs total ≤ 2 ^ 120 }
    requires small_more { unsigned_abs more ≤ 2 ^ 112 }
    ensures { result ≡ total +ℤ more }
{
    total + more
}

/// Whether the difference has one sign over a region that is not empty.
fn has_one_sign(
    p: &Form,
    q: &Form,
    at: &Direction,
    p_path: &[LoopRange],
    q_path: &[LoopRange],
) -> bool
    requires loops { ShareLoops at.now p_path.now q_path.now }
    requires first_path { IsSmallPath p_path.now }
    requires second_path { IsSmallPath q_path.now }
    requires first_form { IsFormOver p_path.now p.now }
    requires second_form { IsFormOver q_path.now q.now }
    requires inhabited { (k : ℕ) → IsOpen (loop_pair_at at.now p_path.now q_path.now k) }
    ensures { IsTrue result ↔ (IsPositive p.now q.now at.now p_path.now q_path.now ⊎ IsNegative p.now q.now at.now p_path.now q_path.now) }
{
    let constant = p.constant - q.constant;
    let mut least = constant;
    let mut greatest = constant;
    for level in 0..16 {
        let loops = loop_pair_at(at, p_path, q_path, level);
        let found = extremes_of(loops, coefficient(p, level), coefficient(q, level));
        least = plus(least, found.least);
        greatest = plus(greatest, found.greatest);
    }
    0 < least || greatest < 0
}

/// Whether no pair of iterations of the direction `at` can make the two forms equal, for one of these reasons:
/// there is no such pair, or the difference `p` - `q` is positive at each, or it is negative at each.
///
/// `p_path` and `q_path` have the ranges of the loops around the two references. The test sees whole numbers
/// between the extremes that no pair takes as if they were taken: it is exact for these three reasons alone.
pub fn excluded(
    p: &Form,
    q: &Form,
    at: &Direction,
    p_path: &[LoopRange],
    q_path: &[LoopRange],
) -> bool
    requires loops { ShareLoops at.now p_path.now q_path.now }
    requires first_path { IsSmallPath p_path.now }
    requires second_path { IsSmallPath q_path.now }
    requires first_form { IsFormOver p_path.now p.now }
    requires second_form { IsFormOver q_path.now q.now }
    ensures excluded { IsTrue result ↔ IsExcluded p.now q.now at.now p_path.now q_path.now }
    ensures refuted { OnTrue result (NeverMeet p.now q.now at.now p_path.now q_path.now) }
{
    if all_open(at, p_path, q_path) {
        has_one_sign(p, q, at, p_path, q_path)
    } else {
        true
    }
}
