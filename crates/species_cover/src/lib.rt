//! Whether the arcs of a species line say at least what the arcs of a nest say.
//!
//! No memory is taken: each derived arc is looked up among the given ones, dimension by dimension.
#![tactic(auto)]

ghost use Rattle.std.specs.Prelude.{◌≡◌, ◌↔◌, ℕ, List, ℤ, Ok, Err, All};
ghost use Rattle.species_linear.specs.Point.{Point};
ghost use Rattle.species_arcs.specs.Sets.{IsInSet};
ghost use Rattle.species_cover.specs.Cover.{IsCovered, IsFirstUncovered, numbered};
ghost use Rattle.species_cover.specs.Sizes.{HasSmallGiven, HasSmallDerived};
ghost use Rattle.species_cover.specs.Places.{IsInSome};

mod arcs;
mod dims;
mod within;

use crate::arcs::is_covered;
use species_arcs::Arc;
use species_notation::SpeciesLine;

/// The number of the first derived arc that no given arc covers; the greatest one stands for all numbers that 32
/// bits do not hold.
#[derive(Clone, Copy, Debug, PartialEq, Eq)]
pub struct Differs(pub u32);

/// Looks for the first derived arc that no given arc covers.
pub fn covers(given: &SpeciesLine, derived: &[Arc]) -> Result<(), Differs>
    requires given { All HasSmallGiven given.now.arcs }
    requires derived { All HasSmallDerived derived.now }
    ensures covered { result ≡ Ok tt ↔ All (IsCovered given.now.arcs) derived.now }
    ensures differs { (n : ℕ) → result ≡ Err (record { 0 = n }) → (k : ℕ) × (n ≡ numbered k) × IsFirstUncovered given.now.arcs derived.now k }
    ensures places { result ≡ Ok tt → (iters : Point) (place : List ℤ) → All (λ d. IsInSet d iters place → IsInSome d iters place given.now.arcs) derived.now }
{
    for (number, arc) in derived.iter().enumerate() {
        if !is_covered(given.arcs.as_slice(), arc) {
            return Err(Differs(number.min(u32::MAX as usize) as u32));
        }
    }
    Ok(())
}

#[cfg(test)]
mod tests;
