//! Dependences between the array references of a loop nest: which pairs the tests refute, and the first
//! pair that a level of the nest carries.
//!
//! Two references to one array, of which one changes it, may touch one place in two iterations. Each pair is
//! tested in both directions of a level, dimension by dimension (`species_gcd`, `species_banerjee`). No
//! iteration is tried by itself, so the time does not depend on how many there are.
#![tactic(auto)]

ghost use Rattle.species_depend.specs.Law.{RefutedNeverMeet, FreeBandsNeverMeet};

mod alike;
mod groups;
mod refutation;
mod search;

pub use groups::carried_in;
pub use refutation::refuted;
pub use search::carried;

/// Accesses that a refuted pair makes, at points of the region in which it is refuted, are not to one
/// element; and where no level of a band carries a pair, no two of its iterations touch one element, but
/// to read it.
pub fn law_dependences()
    ensures refuted { RefutedNeverMeet }
    ensures free { FreeBandsNeverMeet }
{}

#[cfg(test)]
mod tests;
