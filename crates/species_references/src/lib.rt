//! The array references of a loop nest: which elements its statements read, write and add to, in order
//! of evaluation, each with the affine forms of its subscripts and what the loops inside add to them.
#![tactic(auto)]

ghost use Rattle.species_references.specs.Law.{BoxesHoldIndices, BoxesAreExtremes, ReferencesHaveTurns};

mod boxes;
mod groups;
mod nest;
mod occurrences;

pub use boxes::Boxes;
pub use groups::{Grouped, group};
pub use nest::{Reference, references};

/// A box holds all that the iterators of inner loops add to an index, and its ends are reached. No
/// reference stands in an inner loop that has no turn.
pub fn law_boxes()
    ensures holds { BoxesHoldIndices }
    ensures extremes { BoxesAreExtremes }
    ensures turns { ReferencesHaveTurns }
{}

#[cfg(test)]
mod tests;
