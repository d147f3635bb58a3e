//! When a statement begins in a run, and the iterations of a nest: definitions and laws.
//!
//! A moment of a run is a statement with the frame and the arrays from which it is run. It is there
//! also where the statement accesses nothing. Nothing here runs.
#![tactic(auto)]

ghost use Rattle.species_nests.specs.Law.{MomentsAreDistinct, MomentsArePartsOfTheRun};

/// A statement that begins in a run that ends does end, with accesses that are a part of the whole's,
/// and its position and iterators tell the moment.
pub fn law_moments()
    ensures parts { MomentsArePartsOfTheRun }
    ensures distinct { MomentsAreDistinct }
{}
