//! The law of lawful programs: what they become is well made.
#![tactic(auto)]

ghost use Rattle.species_lawful.specs.Law.{LawfulUnitsAreMade};

/// A lawful program that a text can write becomes a well made unit, and one of the size of those
/// that are read.
pub fn law_lawful()
    ensures { LawfulUnitsAreMade }
{}
