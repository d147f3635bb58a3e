//! What holds of the arcs of references.

ghost use Rattle.species_merge.specs.Law.{SetsHoldBoxes, SetsLieInDomains, ReferencesAreSettled, ExactSetsAreTouched};

/// The sets of arcs hold what their references touch, lie in their domains, and have no other place where
/// they are exact. A loop from a constant to a constant takes all values from one end of its range to the
/// other, in whole steps.
pub fn law_merge()
    ensures sets { SetsHoldBoxes }
    ensures domains { SetsLieInDomains }
    ensures settled { ReferencesAreSettled }
    ensures exact { ExactSetsAreTouched }
{}
