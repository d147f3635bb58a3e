//! The accesses of a run and the references of the text that make them: definitions and laws.
//!
//! The references stand in `species_ast`, and what holds of every access in `species_runs`. Nothing
//! here runs.
#![tactic(auto)]

ghost use Rattle.species_occurrences.specs.Law.{AccessesAreMade, AffineHaveTheirForms, IterationsAreMade, MomentsAreTaken};
ghost use Rattle.species_occurrences.specs.Nesting.{NestsAreFronts, FittingNestsAreDeep, PlacedLoopsAreLoops, RunningsAreLoops, MarkedNestsAreDeep, MarkedRunningsAreDeep};
ghost use Rattle.species_occurrences.specs.Turns.{LoopsAreTheirTurns, RunningsAreTheirTurns, RunningsAreTheirIterations, TurnsAreIterations};

/// In each run of a well made unit every access inside a loop is made by one of the loop's
/// references, affine expressions give the values of their forms, and iterators lie in their ranges.
/// In each iteration of a nest that ends, the nest's references make the accesses, and each one that
/// is not conditional makes one.
pub fn law_accesses()
    ensures made { AccessesAreMade }
    ensures affine { AffineHaveTheirForms }
    ensures moments { MomentsAreTaken }
    ensures iterations { IterationsAreMade }
{}

/// The accesses of a loop are those of its header and of its turns, one after another; where a run
/// comes to a nest they are those of its iterations, to any depth, also where one traps.
pub fn law_turns()
    ensures loops { LoopsAreTheirTurns }
    ensures runnings { RunningsAreTheirTurns }
    ensures nests { RunningsAreTheirIterations }
    ensures iterations { TurnsAreIterations }
{}

/// The loops of a nest are those that are perfectly nested there, as many as its mark is deep, and a
/// run comes to loops of the text alone.
pub fn law_nesting()
    ensures fronts { NestsAreFronts }
    ensures fitting { FittingNestsAreDeep }
    ensures placed { PlacedLoopsAreLoops }
    ensures reached { RunningsAreLoops }
    ensures marked { MarkedNestsAreDeep }
    ensures marked_reached { MarkedRunningsAreDeep }
{}
