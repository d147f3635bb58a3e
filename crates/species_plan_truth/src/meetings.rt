//! Iterations of parallel loops do not meet.

ghost use Rattle.species_plan_truth.specs.Meetings.{PlannedNeverMeet, PlannedRunningsMeet};

/// Iterations of the loops that are decided to be parallel touch one element only to read it, or to add
/// to a gathered array: in whatever run or interleaving, and so in each run.
pub fn law_plans()
    ensures accesses { PlannedNeverMeet }
    ensures runnings { PlannedRunningsMeet }
{}
