//! What the lines of planned nests say is true.

ghost use Rattle.species_plan_truth.specs.Truth.{PlannedLinesAreTrue};

/// The line of each nest that is planned parallel can be read, and what it says is true in each run; and two
/// iterations of the nest touch one element only to read it, or to add to it.
pub fn law_lines()
    ensures { PlannedLinesAreTrue }
{}
