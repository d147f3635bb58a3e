//! What holds of the table of arcs.

ghost use Rattle.species_truth.specs.Truth.{TablesAreTrue};

/// In each run of a program that is read, each line of its table of arcs is true of its reference, in each
/// turn of its loop.
pub fn law_table()
    ensures { TablesAreTrue }
{}
