//! What holds of the notation as a whole.

ghost use Rattle.species_notation.specs.Law.{ReadsBack};
ghost use Rattle.species_notation.specs.TableLines.{TableReadsBack};

/// The text that is written for a nest is read as its arcs.
pub fn law_notation()
    ensures { ReadsBack }
{}

/// The line of the table of arcs that is written for a reference says its number, its arc and its domain.
pub fn law_table_lines()
    ensures { TableReadsBack }
{}
