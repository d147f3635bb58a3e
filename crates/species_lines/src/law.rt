//! The law of lines.

ghost use Rattle.species_lines.specs.Lines.{LinesHold, DomainsAreOutside, AdditionsAreMarked};

/// In each run of a well made unit the arcs of references of a nest hold in each turn of the innermost
/// loop of its band, also in one that traps; a domain depends on no iterator of a band whose bounds name
/// none; and what adds in a loop is what is marked.
pub fn law_lines()
    ensures lines { LinesHold }
    ensures domains { DomainsAreOutside }
    ensures additions { AdditionsAreMarked }
{}
