//! The law of refusals.

ghost use Rattle.species_ast.specs.Scope.Law.{ReportsTheFirst};

/// Of a group of refusals the reported one is the first: no other has a lesser place, or the same
/// place and a lesser number.
pub fn law_refusals()
    ensures { ReportsTheFirst }
{}
