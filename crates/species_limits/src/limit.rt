//! The finding that is reported of the limits and marks of a unit.

ghost use Rattle.std.specs.Prelude.{◌≡◌, IfOk};
ghost use Rattle.std.specs.Option.{option_map};
ghost use Rattle.species_ast.specs.Scope.Refusals.{first_in};
ghost use Rattle.species_ast.specs.Scope.Programs.{Program};
ghost use Rattle.species_ast.specs.Scope.Conditions.{refused_limits};
ghost use Rattle.species_names.specs.Refused.{finding_seen};
ghost use Rattle.species_limits.specs.Built.{IsBuilt};

use crate::arrays::note_arrays;
use crate::walk::note_loops;
use species_ast::{OutOfMemory, Unit};
use species_names::{Finding, Findings};
use std::alloc::Global;

/// What is reported of the limits on arrays and loops and of marks, References left out. `places` has the places of the
/// arrays' names, in the order of the arrays.
pub fn first_limit(
    alloc: Global,
    unit: &Unit,
    places: &[u32],
) -> Result<Option<Finding>, OutOfMemory>
    ensures { (p : Program) → IsBuilt p unit.now places.now → IfOk result (λ f. option_map finding_seen f ≡ first_in (refused_limits p)) }
{
    let mut limits = Findings::new();
    note_arrays(unit.arrays.as_slice(), places, &mut limits);
    note_loops(alloc, unit, &mut limits)?;
    Ok(limits.first())
}
