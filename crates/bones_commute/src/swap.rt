//! Two actions, one after the other.
ghost use Rattle.std.specs.Prelude.{◌≡◌};
ghost use Rattle.species_ast.specs.Accesses.{sums};
ghost use Rattle.bones_meaning.specs.Acted.{acted, answer};
ghost use Rattle.bones_commute.specs.Swaps.{CanSwap, AreOfOtherOrder};

use bones_meaning::apply;
use species_ast::{Action, Value};
use species_meaning::Arrays;

/// Does two actions, the first one first, and gives their answers. Where the two name different
/// elements, are both reads or are both additions, the other order leaves the same arrays and gives the
/// same answers.
pub fn apply_both(
    arrays: &mut Arrays,
    first: &Action,
    second: &Action,
) -> (Option<Value>, Option<Value>)
    ensures arrays { arrays.new ≡ acted sums second.now (acted sums first.now arrays.old) }
    ensures one { result.0 ≡ answer first.now arrays.old }
    ensures other { result.1 ≡ answer second.now (acted sums first.now arrays.old) }
    ensures other_order { CanSwap first.now second.now → AreOfOtherOrder sums first.now second.now arrays.old arrays.new result.0 result.1 }
{
    let one = apply(arrays, first);
    let other = apply(arrays, second);
    (one, other)
}
