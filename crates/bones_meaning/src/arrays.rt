//! What an action does to the arrays.
ghost use Rattle.std.specs.Prelude.{◌≡◌};
ghost use Rattle.species_ast.specs.Accesses.{sums};
ghost use Rattle.bones_meaning.specs.Acted.{acted, answer};

use species_ast::{Action, Value};
use species_cint::added;
use species_meaning::Arrays;

/// Does an action: a read is answered by its element, a write sets it, and an atomic addition adds to
/// it. The end and a fault change nothing, and neither does an element that the arrays do not have.
pub fn apply(arrays: &mut Arrays, action: &Action) -> Option<Value>
    ensures arrays { arrays.new ≡ acted sums action.now arrays.old }
    ensures answer { result ≡ answer action.now arrays.old }
{
    match action {
        Action::Read { array, at } => Some(arrays.get(*array, *at)),
        Action::Write { array, at, value } => {
            arrays.set(*array, *at, *value);
            None
        }
        Action::Add { array, at, value } => {
            let old = arrays.get(*array, *at);
            arrays.set(*array, *at, added(*value, old));
            None
        }
        Action::Done => None,
        Action::Fault => None,
    }
}
