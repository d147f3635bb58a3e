//! The next action of an iteration.
ghost use Rattle.std.specs.Prelude.{◌≡◌, ◌<◌, IfOk, Some, slice_get, length};
ghost use Rattle.species_ast.specs.Run.{actions, source_context, sums_take};
ghost use Rattle.species_ast.specs.Scope.WellMade.{IsWellMade};

use crate::frame::Frame;
use crate::statements::walk_scope;
use crate::tape::{Stop, Tape};
use species_ast::{Action, OutOfMemory, Stmt, Unit, Value};
use std::alloc::Global;

/// The action of an iteration of a nest after so many, where its reads got these answers in order. The
/// iteration does the statements of `body` from this frame, and atomic additions in it are sums.
pub fn action_at(
    alloc: Global,
    unit: &Unit,
    body: &[Stmt],
    frame: &Frame,
    answers: &[Value],
    done: u64,
) -> Result<Action, OutOfMemory>
    requires unit { IsWellMade unit.now }
    requires within { done < length (actions sums_take (source_context unit.now) body.now frame.now answers.now) }
    ensures { IfOk result (λ a. slice_get (actions sums_take (source_context unit.now) body.now frame.now answers.now) done ≡ Some a) }
{
    let mut here = frame.copy(alloc)?;
    let mut tape = Tape::new(answers, done);
    match walk_scope(unit, body, body, &mut here, &mut tape) {
        Ok(()) => Ok(Action::Done),
        Err(Stop::Memory) => Err(OutOfMemory),
        Err(Stop::At(Some(action))) => Ok(action),
        Err(Stop::At(None)) => unreachable!(),
    }
}
