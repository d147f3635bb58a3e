//! Walks through statements.
ghost use Rattle.std.specs.Prelude.{◌≡◌, OnOk, true, false};
ghost use Rattle.species_ast.specs.declared.tree.Kind.TheVariants as kind;
ghost use Rattle.species_ast.specs.Operators.{reduced, number_of, is_signed};
ghost use Rattle.species_ast.specs.Run.{cleared};
ghost use Rattle.bones_meaning.specs.Answers.{Walks};
ghost use Rattle.bones_meaning.specs.Walked.{context, act, effect, effects, scope_effect, loop_effect, turn_effect, turns_effect, locals_declared, assigning, adding, initialised, local_set, reads};
ghost use Rattle.bones_meaning.specs.Walked as walked;

use crate::expressions::{answered, eval, is_true, target};
use crate::frame::Frame;
use crate::kinds::{array_kind, local_kind};
use crate::locals::declares;
use crate::tape::{Stop, Tape};
use species_ast::{Action, Binary, Expr, Kind, Loop, Stmt, Test, Unit, Value};
use species_cint::{binary, convert, number};

// In each call `whole` are the statements of the iteration.

#[cycle(walk)]
fn walk_all(
    unit: &Unit,
    all: &[Stmt],
    whole: &[Stmt],
    frame: &mut Frame,
    tape: &mut Tape<'_>,
) -> Result<(), Stop>
    ensures walks { Walks result frame.new tape.new (effects (context unit.now whole.now) all.now frame.old tape.old) }
    ensures iters { OnOk result (frame.new.iters ≡ frame.old.iters) }
{
    for s in all {
        walk_one(unit, s, whole, frame, tape)?;
    }
    Ok(())
}

/// A list that is a scope: at its end the locals that it declares have no value.
#[cycle(walk)]
pub(crate) fn walk_scope(
    unit: &Unit,
    all: &[Stmt],
    whole: &[Stmt],
    frame: &mut Frame,
    tape: &mut Tape<'_>,
) -> Result<(), Stop>
    ensures walks { Walks result frame.new tape.new (scope_effect (context unit.now whole.now) all.now frame.old tape.old) }
    ensures iters { OnOk result (frame.new.iters ≡ frame.old.iters) }
{
    walk_all(unit, all, whole, frame, tape)?;
    clear(unit, whole, frame, all);
    Ok(())
}

fn clear(_unit: &Unit, _whole: &[Stmt], frame: &mut Frame, all: &[Stmt])
    ensures { frame.new ≡ cleared (locals_declared (context _unit.now _whole.now) all.now) frame.old }
{
    for s in all {
        clear_one(_unit, _whole, frame, s);
    }
}

fn clear_one(_unit: &Unit, _whole: &[Stmt], frame: &mut Frame, s: &Stmt)
    ensures { frame.new ≡ cleared (act (context _unit.now _whole.now) s.now).declares frame.old }
{
    match s {
        Stmt::Declare {
            place: _,
            local,
            init: _,
        } => frame.set(*local, None),
        Stmt::Assign { .. } => {}
        Stmt::AddTo { .. } => {}
        Stmt::SetLocal { .. } => {}
        Stmt::If { .. } => {}
        Stmt::For(_) => {}
        Stmt::Block(_) => {}
    }
}

#[cycle(walk)]
fn walk_one(
    unit: &Unit,
    s: &Stmt,
    whole: &[Stmt],
    frame: &mut Frame,
    tape: &mut Tape<'_>,
) -> Result<(), Stop>
    ensures walks { Walks result frame.new tape.new (effect (context unit.now whole.now) s.now frame.old tape.old) }
    ensures iters { OnOk result (frame.new.iters ≡ frame.old.iters) }
{
    match s {
        Stmt::Assign {
            place: _,
            array,
            subs,
            value,
        } => assign(unit, whole, frame, tape, *array, subs.as_slice(), value),
        Stmt::AddTo {
            place: _,
            array,
            subs,
            value,
            atomic,
        } => add_to(
            unit,
            whole,
            frame,
            tape,
            *array,
            *atomic,
            subs.as_slice(),
            value,
        ),
        Stmt::Declare {
            place: _,
            local,
            init,
        } => declare(unit, whole, frame, tape, *local, init),
        Stmt::SetLocal {
            place: _,
            local,
            value,
        } => set_local(unit, whole, frame, tape, *local, value),
        Stmt::If {
            place: _,
            test,
            body,
            otherwise,
        } => match eval(unit, frame, tape, test) {
            Err(why) => Err(Stop::At(why)),
            Ok(v) => {
                if is_true(v) {
                    walk_scope(unit, body.as_slice(), whole, frame, tape)
                } else {
                    walk_scope(unit, otherwise.as_slice(), whole, frame, tape)
                }
            }
        },
        Stmt::For(head) => walk_loop(unit, head, whole, frame, tape),
        Stmt::Block(body) => walk_scope(unit, body.as_slice(), whole, frame, tape),
    }
}

#[cycle(walk)]
fn walk_loop(
    unit: &Unit,
    head: &Loop,
    whole: &[Stmt],
    frame: &mut Frame,
    tape: &mut Tape<'_>,
) -> Result<(), Stop>
    ensures walks { Walks result frame.new tape.new (loop_effect (context unit.now whole.now) head.now frame.old tape.old) }
    ensures iters { OnOk result (frame.new.iters ≡ frame.old.iters) }
{
    match eval(unit, frame, tape, &head.start) {
        Err(why) => Err(Stop::At(why)),
        Ok(start) => match eval(unit, frame, tape, &head.limit) {
            Err(why) => Err(Stop::At(why)),
            Ok(limit) => walk_turns(unit, head, whole, frame, tape, bound(start), bound(limit)),
        },
    }
}

/// A value as an `int`.
fn bound(v: Value) -> i32
    ensures { result ≡ reduced kind.Int (number_of v) }
{
    match v {
        Value::Int(n) => n,
        Value::Unsigned(_) | Value::Long(_) | Value::UnsignedLong(_) => {
            number(convert(v, Kind::Int)) as i32
        }
    }
}

#[cycle(walk)]
fn walk_turns(
    unit: &Unit,
    head: &Loop,
    whole: &[Stmt],
    frame: &mut Frame,
    tape: &mut Tape<'_>,
    start: i32,
    limit: i32,
) -> Result<(), Stop>
    ensures walks { Walks result frame.new tape.new (turns_effect (context unit.now whole.now) head.now start limit frame.old tape.old) }
    ensures iters { OnOk result (frame.new.iters ≡ frame.old.iters) }
{
    let mut at = start;
    while has_turn(head.test, at, limit, head.step) {
        walk_turn(unit, head, whole, frame, tape, at)?;
        match at.checked_add(head.step) {
            None => return Ok(()),
            Some(next) => at = next,
        }
    }
    Ok(())
}

#[cycle(walk)]
fn walk_turn(
    unit: &Unit,
    head: &Loop,
    whole: &[Stmt],
    frame: &mut Frame,
    tape: &mut Tape<'_>,
    at: i32,
) -> Result<(), Stop>
    ensures walks { Walks result frame.new tape.new (turn_effect (context unit.now whole.now) head.now at frame.old tape.old) }
    ensures iters { OnOk result (frame.new.iters ≡ frame.old.iters) }
{
    frame.enter(at)?;
    walk_scope(unit, head.body.as_slice(), whole, frame, tape)?;
    frame.leave();
    Ok(())
}

fn has_turn(test: Test, at: i32, limit: i32, step: i32) -> bool
    ensures { result ≡ walked.has_turn test at limit step }
{
    match test {
        Test::Lt => 0 < step && at < limit,
        Test::Le => 0 < step && at <= limit,
        Test::Gt => step < 0 && limit < at,
        Test::Ge => step < 0 && limit <= at,
    }
}

fn assign(
    unit: &Unit,
    _whole: &[Stmt],
    frame: &Frame,
    tape: &mut Tape<'_>,
    array: u32,
    subs: &[Expr],
    value: &Expr,
) -> Result<(), Stop>
    ensures { Walks result frame.now tape.new (assigning (context unit.now _whole.now) array subs.now value.now frame.now tape.old) }
{
    match target(unit, frame, tape, array, subs) {
        Err(why) => Err(Stop::At(why)),
        Ok(at) => match eval(unit, frame, tape, value) {
            Err(why) => Err(Stop::At(why)),
            Ok(v) => {
                let value = convert(v, array_kind(unit, array));
                match tape.change(Action::Write { array, at, value }) {
                    Err(why) => Err(Stop::At(why)),
                    Ok(()) => Ok(()),
                }
            }
        },
    }
}

fn add_to(
    unit: &Unit,
    whole: &[Stmt],
    frame: &Frame,
    tape: &mut Tape<'_>,
    array: u32,
    atomic: bool,
    subs: &[Expr],
    value: &Expr,
) -> Result<(), Stop>
    ensures { Walks result frame.now tape.new (adding (context unit.now whole.now) array atomic subs.now value.now frame.now tape.old) }
{
    match target(unit, frame, tape, array, subs) {
        Err(why) => Err(Stop::At(why)),
        Ok(at) => {
            if atomic {
                add_at_once(unit, whole, frame, tape, array, at, value)
            } else {
                add_by_parts(unit, whole, frame, tape, array, at, value)
            }
        }
    }
}

/// An atomic addition, which an array of a signed kind does not take.
fn add_at_once(
    unit: &Unit,
    _whole: &[Stmt],
    frame: &Frame,
    tape: &mut Tape<'_>,
    array: u32,
    at: u32,
    value: &Expr,
) -> Result<(), Stop>
    ensures { Walks result frame.now tape.new (walked.summed (context unit.now _whole.now) array true at (reads (context unit.now _whole.now) value.now) frame.now tape.old) }
{
    match eval(unit, frame, tape, value) {
        Err(why) => Err(Stop::At(why)),
        Ok(v) => {
            let kind = array_kind(unit, array);
            if signed(kind) {
                return Err(Stop::At(tape.fault()));
            }
            let value = convert(v, kind);
            match tape.change(Action::Add { array, at, value }) {
                Err(why) => Err(Stop::At(why)),
                Ok(()) => Ok(()),
            }
        }
    }
}

fn signed(kind: Kind) -> bool
    ensures { result ≡ is_signed kind }
{
    match kind {
        Kind::Int | Kind::Long => true,
        Kind::Unsigned | Kind::UnsignedLong => false,
    }
}

/// A read, the sum and a write.
fn add_by_parts(
    unit: &Unit,
    _whole: &[Stmt],
    frame: &Frame,
    tape: &mut Tape<'_>,
    array: u32,
    at: u32,
    value: &Expr,
) -> Result<(), Stop>
    ensures { Walks result frame.now tape.new (walked.summed (context unit.now _whole.now) array false at (reads (context unit.now _whole.now) value.now) frame.now tape.old) }
{
    match tape.ask(Action::Read { array, at }) {
        Err(why) => Err(Stop::At(why)),
        Ok(old) => match eval(unit, frame, tape, value) {
            Err(why) => Err(Stop::At(why)),
            Ok(v) => match answered(binary(Binary::Add, old, v), tape) {
                Err(why) => Err(Stop::At(why)),
                Ok(sum) => {
                    let value = convert(sum, array_kind(unit, array));
                    match tape.change(Action::Write { array, at, value }) {
                        Err(why) => Err(Stop::At(why)),
                        Ok(()) => Ok(()),
                    }
                }
            },
        },
    }
}

/// While the initialiser is evaluated the local has no value.
fn declare(
    unit: &Unit,
    _whole: &[Stmt],
    frame: &mut Frame,
    tape: &mut Tape<'_>,
    local: u32,
    init: &Option<Expr>,
) -> Result<(), Stop>
    ensures walks { Walks result frame.new tape.new (initialised (context unit.now _whole.now) local init.now frame.old tape.old) }
    ensures iters { OnOk result (frame.new.iters ≡ frame.old.iters) }
{
    frame.set(local, None);
    match init {
        None => Ok(()),
        Some(e) => match eval(unit, frame, tape, e) {
            Err(why) => Err(Stop::At(why)),
            Ok(v) => {
                frame.set(local, Some(convert(v, local_kind(unit, local))));
                Ok(())
            }
        },
    }
}

/// An iteration sets only locals that it declares.
fn set_local(
    unit: &Unit,
    whole: &[Stmt],
    frame: &mut Frame,
    tape: &mut Tape<'_>,
    local: u32,
    value: &Expr,
) -> Result<(), Stop>
    ensures walks { Walks result frame.new tape.new (local_set (context unit.now whole.now) local (reads (context unit.now whole.now) value.now) frame.old tape.old) }
    ensures iters { OnOk result (frame.new.iters ≡ frame.old.iters) }
{
    match eval(unit, frame, tape, value) {
        Err(why) => Err(Stop::At(why)),
        Ok(v) => {
            if !declares(whole, local) {
                return Err(Stop::At(tape.fault()));
            }
            frame.set(local, Some(convert(v, local_kind(unit, local))));
            Ok(())
        }
    }
}
