//! Statements, and so the source's run.
ghost use Rattle.std.specs.Prelude.{◌≡◌, IfOk, OnOk};
ghost use Rattle.species_ast.specs.declared.tree.Kind.TheVariants as kind;
ghost use Rattle.species_ast.specs.Operators.{reduced, number_of};
ghost use Rattle.species_ast.specs.Accesses.{sums};
ghost use Rattle.species_ast.specs.Run.{source_context, source_run, cleared, AreArraysOf};
ghost use Rattle.species_meaning.specs.Effects.{act, effect, effects, scope_effect, loop_effect, turn_effect, turns_effect, locals_declared, assigning, adding, initialised, local_set, reads};
ghost use Rattle.species_meaning.specs.Effects as meaning;
ghost use Rattle.species_meaning.specs.Answers.{Runs, Gives};

use crate::answer::RunAnswer;
use crate::arrays::Arrays;
use crate::expressions::{eval, is_true, trap};
use crate::frame::Frame;
use crate::kinds::{array_kind, local_kind};
use crate::quick::{binary, convert, evaluate, locate};
use species_ast::{Binary, Expr, Kind, Loop, Stmt, Test, Unit, Value};
use species_cint::number;
use std::alloc::Global;

/// Runs a program from these arrays. Parallel marks and species lines mean nothing here, and an atomic
/// addition is a sum.
pub fn run_source(alloc: Global, unit: &Unit, start: Arrays) -> Result<Arrays, RunAnswer>
    ensures run { Gives result (source_run sums unit.now start) }
    ensures arrays { AreArraysOf unit.now.arrays start → IfOk result (λ m. AreArraysOf unit.now.arrays m) }
{
    let mut arrays = start;
    let mut frame = Frame::new(alloc, unit.locals.len())?;
    run_all(unit, &mut arrays, &mut frame, unit.body.as_slice())?;
    Ok(arrays)
}

#[cycle(run)]
fn run_all(
    unit: &Unit,
    arrays: &mut Arrays,
    frame: &mut Frame,
    all: &[Stmt],
) -> Result<(), RunAnswer>
    ensures runs { Runs result frame.new arrays.new (effects (source_context unit.now) all.now frame.old arrays.old) }
    ensures iters { OnOk result (frame.new.iters ≡ frame.old.iters) }
{
    for s in all {
        run_one(unit, arrays, frame, s)?;
    }
    Ok(())
}

/// A list that is a scope: at its end the locals that it declares have no value.
#[cycle(run)]
#[inline(never)]
fn run_scope(
    unit: &Unit,
    arrays: &mut Arrays,
    frame: &mut Frame,
    all: &[Stmt],
) -> Result<(), RunAnswer>
    ensures runs { Runs result frame.new arrays.new (scope_effect (source_context unit.now) all.now frame.old arrays.old) }
    ensures iters { OnOk result (frame.new.iters ≡ frame.old.iters) }
{
    run_all(unit, arrays, frame, all)?;
    clear(unit, frame, all);
    Ok(())
}

fn clear(unit: &Unit, frame: &mut Frame, all: &[Stmt])
    ensures { frame.new ≡ cleared (locals_declared (source_context unit.now) all.now) frame.old }
{
    for s in all {
        clear_one(unit, frame, s);
    }
}

fn clear_one(_unit: &Unit, frame: &mut Frame, s: &Stmt)
    ensures { frame.new ≡ cleared (act (source_context _unit.now) s.now).declares frame.old }
{
    match s {
        Stmt::Declare {
            place: _,
            local,
            init: _,
        } => frame.set(*local, None),
        Stmt::Assign { .. } => {}
        Stmt::AddTo { .. } => {}
        Stmt::SetLocal { .. } => {}
        Stmt::If { .. } => {}
        Stmt::For(_) => {}
        Stmt::Block(_) => {}
    }
}

#[cycle(run)]
fn run_one(unit: &Unit, arrays: &mut Arrays, frame: &mut Frame, s: &Stmt) -> Result<(), RunAnswer>
    ensures runs { Runs result frame.new arrays.new (effect (source_context unit.now) s.now frame.old arrays.old) }
    ensures iters { OnOk result (frame.new.iters ≡ frame.old.iters) }
{
    match s {
        Stmt::Assign {
            place,
            array,
            subs,
            value,
        } => assign(unit, arrays, frame, *place, *array, subs.as_slice(), value),
        Stmt::AddTo {
            place,
            array,
            subs,
            value,
            atomic,
        } => add_to(
            unit,
            arrays,
            frame,
            *place,
            *array,
            *atomic,
            subs.as_slice(),
            value,
        ),
        Stmt::Declare { place, local, init } => {
            declare(unit, arrays, frame, *place, *local, init)
        }
        Stmt::SetLocal {
            place,
            local,
            value,
        } => set_local(unit, arrays, frame, *place, *local, value),
        Stmt::If {
            place,
            test,
            body,
            otherwise,
        } => match evaluate(unit, arrays, frame, test) {
            Err(why) => Err(RunAnswer::Undefined(why, *place)),
            Ok(v) => {
                if is_true(v) {
                    run_scope(unit, arrays, frame, body.as_slice())
                } else {
                    run_scope(unit, arrays, frame, otherwise.as_slice())
                }
            }
        },
        Stmt::For(head) => run_loop(unit, arrays, frame, head),
        Stmt::Block(body) => run_scope(unit, arrays, frame, body.as_slice()),
    }
}

#[cycle(run)]
#[inline(never)]
fn run_loop(
    unit: &Unit,
    arrays: &mut Arrays,
    frame: &mut Frame,
    head: &Loop,
) -> Result<(), RunAnswer>
    ensures runs { Runs result frame.new arrays.new (loop_effect (source_context unit.now) head.now frame.old arrays.old) }
    ensures iters { OnOk result (frame.new.iters ≡ frame.old.iters) }
{
    match eval(unit, arrays, frame, &head.start) {
        Err(why) => Err(RunAnswer::Undefined(why, head.place)),
        Ok(start) => match eval(unit, arrays, frame, &head.limit) {
            Err(why) => Err(RunAnswer::Undefined(why, head.place)),
            Ok(limit) => run_turns(unit, arrays, frame, head, bound(start), bound(limit)),
        },
    }
}

/// A value as an `int`.
fn bound(v: Value) -> i32
    ensures { result ≡ reduced kind.Int (number_of v) }
{
    match v {
        Value::Int(n) => n,
        Value::Unsigned(_) | Value::Long(_) | Value::UnsignedLong(_) => {
            number(convert(v, Kind::Int)) as i32
        }
    }
}

#[cycle(run)]
#[inline(never)]
fn run_turns(
    unit: &Unit,
    arrays: &mut Arrays,
    frame: &mut Frame,
    head: &Loop,
    start: i32,
    limit: i32,
) -> Result<(), RunAnswer>
    ensures runs { Runs result frame.new arrays.new (turns_effect (source_context unit.now) head.now start limit frame.old arrays.old) }
    ensures iters { OnOk result (frame.new.iters ≡ frame.old.iters) }
{
    let mut at = start;
    while has_turn(head.test, at, limit, head.step) {
        run_turn(unit, arrays, frame, head, at)?;
        match at.checked_add(head.step) {
            None => return Ok(()),
            Some(next) => at = next,
        }
    }
    Ok(())
}

#[cycle(run)]
fn run_turn(
    unit: &Unit,
    arrays: &mut Arrays,
    frame: &mut Frame,
    head: &Loop,
    at: i32,
) -> Result<(), RunAnswer>
    ensures runs { Runs result frame.new arrays.new (turn_effect (source_context unit.now) head.now at frame.old arrays.old) }
    ensures iters { OnOk result (frame.new.iters ≡ frame.old.iters) }
{
    frame.enter(at)?;
    run_scope(unit, arrays, frame, head.body.as_slice())?;
    frame.leave();
    Ok(())
}

fn has_turn(test: Test, at: i32, limit: i32, step: i32) -> bool
    ensures { result ≡ meaning.has_turn test at limit step }
{
    match test {
        Test::Lt => 0 < step && at < limit,
        Test::Le => 0 < step && at <= limit,
        Test::Gt => step < 0 && limit < at,
        Test::Ge => step < 0 && limit <= at,
    }
}

#[inline(never)]
fn assign(
    unit: &Unit,
    arrays: &mut Arrays,
    frame: &Frame,
    place: u32,
    array: u32,
    subs: &[Expr],
    value: &Expr,
) -> Result<(), RunAnswer>
    ensures { Runs result frame.now arrays.new (assigning (source_context unit.now) place array subs.now value.now frame.now arrays.old) }
{
    match locate(unit, arrays, frame, array, subs) {
        Err(why) => Err(RunAnswer::Undefined(why, place)),
        Ok(at) => match evaluate(unit, arrays, frame, value) {
            Err(why) => Err(RunAnswer::Undefined(why, place)),
            Ok(v) => {
                arrays.put(array, at, convert(v, array_kind(unit, array)));
                Ok(())
            }
        },
    }
}

#[inline(never)]
fn add_to(
    unit: &Unit,
    arrays: &mut Arrays,
    frame: &Frame,
    place: u32,
    array: u32,
    atomic: bool,
    subs: &[Expr],
    value: &Expr,
) -> Result<(), RunAnswer>
    ensures { Runs result frame.now arrays.new (adding (source_context unit.now) place array atomic subs.now value.now frame.now arrays.old) }
{
    match locate(unit, arrays, frame, array, subs) {
        Err(why) => Err(RunAnswer::Undefined(why, place)),
        Ok(at) => match evaluate(unit, arrays, frame, value) {
            Err(why) => Err(RunAnswer::Undefined(why, place)),
            Ok(v) => {
                if atomic {
                    arrays.add(array, at, convert(v, array_kind(unit, array)));
                    Ok(())
                } else {
                    match binary(Binary::Add, arrays.cell(array, at), v) {
                        Err(why) => Err(RunAnswer::Undefined(trap(why), place)),
                        Ok(sum) => {
                            arrays.put(array, at, convert(sum, array_kind(unit, array)));
                            Ok(())
                        }
                    }
                }
            }
        },
    }
}

/// While the initialiser is evaluated the local has no value.
#[inline(never)]
fn declare(
    unit: &Unit,
    arrays: &Arrays,
    frame: &mut Frame,
    place: u32,
    local: u32,
    init: &Option<Expr>,
) -> Result<(), RunAnswer>
    ensures runs { Runs result frame.new arrays.now (initialised (source_context unit.now) place local init.now frame.old arrays.now) }
    ensures iters { OnOk result (frame.new.iters ≡ frame.old.iters) }
{
    frame.set(local, None);
    match init {
        None => Ok(()),
        Some(e) => match evaluate(unit, arrays, frame, e) {
            Err(why) => Err(RunAnswer::Undefined(why, place)),
            Ok(v) => {
                frame.set(local, Some(convert(v, local_kind(unit, local))));
                Ok(())
            }
        },
    }
}

#[inline(never)]
fn set_local(
    unit: &Unit,
    arrays: &Arrays,
    frame: &mut Frame,
    place: u32,
    local: u32,
    value: &Expr,
) -> Result<(), RunAnswer>
    ensures runs { Runs result frame.new arrays.now (local_set (source_context unit.now) place local (reads (source_context unit.now) value.now) frame.old arrays.now) }
    ensures iters { OnOk result (frame.new.iters ≡ frame.old.iters) }
{
    match evaluate(unit, arrays, frame, value) {
        Err(why) => Err(RunAnswer::Undefined(why, place)),
        Ok(v) => {
            frame.set(local, Some(convert(v, local_kind(unit, local))));
            Ok(())
        }
    }
}
