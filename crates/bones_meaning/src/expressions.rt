//! Walks through expressions: each read is given its answer.
ghost use Rattle.std.specs.Prelude.{◌≡◌};
ghost use Rattle.species_ast.specs.Operators as operators;
ghost use Rattle.species_ast.specs.Run.{source_context};
ghost use Rattle.bones_meaning.specs.Tapes.{came};
ghost use Rattle.bones_meaning.specs.Walked.{reads, value, target_of, answer_in, known_in};

use crate::frame::Frame;
use crate::kinds::kind;
use crate::places::{finish, next, sizes, tail};
use crate::tape::{Halt, Tape};
use species_ast::{Action, Expr, Kind, Undefined, Unit, Value};
use species_cint::{binary, convert, joint, unary};

/// What an operator gave: where it has no value, the walk meets a fault.
pub(crate) fn answered(answer: Result<Value, Undefined>, tape: &Tape<'_>) -> Result<Value, Halt>
    ensures { came result tape.now ≡ answer_in answer tape.now }
{
    match answer {
        Ok(v) => Ok(v),
        Err(_) => Err(tape.fault()),
    }
}

/// A local that is read.
fn known(local: Option<Value>, tape: &Tape<'_>) -> Result<Value, Halt>
    ensures { came result tape.now ≡ known_in local tape.now }
{
    match local {
        Some(v) => Ok(v),
        None => Err(tape.fault()),
    }
}

pub(crate) fn is_true(v: Value) -> bool
    ensures { result ≡ operators.is_true v }
{
    match v {
        Value::Int(n) => n != 0,
        Value::Unsigned(n) => n != 0,
        Value::Long(n) => n != 0,
        Value::UnsignedLong(n) => n != 0,
    }
}

fn truth(b: bool) -> Value
    ensures { result ≡ operators.truth b }
{
    Value::Int(if b { 1 } else { 0 })
}

/// The kind of a choice between two expressions.
fn choice_kind(unit: &Unit, a: &Expr, b: &Expr) -> Kind
    ensures { result ≡ operators.joint (reads (source_context unit.now) a.now).kind (reads (source_context unit.now) b.now).kind }
{
    let a = kind(unit, a);
    let b = kind(unit, b);
    joint(a, b)
}

/// The value of an expression.
#[cycle(eval)]
pub(crate) fn eval(unit: &Unit, frame: &Frame, tape: &mut Tape<'_>, e: &Expr) -> Result<Value, Halt>
    ensures { came result tape.new ≡ value (source_context unit.now) e.now frame.now tape.old }
{
    match e {
        Expr::Literal(v) => Ok(*v),
        Expr::Iter(level) => Ok(Value::Int(frame.iter(*level))),
        Expr::Local(local) => known(frame.local(*local), tape),
        Expr::Elem(array, subs) => match target(unit, frame, tape, *array, subs.as_slice()) {
            Err(why) => Err(why),
            Ok(at) => tape.ask(Action::Read { array: *array, at }),
        },
        Expr::Unary(op, a) => match eval(unit, frame, tape, a.get()) {
            Err(why) => Err(why),
            Ok(x) => answered(unary(*op, x), tape),
        },
        Expr::Binary(op, a, b) => match eval(unit, frame, tape, a.get()) {
            Err(why) => Err(why),
            Ok(x) => match eval(unit, frame, tape, b.get()) {
                Err(why) => Err(why),
                Ok(y) => answered(binary(*op, x, y), tape),
            },
        },
        Expr::And(_, _) => eval_rest(unit, frame, tape, e),
        Expr::Or(_, _) => eval_rest(unit, frame, tape, e),
        Expr::Cond(_, _, _) => eval_rest(unit, frame, tape, e),
        Expr::Cast(_, _) => eval_rest(unit, frame, tape, e),
    }
}

/// The value of an expression of which one part may be left out, or which is converted.
#[cycle(eval)]
fn eval_rest(unit: &Unit, frame: &Frame, tape: &mut Tape<'_>, e: &Expr) -> Result<Value, Halt>
    ensures { came result tape.new ≡ value (source_context unit.now) e.now frame.now tape.old }
{
    match e {
        Expr::Literal(v) => Ok(*v),
        Expr::Iter(level) => Ok(Value::Int(frame.iter(*level))),
        Expr::Local(local) => known(frame.local(*local), tape),
        Expr::Elem(array, subs) => match target(unit, frame, tape, *array, subs.as_slice()) {
            Err(why) => Err(why),
            Ok(at) => tape.ask(Action::Read { array: *array, at }),
        },
        Expr::Unary(op, a) => match eval(unit, frame, tape, a.get()) {
            Err(why) => Err(why),
            Ok(x) => answered(unary(*op, x), tape),
        },
        Expr::Binary(op, a, b) => match eval(unit, frame, tape, a.get()) {
            Err(why) => Err(why),
            Ok(x) => match eval(unit, frame, tape, b.get()) {
                Err(why) => Err(why),
                Ok(y) => answered(binary(*op, x, y), tape),
            },
        },
        Expr::And(a, b) => match eval(unit, frame, tape, a.get()) {
            Err(why) => Err(why),
            Ok(x) => {
                if is_true(x) {
                    match eval(unit, frame, tape, b.get()) {
                        Err(why) => Err(why),
                        Ok(y) => Ok(truth(is_true(y))),
                    }
                } else {
                    Ok(truth(false))
                }
            }
        },
        Expr::Or(a, b) => match eval(unit, frame, tape, a.get()) {
            Err(why) => Err(why),
            Ok(x) => {
                if is_true(x) {
                    Ok(truth(true))
                } else {
                    match eval(unit, frame, tape, b.get()) {
                        Err(why) => Err(why),
                        Ok(y) => Ok(truth(is_true(y))),
                    }
                }
            }
        },
        Expr::Cond(test, a, b) => match eval(unit, frame, tape, test.get()) {
            Err(why) => Err(why),
            Ok(x) => {
                let kind = choice_kind(unit, a.get(), b.get());
                if is_true(x) {
                    match eval(unit, frame, tape, a.get()) {
                        Err(why) => Err(why),
                        Ok(v) => Ok(convert(v, kind)),
                    }
                } else {
                    match eval(unit, frame, tape, b.get()) {
                        Err(why) => Err(why),
                        Ok(v) => Ok(convert(v, kind)),
                    }
                }
            }
        },
        Expr::Cast(kind, a) => match eval(unit, frame, tape, a.get()) {
            Err(why) => Err(why),
            Ok(v) => Ok(convert(v, *kind)),
        },
    }
}

/// The place in row order of an element, or the greatest word for a place that is too great for
/// one. All subscripts are evaluated before the first is tested.
#[cycle(eval)]
pub(crate) fn target(
    unit: &Unit,
    frame: &Frame,
    tape: &mut Tape<'_>,
    array: u32,
    subs: &[Expr],
) -> Result<u32, Halt>
    ensures { came result tape.new ≡ target_of (source_context unit.now) array subs.now frame.now tape.old }
{
    let mut sizes = sizes(unit, array);
    let mut place = Some(0);
    for e in subs {
        match eval(unit, frame, tape, e) {
            Err(why) => return Err(why),
            Ok(v) => {
                place = next(sizes, place, v);
                sizes = tail(sizes);
            }
        }
    }
    finish(sizes, place, tape)
}
