//! Expressions: an expression only reads, and gives a value or the trap where it has none.
ghost use Rattle.std.specs.Prelude.{◌≡◌, Result, Ok, ℕ};
ghost use Rattle.species_ast.specs.Operators as operators;
ghost use Rattle.species_ast.specs.Operators.{unary_of, binary_of, converted};
ghost use Rattle.species_ast.specs.Evaluation.{trap_of};
ghost use Rattle.species_ast.specs.Accesses.{cell};
ghost use Rattle.species_ast.specs.Run.{source_context};
ghost use Rattle.species_ast.specs.declared.trap.Trap.{Trap};
ghost use Rattle.species_meaning.specs.Effects.{and_then, element, reads, value, target_of, answer_in, known_in};
ghost use Rattle.species_meaning.specs.Places.{Found};
ghost use Rattle.species_meaning.specs.Answers.{typed};

use crate::arrays::Arrays;
use crate::frame::Frame;
use crate::kinds::{array_kind, binary_kind, kind, local_kind, unary_kind};
use crate::places::{finish, next, sizes, tail};
use species_ast::{Binary, Expr, Kind, Trap, Unary, Undefined, Unit, Value};
use species_cint::{binary, convert, joint, kind_of, unary};

/// A value, and the kind that the text of its expression tells.
#[derive(Clone, Copy)]
pub(crate) struct Typed {
    pub value: Value,
    pub kind: Kind,
}

pub(crate) fn trap(why: Undefined) -> Trap
    ensures { result ≡ trap_of why }
{
    match why {
        Undefined::Overflow => Trap::Overflow,
        Undefined::DivZero => Trap::DivZero,
        Undefined::BadShift => Trap::BadShift,
    }
}

fn answered(answer: Result<Value, Undefined>) -> Result<Value, Trap>
    ensures { result ≡ answer_in answer }
{
    match answer {
        Ok(v) => Ok(v),
        Err(why) => Err(trap(why)),
    }
}

fn known(local: Option<Value>) -> Result<Value, Trap>
    ensures { result ≡ known_in local }
{
    match local {
        Some(v) => Ok(v),
        None => Err(Trap::Unset),
    }
}

pub(crate) fn is_true(v: Value) -> bool
    ensures { result ≡ operators.is_true v }
{
    match v {
        Value::Int(n) => n != 0,
        Value::Unsigned(n) => n != 0,
        Value::Long(n) => n != 0,
        Value::UnsignedLong(n) => n != 0,
    }
}

fn truth(b: bool) -> Value
    ensures { result ≡ operators.truth b }
{
    Value::Int(if b { 1 } else { 0 })
}

/// What a unary operator gives on what its operand gave.
fn unary_after(op: Unary, x: Result<Value, Trap>) -> Result<Value, Trap>
    ensures { result ≡ and_then x (λ x. answer_in (unary_of op x)) }
{
    match x {
        Err(why) => Err(why),
        Ok(x) => answered(unary(op, x)),
    }
}

/// What a binary operator gives on its left value and on what its right side gave.
fn binary_after(op: Binary, x: Value, y: Result<Value, Trap>) -> Result<Value, Trap>
    ensures { result ≡ and_then y (λ y. answer_in (binary_of op x y)) }
{
    match y {
        Err(why) => Err(why),
        Ok(y) => answered(binary(op, x, y)),
    }
}

fn truth_after(y: Result<Value, Trap>) -> Result<Value, Trap>
    ensures { result ≡ and_then y (λ y. Ok (operators.truth (operators.is_true y))) }
{
    match y {
        Err(why) => Err(why),
        Ok(y) => Ok(truth(is_true(y))),
    }
}

fn converted_after(kind: Kind, v: Result<Value, Trap>) -> Result<Value, Trap>
    ensures { result ≡ and_then v (λ v. Ok (converted kind v)) }
{
    match v {
        Err(why) => Err(why),
        Ok(v) => Ok(convert(v, kind)),
    }
}

/// The value of an element whose place was found.
fn cell_after(arrays: &Arrays, array: u32, at: Result<u64, Trap>) -> Result<Value, Trap>
    ensures { (found : Result ℕ Trap) → Found at found → result ≡ and_then found (λ n. Ok (cell arrays.now (element array n))) }
{
    match at {
        Err(why) => Err(why),
        Ok(at) => Ok(arrays.cell(array, at)),
    }
}

fn with_kind(kind: Kind, v: Result<Value, Trap>) -> Result<Typed, Trap>
    ensures { result ≡ and_then v (λ v. Ok (record { value = v; kind = kind })) }
{
    match v {
        Err(why) => Err(why),
        Ok(value) => Ok(Typed { value, kind }),
    }
}

/// The value of an expression. What has no parts comes first, since a function pays at entry for the
/// locals of all its arms.
#[cycle(eval)]
#[inline(always)]
pub(crate) fn eval(unit: &Unit, arrays: &Arrays, frame: &Frame, e: &Expr) -> Result<Value, Trap>
    ensures { result ≡ value (source_context unit.now) e.now frame.now arrays.now }
{
    match e {
        Expr::Literal(v) => Ok(*v),
        Expr::Iter(level) => Ok(Value::Int(frame.iter(*level))),
        Expr::Local(local) => known(frame.local(*local)),
        Expr::Elem(_, _) => eval_node(unit, arrays, frame, e),
        Expr::Unary(_, _) => eval_node(unit, arrays, frame, e),
        Expr::Binary(_, _, _) => eval_node(unit, arrays, frame, e),
        Expr::And(_, _) => eval_node(unit, arrays, frame, e),
        Expr::Or(_, _) => eval_node(unit, arrays, frame, e),
        Expr::Cond(_, _, _) => eval_node(unit, arrays, frame, e),
        Expr::Cast(_, _) => eval_node(unit, arrays, frame, e),
    }
}

#[cycle(eval)]
#[inline(never)]
fn eval_node(unit: &Unit, arrays: &Arrays, frame: &Frame, e: &Expr) -> Result<Value, Trap>
    ensures { result ≡ value (source_context unit.now) e.now frame.now arrays.now }
{
    match e {
        Expr::Literal(v) => Ok(*v),
        Expr::Iter(level) => Ok(Value::Int(frame.iter(*level))),
        Expr::Local(local) => known(frame.local(*local)),
        Expr::Elem(array, subs) => cell_after(
            arrays,
            *array,
            target(unit, arrays, frame, *array, subs.as_slice()),
        ),
        Expr::Unary(op, a) => unary_after(*op, eval(unit, arrays, frame, a.get())),
        Expr::Binary(op, a, b) => match eval(unit, arrays, frame, a.get()) {
            Err(why) => Err(why),
            Ok(x) => binary_after(*op, x, eval(unit, arrays, frame, b.get())),
        },
        Expr::And(_, _) => eval_rest(unit, arrays, frame, e),
        Expr::Or(_, _) => eval_rest(unit, arrays, frame, e),
        Expr::Cond(_, _, _) => eval_rest(unit, arrays, frame, e),
        Expr::Cast(_, _) => eval_rest(unit, arrays, frame, e),
    }
}

#[cycle(eval)]
#[inline(never)]
fn eval_rest(unit: &Unit, arrays: &Arrays, frame: &Frame, e: &Expr) -> Result<Value, Trap>
    ensures { result ≡ value (source_context unit.now) e.now frame.now arrays.now }
{
    match e {
        Expr::Literal(v) => Ok(*v),
        Expr::Iter(level) => Ok(Value::Int(frame.iter(*level))),
        Expr::Local(local) => known(frame.local(*local)),
        Expr::Elem(array, subs) => cell_after(
            arrays,
            *array,
            target(unit, arrays, frame, *array, subs.as_slice()),
        ),
        Expr::Unary(op, a) => unary_after(*op, eval(unit, arrays, frame, a.get())),
        Expr::Binary(op, a, b) => match eval(unit, arrays, frame, a.get()) {
            Err(why) => Err(why),
            Ok(x) => binary_after(*op, x, eval(unit, arrays, frame, b.get())),
        },
        Expr::And(a, b) => match eval(unit, arrays, frame, a.get()) {
            Err(why) => Err(why),
            Ok(x) => {
                if is_true(x) {
                    truth_after(eval(unit, arrays, frame, b.get()))
                } else {
                    Ok(truth(false))
                }
            }
        },
        Expr::Or(a, b) => match eval(unit, arrays, frame, a.get()) {
            Err(why) => Err(why),
            Ok(x) => {
                if is_true(x) {
                    Ok(truth(true))
                } else {
                    truth_after(eval(unit, arrays, frame, b.get()))
                }
            }
        },
        Expr::Cond(test, a, b) => match eval(unit, arrays, frame, test.get()) {
            Err(why) => Err(why),
            Ok(x) => {
                if is_true(x) {
                    match eval_typed(unit, arrays, frame, a.get()) {
                        Err(why) => Err(why),
                        Ok(v) => Ok(convert(v.value, joint(v.kind, kind(unit, b.get())))),
                    }
                } else {
                    match eval_typed(unit, arrays, frame, b.get()) {
                        Err(why) => Err(why),
                        Ok(v) => Ok(convert(v.value, joint(kind(unit, a.get()), v.kind))),
                    }
                }
            }
        },
        Expr::Cast(kind, a) => converted_after(*kind, eval(unit, arrays, frame, a.get())),
    }
}

/// The value of an expression with its kind, so that the kinds of what is evaluated are found on
/// the way and not once more for each choice around it.
#[cycle(eval)]
#[inline(never)]
fn eval_typed(unit: &Unit, arrays: &Arrays, frame: &Frame, e: &Expr) -> Result<Typed, Trap>
    ensures { result ≡ typed (reads (source_context unit.now) e.now) frame.now arrays.now }
{
    match e {
        Expr::Literal(v) => with_kind(kind_of(*v), Ok(*v)),
        Expr::Iter(level) => with_kind(Kind::Int, Ok(Value::Int(frame.iter(*level)))),
        Expr::Local(local) => with_kind(local_kind(unit, *local), known(frame.local(*local))),
        Expr::Elem(array, subs) => with_kind(
            array_kind(unit, *array),
            cell_after(
                arrays,
                *array,
                target(unit, arrays, frame, *array, subs.as_slice()),
            ),
        ),
        Expr::Unary(op, a) => match eval_typed(unit, arrays, frame, a.get()) {
            Err(why) => Err(why),
            Ok(x) => with_kind(unary_kind(*op, x.kind), answered(unary(*op, x.value))),
        },
        Expr::Binary(op, a, b) => match eval_typed(unit, arrays, frame, a.get()) {
            Err(why) => Err(why),
            Ok(x) => match eval_typed(unit, arrays, frame, b.get()) {
                Err(why) => Err(why),
                Ok(y) => with_kind(
                    binary_kind(*op, x.kind, y.kind),
                    answered(binary(*op, x.value, y.value)),
                ),
            },
        },
        Expr::And(_, _) => with_kind(Kind::Int, eval_rest(unit, arrays, frame, e)),
        Expr::Or(_, _) => with_kind(Kind::Int, eval_rest(unit, arrays, frame, e)),
        Expr::Cond(test, a, b) => match eval(unit, arrays, frame, test.get()) {
            Err(why) => Err(why),
            Ok(x) => {
                if is_true(x) {
                    match eval_typed(unit, arrays, frame, a.get()) {
                        Err(why) => Err(why),
                        Ok(v) => Ok(in_kind(v.value, joint(v.kind, kind(unit, b.get())))),
                    }
                } else {
                    match eval_typed(unit, arrays, frame, b.get()) {
                        Err(why) => Err(why),
                        Ok(v) => Ok(in_kind(v.value, joint(kind(unit, a.get()), v.kind))),
                    }
                }
            }
        },
        Expr::Cast(kind, a) => with_kind(
            *kind,
            converted_after(*kind, eval(unit, arrays, frame, a.get())),
        ),
    }
}

fn in_kind(v: Value, kind: Kind) -> Typed
    ensures { result ≡ record { value = converted kind v; kind = kind } }
{
    Typed {
        value: convert(v, kind),
        kind,
    }
}

/// The place in row order of an element, or the greatest word for a place that is too great for
/// one. All subscripts are evaluated before the first is tested.
#[cycle(eval)]
pub(crate) fn target(
    unit: &Unit,
    arrays: &Arrays,
    frame: &Frame,
    array: u32,
    subs: &[Expr],
) -> Result<u64, Trap>
    ensures { Found result (target_of (source_context unit.now) array subs.now frame.now arrays.now) }
{
    let mut sizes = sizes(unit, array);
    let mut place = Some(0);
    for e in subs {
        match eval(unit, arrays, frame, e) {
            Err(why) => return Err(why),
            Ok(v) => {
                place = next(sizes, place, v);
                sizes = tail(sizes);
            }
        }
    }
    finish(sizes, place)
}
