//! Values of `int`, the usual case, found without an answer in which a trap or another kind could stand.
//! None says nothing: then `eval` and `target` give the answer. These call nothing of here, so no part of an expression
//! is evaluated more than twice.
ghost use Rattle.std.specs.Prelude.{◌≡◌, Ok, Some, IfSome};
ghost use Rattle.species_ast.specs.declared.tree.Kind.TheVariants as kind;
ghost use Rattle.species_ast.specs.declared.tree.Binary.TheVariants as binary;
ghost use Rattle.species_ast.specs.declared.tree.Value.TheVariants.{Int};
ghost use Rattle.species_ast.specs.Accesses.{Cells};
ghost use Rattle.species_ast.specs.Evaluation.{Context};
ghost use Rattle.species_ast.specs.Operators.{binary_in, binary_of, converted, exact_in};
ghost use Rattle.species_ast.specs.Run.{source_context};
ghost use Rattle.species_meaning.specs.Effects.{value, and_then, answer_in, target_of};
ghost use Rattle.species_meaning.specs.Places.{Found};

use crate::arrays::Arrays;
use crate::expressions::{eval, target};
use crate::frame::Frame;
use crate::places::{finish, next, sizes, tail};
use species_ast::{Binary, Expr, Kind, Trap, Undefined, Unit, Value};

/// An exact result as an `int`.
#[inline(always)]
fn narrow(n: i64) -> Option<i32>
    ensures { IfSome result (λ x. exact_in kind.Int n ≡ Ok (Int x)) }
{
    if i64::from(i32::MIN) <= n && n <= i64::from(i32::MAX) {
        Some(n as i32)
    } else {
        None
    }
}

/// A quotient of two numbers of `int`, where it is one.
#[inline(always)]
fn quotient(a: i32, b: i32) -> Option<i32>
    ensures { IfSome result (λ n. binary_in kind.Int binary.Div a b ≡ Ok (Int n)) }
{
    if b == 0 {
        None
    } else {
        narrow(i64::from(a) / i64::from(b))
    }
}

/// A sum, a difference, a product or a quotient of two numbers of `int`, where it is one.
#[inline(always)]
fn int_result(op: Binary, a: i32, b: i32) -> Option<i32>
    ensures { IfSome result (λ n. binary_in kind.Int op a b ≡ Ok (Int n)) }
{
    match op {
        Binary::Add => narrow(i64::from(a) + i64::from(b)),
        Binary::Sub => narrow(i64::from(a) - i64::from(b)),
        Binary::Mul => narrow(i64::from(a) * i64::from(b)),
        Binary::Div => quotient(a, b),
        _ => None,
    }
}

/// The same by the definition for all kinds.
#[inline(always)]
fn int_operator(op: Binary, a: i32, b: i32) -> Option<i32>
    ensures { IfSome result (λ n. binary_of op (Int a) (Int b) ≡ Ok (Int n)) }
{
    match int_result(op, a, b) {
        None => None,
        Some(n) => Some(n),
    }
}

#[inline(always)]
fn int_binary(op: Binary, a: i32, b: i32) -> Result<Value, Undefined>
    ensures { result ≡ binary_of op (Int a) (Int b) }
{
    match int_operator(op, a, b) {
        Some(n) => Ok(Value::Int(n)),
        None => species_cint::binary(op, Value::Int(a), Value::Int(b)),
    }
}

/// The value of a binary operator.
#[inline(always)]
pub(crate) fn binary(op: Binary, a: Value, b: Value) -> Result<Value, Undefined>
    ensures { result ≡ binary_of op a b }
{
    match a {
        Value::Int(x) => match b {
            Value::Int(y) => int_binary(op, x, y),
            Value::Unsigned(_) => species_cint::binary(op, a, b),
            Value::Long(_) => species_cint::binary(op, a, b),
            Value::UnsignedLong(_) => species_cint::binary(op, a, b),
        },
        Value::Unsigned(_) => species_cint::binary(op, a, b),
        Value::Long(_) => species_cint::binary(op, a, b),
        Value::UnsignedLong(_) => species_cint::binary(op, a, b),
    }
}

/// A number of `int` converted to a kind.
#[inline(always)]
fn int_in(n: i32, kind: Kind) -> Value
    ensures { result ≡ converted kind (Int n) }
{
    match kind {
        Kind::Int => Value::Int(n),
        Kind::Unsigned => species_cint::convert(Value::Int(n), kind),
        Kind::Long => species_cint::convert(Value::Int(n), kind),
        Kind::UnsignedLong => species_cint::convert(Value::Int(n), kind),
    }
}

/// A value converted to a kind.
#[inline(always)]
pub(crate) fn convert(v: Value, kind: Kind) -> Value
    ensures { result ≡ converted kind v }
{
    match v {
        Value::Int(n) => int_in(n, kind),
        Value::Unsigned(_) => species_cint::convert(v, kind),
        Value::Long(_) => species_cint::convert(v, kind),
        Value::UnsignedLong(_) => species_cint::convert(v, kind),
    }
}

#[inline(always)]
fn int_of(v: Value) -> Option<i32>
    ensures { IfSome result (λ n. v ≡ Int n) }
{
    match v {
        Value::Int(n) => Some(n),
        Value::Unsigned(_) => None,
        Value::Long(_) => None,
        Value::UnsignedLong(_) => None,
    }
}

/// The value of an iterator, or of a literal of `int`.
#[inline(always)]
fn leaf(frame: &Frame, e: &Expr) -> Option<i32>
    ensures { IfSome result (λ n. (w : Context) (m : Cells) → value w e.now frame.now m ≡ Ok (Int n)) }
{
    match e {
        Expr::Literal(v) => int_of(*v),
        Expr::Iter(level) => Some(frame.iter(*level)),
        Expr::Local(_) => None,
        Expr::Elem(_, _) => None,
        Expr::Unary(_, _) => None,
        Expr::Binary(_, _, _) => None,
        Expr::And(_, _) => None,
        Expr::Or(_, _) => None,
        Expr::Cond(_, _, _) => None,
        Expr::Cast(_, _) => None,
    }
}

/// A sum, difference or product of two of these.
#[inline(always)]
fn leaves(frame: &Frame, op: Binary, a: &Expr, b: &Expr) -> Option<i32>
    ensures { IfSome result (λ n. (w : Context) (m : Cells) → and_then (value w a.now frame.now m) (λ x. and_then (value w b.now frame.now m) (λ y. answer_in (binary_of op x y))) ≡ Ok (Int n)) }
{
    match leaf(frame, a) {
        None => None,
        Some(x) => match leaf(frame, b) {
            None => None,
            Some(y) => match int_operator(op, x, y) {
                None => None,
                Some(n) => Some(n),
            },
        },
    }
}

/// The value of an expression that is an iterator, a literal of `int`, or an operator on two of these, where it is
/// an `int`.
#[inline(always)]
fn near(frame: &Frame, e: &Expr) -> Option<i32>
    ensures { IfSome result (λ n. (w : Context) (m : Cells) → value w e.now frame.now m ≡ Ok (Int n)) }
{
    match e {
        Expr::Literal(_) => leaf(frame, e),
        Expr::Iter(_) => leaf(frame, e),
        Expr::Local(_) => None,
        Expr::Elem(_, _) => None,
        Expr::Unary(_, _) => None,
        Expr::Binary(op, a, b) => match leaves(frame, *op, a.get(), b.get()) {
            None => None,
            Some(n) => Some(n),
        },
        Expr::And(_, _) => None,
        Expr::Or(_, _) => None,
        Expr::Cond(_, _, _) => None,
        Expr::Cast(_, _) => None,
    }
}

#[inline(always)]
fn known_int(local: Option<Value>) -> Option<i32>
    ensures { IfSome result (λ n. local ≡ Some (Int n)) }
{
    match local {
        None => None,
        Some(v) => int_of(v),
    }
}

/// What an operator other than those of `int_result` gives.
#[inline(never)]
fn other_binary(op: Binary, a: i32, b: i32) -> Option<i32>
    ensures { IfSome result (λ n. binary_of op (Int a) (Int b) ≡ Ok (Int n)) }
{
    match species_cint::binary(op, Value::Int(a), Value::Int(b)) {
        Err(_) => None,
        Ok(v) => int_of(v),
    }
}

#[inline(always)]
fn quick_binary(op: Binary, a: i32, b: i32) -> Option<i32>
    ensures { IfSome result (λ n. binary_of op (Int a) (Int b) ≡ Ok (Int n)) }
{
    match int_operator(op, a, b) {
        Some(n) => Some(n),
        None => other_binary(op, a, b),
    }
}

/// The value of an expression whose parts are all `int` and have values.
#[cycle(quick)]
fn quick(unit: &Unit, arrays: &Arrays, frame: &Frame, e: &Expr) -> Option<i32>
    ensures { IfSome result (λ n. value (source_context unit.now) e.now frame.now arrays.now ≡ Ok (Int n)) }
{
    match e {
        Expr::Literal(v) => int_of(*v),
        Expr::Iter(level) => Some(frame.iter(*level)),
        Expr::Local(local) => known_int(frame.local(*local)),
        Expr::Elem(array, subs) => {
            match quick_place(unit, arrays, frame, *array, subs.as_slice()) {
                None => None,
                Some(at) => int_of(arrays.cell(*array, at)),
            }
        }
        Expr::Binary(op, a, b) => match quick(unit, arrays, frame, a.get()) {
            None => None,
            Some(x) => match quick(unit, arrays, frame, b.get()) {
                None => None,
                Some(y) => quick_binary(*op, x, y),
            },
        },
        Expr::Unary(_, _) => None,
        Expr::And(_, _) => None,
        Expr::Or(_, _) => None,
        Expr::Cond(_, _, _) => None,
        Expr::Cast(_, _) => None,
    }
}

/// The value of a subscript.
#[cycle(quick)]
#[inline(always)]
fn index(unit: &Unit, arrays: &Arrays, frame: &Frame, e: &Expr) -> Option<i32>
    ensures { IfSome result (λ n. value (source_context unit.now) e.now frame.now arrays.now ≡ Ok (Int n)) }
{
    match near(frame, e) {
        Some(n) => Some(n),
        None => quick(unit, arrays, frame, e),
    }
}

/// The place of an element whose subscripts are all `int`, have values and lie in their dimensions.
#[cycle(quick)]
#[inline(always)]
fn quick_place(
    unit: &Unit,
    arrays: &Arrays,
    frame: &Frame,
    array: u32,
    subs: &[Expr],
) -> Option<u64>
    ensures { IfSome result (λ at. Found (Ok at) (target_of (source_context unit.now) array subs.now frame.now arrays.now)) }
{
    let mut sizes = sizes(unit, array);
    let mut place = Some(0);
    for e in subs {
        match index(unit, arrays, frame, e) {
            None => return None,
            Some(n) => {
                place = next(sizes, place, Value::Int(n));
                sizes = tail(sizes);
            }
        }
    }
    match finish(sizes, place) {
        Err(_) => None,
        Ok(at) => Some(at),
    }
}

/// The value of an expression, as `eval` has it.
#[inline(always)]
pub(crate) fn evaluate(unit: &Unit, arrays: &Arrays, frame: &Frame, e: &Expr) -> Result<Value, Trap>
    ensures { result ≡ value (source_context unit.now) e.now frame.now arrays.now }
{
    match quick(unit, arrays, frame, e) {
        Some(n) => Ok(Value::Int(n)),
        None => eval(unit, arrays, frame, e),
    }
}

/// The place in row order of an element, as `target` has it.
#[inline(always)]
pub(crate) fn locate(
    unit: &Unit,
    arrays: &Arrays,
    frame: &Frame,
    array: u32,
    subs: &[Expr],
) -> Result<u64, Trap>
    ensures { Found result (target_of (source_context unit.now) array subs.now frame.now arrays.now) }
{
    match quick_place(unit, arrays, frame, array, subs) {
        Some(at) => Ok(at),
        None => target(unit, arrays, frame, array, subs),
    }
}
