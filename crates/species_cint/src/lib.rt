//! C's operators on the integer kinds, over machine words (C17 6.3.1 and 6.5).
//!
//! Each function gives exactly what the definitions of the operators over whole numbers give; none takes memory.
//! An operator works on the numbers of the kind to which both sides are converted, in words wide enough for its exact
//! result. What differs between the kinds is their width and whether they are signed, and stands in the first functions.
#![tactic(auto)]

ghost use Rattle.std.specs.Prelude.{◌≡◌, true, unsigned_abs, ◌+ℤ◌, ◌-ℤ◌, ◌*ℤ◌, ◌^◌, ◌-◌, ◌<◌, ◌≤ℤ◌, ◌<ℤ◌, pos, neg_ℤ};
ghost use Rattle.species_ast.specs.Operators.{bits_of, is_signed, order_of, kind_of, number_of, in_kind, converted, exact_in, left_by, right_by, binary_of, unary_of};
ghost use Rattle.species_ast.specs.Operators as operators;
ghost use Rattle.species_ast.specs.Accesses as accesses;
ghost use Rattle.species_ast.specs.declared.tree.Kind.TheVariants as kind;
ghost use Rattle.species_cint.specs.Ranges.{IsNumber, IsRightSide};

pub use species_ast::Undefined;
use species_ast::{Binary, Kind, Unary, Value};

/// A word that holds each number of each kind, and the exact sum, difference and quotient of two.
type Word = i128;

/// The unsigned word of the same width, in which products wrap.
type Bits = u128;

fn bits(kind: Kind) -> u32
    ensures { result ≡ bits_of kind }
{
    match kind {
        Kind::Int | Kind::Unsigned => 32,
        Kind::Long | Kind::UnsignedLong => 64,
    }
}

fn signed(kind: Kind) -> bool
    ensures { result ≡ is_signed kind }
{
    match kind {
        Kind::Int | Kind::Long => true,
        Kind::Unsigned | Kind::UnsignedLong => false,
    }
}

/// The kind of a value.
pub fn kind_of(v: Value) -> Kind
    ensures { result ≡ kind_of v }
{
    match v {
        Value::Int(_) => Kind::Int,
        Value::Unsigned(_) => Kind::Unsigned,
        Value::Long(_) => Kind::Long,
        Value::UnsignedLong(_) => Kind::UnsignedLong,
    }
}

/// The number that a value stands for.
pub fn number(v: Value) -> i128
    ensures number { result ≡ number_of v }
    ensures range { IsNumber (kind_of v) result }
{
    match v {
        Value::Int(n) => i128::from(n),
        Value::Unsigned(n) => i128::from(n),
        Value::Long(n) => i128::from(n),
        Value::UnsignedLong(n) => i128::from(n),
    }
}

/// The value of a kind with this number.
fn value(kind: Kind, n: Word) -> Value
    requires { IsNumber kind n }
    ensures { result ≡ in_kind kind n }
{
    match kind {
        Kind::Int => Value::Int(n as i32),
        Kind::Unsigned => Value::Unsigned(n as u32),
        Kind::Long => Value::Long(n as i64),
        Kind::UnsignedLong => Value::UnsignedLong(n as u64),
    }
}

/// 2 to the power of the width.
fn modulus(kind: Kind) -> Word
    ensures { result ≡ pos (2 ^ bits_of kind) }
{
    1 << bits(kind)
}

/// Whether a kind has this number.
fn has(kind: Kind, n: Word) -> bool
    ensures { result ≡ true → IsNumber kind n }
{
    match kind {
        Kind::Int => Word::from(i32::MIN) <= n && n <= Word::from(i32::MAX),
        Kind::Unsigned => 0 <= n && n <= Word::from(u32::MAX),
        Kind::Long => Word::from(i64::MIN) <= n && n <= Word::from(i64::MAX),
        Kind::UnsignedLong => 0 <= n && n <= Word::from(u64::MAX),
    }
}

/// The number of the kind that is equal to `n` modulo 2 to the power of the width. Most numbers
/// have the kind already, and a division of words takes long.
#[tactic(auto, using(crate::proofs::Words::reduced_same))]
fn reduced(kind: Kind, n: Word) -> Word
    ensures number { result ≡ operators.reduced kind n }
    ensures range { IsNumber kind result }
{
    if has(kind, n) { n } else { wrapped(kind, n) }
}

fn wrapped(kind: Kind, n: Word) -> Word
    ensures number { result ≡ operators.reduced kind n }
    ensures range { IsNumber kind result }
{
    let modulus = modulus(kind);
    let rest = n.rem_euclid(modulus);
    if signed(kind) && rest >= modulus / 2 {
        rest - modulus
    } else {
        rest
    }
}

/// A value converted to a kind: the value of the kind whose number is equal modulo 2 to the power
/// of the width.
pub fn convert(v: Value, kind: Kind) -> Value
    ensures { result ≡ converted kind v }
{
    value(kind, reduced(kind, number(v)))
}

/// What an operator gives whose exact result is `n`: in a signed kind `n` or Overflow, in an
/// unsigned one `n` modulo 2 to the power of the width.
fn exact(kind: Kind, n: Word) -> Result<Value, Undefined>
    ensures { result ≡ exact_in kind n }
{
    let half = modulus(kind) / 2;
    if !signed(kind) {
        Ok(value(kind, reduced(kind, n)))
    } else if -half <= n && n < half {
        Ok(value(kind, n))
    } else {
        Err(Undefined::Overflow)
    }
}

/// An element's value after an atomic addition: of the element's kind, and equal to the sum modulo 2
/// to the power of the width.
pub fn added(v: Value, old: Value) -> Value
    ensures { result ≡ accesses.added v old }
{
    let kind = kind_of(old);
    value(kind, reduced(kind, number(old) + number(v)))
}

/// Int 1 or 0.
fn truth(b: bool) -> Value
    ensures { result ≡ operators.truth b }
{
    Value::Int(i32::from(b))
}

fn sum(kind: Kind, a: Word, b: Word) -> Result<Value, Undefined>
    requires left { IsNumber kind a }
    requires right { IsNumber kind b }
    ensures { result ≡ exact_in kind (a +ℤ b) }
{
    exact(kind, a + b)
}

fn difference(kind: Kind, a: Word, b: Word) -> Result<Value, Undefined>
    requires left { IsNumber kind a }
    requires right { IsNumber kind b }
    ensures { result ≡ exact_in kind (a -ℤ b) }
{
    exact(kind, a - b)
}

fn product(kind: Kind, a: Word, b: Word) -> Result<Value, Undefined>
    requires left { IsNumber kind a }
    requires right { IsNumber kind b }
    ensures { result ≡ exact_in kind (a *ℤ b) }
{
    if signed(kind) {
        exact(kind, a * b)
    } else {
        let low = (a as Bits).wrapping_mul(b as Bits) % (modulus(kind) as Bits);
        Ok(value(kind, low as Word))
    }
}

/// `a / b`, toward 0.
fn quotient(kind: Kind, a: Word, b: Word) -> Result<Value, Undefined>
    requires left { IsNumber kind a }
    requires right { IsNumber kind b }
    ensures { result ≡ operators.quotient kind a b }
{
    if b == 0 {
        Err(Undefined::DivZero)
    } else {
        exact(kind, a / b)
    }
}

/// `a % b`, which has the sign of `a`; there is none where `a / b` has no value.
fn remainder(kind: Kind, a: Word, b: Word) -> Result<Value, Undefined>
    requires left { IsNumber kind a }
    requires right { IsNumber kind b }
    ensures { result ≡ operators.remainder kind a b }
{
    let _quotient = quotient(kind, a, b)?;
    Ok(value(kind, a % b))
}

/// Whether a value of the kind may be shifted by `n`.
fn is_count(kind: Kind, n: Word) -> bool
    ensures value { result ≡ operators.is_count (bits_of kind) n }
{
    0 <= n && n < Word::from(bits(kind))
}

/// `a << n`, for a number that is not negative and a count.
fn scaled(kind: Kind, a: Word, n: Word) -> Result<Value, Undefined>
    requires left { IsNumber kind a }
    requires natural { pos 0 ≤ℤ a }
    requires count { operators.is_count (bits_of kind) n ≡ true }
    ensures { result ≡ exact_in kind (a *ℤ pos (2 ^ unsigned_abs n)) }
{
    exact(kind, a << n)
}

fn shifted_left(kind: Kind, a: Word, n: Word) -> Result<Value, Undefined>
    requires left { IsNumber kind a }
    ensures { result ≡ left_by (operators.is_count (bits_of kind) n) kind a (unsigned_abs n) }
{
    if !is_count(kind, n) || a < 0 {
        Err(Undefined::BadShift)
    } else {
        scaled(kind, a, n)
    }
}

fn shifted_right(kind: Kind, a: Word, n: Word) -> Result<Value, Undefined>
    requires left { IsNumber kind a }
    ensures { result ≡ right_by (operators.is_count (bits_of kind) n) kind a (unsigned_abs n) }
{
    if is_count(kind, n) {
        Ok(value(kind, a >> n))
    } else {
        Err(Undefined::BadShift)
    }
}

/// The bits of a number in a kind's width, in two's complement.
fn bits_in(kind: Kind, n: Word) -> Word
    requires { IsNumber kind n }
    ensures { result ≡ pos (operators.bits_in kind n) }
{
    n.rem_euclid(modulus(kind))
}

/// The value of a kind that has these bits.
fn from_bits(kind: Kind, bits: Word) -> Value
    requires { pos 0 ≤ℤ bits }
    ensures { result ≡ operators.from_bits kind (unsigned_abs bits) }
{
    value(kind, reduced(kind, bits))
}

/// The place of a kind in the order Int, Unsigned, Long, UnsignedLong.
fn order(kind: Kind) -> u32
    ensures { result ≡ order_of kind }
{
    match kind {
        Kind::Int => 0,
        Kind::Unsigned => 1,
        Kind::Long => 2,
        Kind::UnsignedLong => 3,
    }
}

fn negation(kind: Kind, n: Word) -> Result<Value, Undefined>
    requires { IsNumber kind n }
    ensures { result ≡ exact_in kind (neg_ℤ n) }
{
    exact(kind, -n)
}

/// The value with the other bits.
fn complement(kind: Kind, n: Word) -> Value
    requires { IsNumber kind n }
    ensures { result ≡ operators.from_bits kind (2 ^ bits_of kind - 1 - operators.bits_in kind n) }
{
    from_bits(kind, modulus(kind) - 1 - bits_in(kind, n))
}

/// The kind to which the two sides of an operator are converted: the later of theirs in the order.
pub fn joint(a: Kind, b: Kind) -> Kind
    ensures { result ≡ operators.joint a b }
{
    if order(a) < order(b) { b } else { a }
}

/// Whether the operator is `<<` or `>>`.
pub fn is_shift(op: Binary) -> bool
    ensures { result ≡ operators.is_shift op }
{
    matches!(op, Binary::Shl | Binary::Shr)
}

/// The table of the binary operators, in the kind where they work.
fn binary_in(kind: Kind, op: Binary, a: Word, b: Word) -> Result<Value, Undefined>
    requires left { IsNumber kind a }
    requires right { IsRightSide kind op b }
    ensures { result ≡ operators.binary_in kind op a b }
{
    match op {
        Binary::Mul => product(kind, a, b),
        Binary::Div => quotient(kind, a, b),
        Binary::Rem => remainder(kind, a, b),
        Binary::Add => sum(kind, a, b),
        Binary::Sub => difference(kind, a, b),
        Binary::Shl => shifted_left(kind, a, b),
        Binary::Shr => shifted_right(kind, a, b),
        Binary::Lt => Ok(truth(a < b)),
        Binary::Le => Ok(truth(a <= b)),
        Binary::Gt => Ok(truth(a > b)),
        Binary::Ge => Ok(truth(a >= b)),
        Binary::Eq => Ok(truth(a == b)),
        Binary::Ne => Ok(truth(a != b)),
        Binary::BitAnd => Ok(from_bits(kind, bits_in(kind, a) & bits_in(kind, b))),
        Binary::BitXor => Ok(from_bits(kind, bits_in(kind, a) ^ bits_in(kind, b))),
        Binary::BitOr => Ok(from_bits(kind, bits_in(kind, a) | bits_in(kind, b))),
    }
}

/// What an operator gives in `int` whose exact result is `n`.
fn int_exact(n: i64) -> Result<Value, Undefined>
    ensures { result ≡ exact_in kind.Int n }
{
    if i64::from(i32::MIN) <= n && n <= i64::from(i32::MAX) {
        Ok(Value::Int(n as i32))
    } else {
        Err(Undefined::Overflow)
    }
}

/// The table of the binary operators in `int`, where most kernels compute, in narrower words.
fn int_binary(op: Binary, a: i32, b: i32) -> Result<Value, Undefined>
    ensures { result ≡ operators.binary_in kind.Int op a b }
{
    match op {
        Binary::Mul => int_exact(i64::from(a) * i64::from(b)),
        Binary::Add => int_exact(i64::from(a) + i64::from(b)),
        Binary::Sub => int_exact(i64::from(a) - i64::from(b)),
        Binary::Lt => Ok(truth(a < b)),
        Binary::Le => Ok(truth(a <= b)),
        Binary::Gt => Ok(truth(a > b)),
        Binary::Ge => Ok(truth(a >= b)),
        Binary::Eq => Ok(truth(a == b)),
        Binary::Ne => Ok(truth(a != b)),
        _ => binary_in(Kind::Int, op, Word::from(a), Word::from(b)),
    }
}

/// The value of a binary operator, or why it has none. A shift works in the kind of its left side;
/// for another operator both sides are converted to the later of their kinds.
pub fn binary(op: Binary, a: Value, b: Value) -> Result<Value, Undefined>
    ensures { result ≡ binary_of op a b }
{
    match a {
        Value::Int(x) => match b {
            Value::Int(y) => int_binary(op, x, y),
            Value::Unsigned(_) => converted_binary(op, a, b),
            Value::Long(_) => converted_binary(op, a, b),
            Value::UnsignedLong(_) => converted_binary(op, a, b),
        },
        Value::Unsigned(_) => converted_binary(op, a, b),
        Value::Long(_) => converted_binary(op, a, b),
        Value::UnsignedLong(_) => converted_binary(op, a, b),
    }
}

fn converted_binary(op: Binary, a: Value, b: Value) -> Result<Value, Undefined>
    ensures { result ≡ binary_of op a b }
{
    if is_shift(op) {
        binary_in(kind_of(a), op, number(a), number(b))
    } else {
        let kind = joint(kind_of(a), kind_of(b));
        binary_in(kind, op, reduced(kind, number(a)), reduced(kind, number(b)))
    }
}

/// The value of a unary operator, or Overflow.
pub fn unary(op: Unary, v: Value) -> Result<Value, Undefined>
    ensures { result ≡ unary_of op v }
{
    let kind = kind_of(v);
    let n = number(v);
    match op {
        Unary::Neg => negation(kind, n),
        Unary::Not => Ok(complement(kind, n)),
        Unary::LogNot => Ok(truth(n == 0)),
    }
}

#[cfg(test)]
mod tests;
