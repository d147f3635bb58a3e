//! Numbers: how far one goes, and its value.
ghost use Rattle.std.specs.Prelude.{◌≡◌, ◌≤◌, ◌<◌, ◌^◌, ℕ, length, drop, nat_le, Option, Some, None, if◌then◌else◌};
ghost use Rattle.std.specs.Char.{digit_value};
ghost use Rattle.std.specs.Str.Parse.{digits_value};
ghost use Rattle.species_ast.specs.Text.Characters.{is_digit, is_hex_digit, run_of};
ghost use Rattle.species_ast.specs.Text.Numbers.{goes_on, run_more, asked_kind, literal_in, unsigned_of, hex_literal, is_decimal, decimal_value, hex_value, literal_of};

use crate::slices::{behind, front};
use species_ast::{Kind, Value, is_digit, is_one_of, is_word_byte};

const UNSIGNED_SUFFIXES: [&str; 2] = ["u", "U"];

const LONG_SUFFIXES: [&str; 2] = ["ll", "LL"];

const UNSIGNED_LONG_SUFFIXES: [&str; 8] = ["ull", "uLL", "Ull", "ULL", "llu", "llU", "LLu", "LLU"];

/// Whether a number that has come to `last` goes on with `next`: a sign goes on only directly behind
/// the letter of an exponent.
fn goes_on(last: u8, next: u8) -> bool
    ensures { result ≡ goes_on last next }
{
    is_word_byte(next)
        || next == b'.'
        || ((next == b'+' || next == b'-')
            && (last == b'e' || last == b'E' || last == b'p' || last == b'P'))
}

/// How many bytes a number goes on for behind its byte `last`.
pub(crate) fn run_more(last: u8, bytes: &[u8]) -> usize
    ensures value { result ≡ run_more last bytes.now }
    ensures within { result ≤ length bytes.now }
{
    let mut before = last;
    for n in 0..bytes.len() {
        if !goes_on(before, bytes[n]) {
            return n;
        }
        before = bytes[n];
    }
    bytes.len()
}

fn digit_value(b: u8) -> u128
    ensures value { result ≡ digit_value b }
    ensures small { result ≤ 36 }
{
    if b < b'0' {
        36
    } else if b <= b'9' {
        b as u128 - 48
    } else if b < b'A' {
        36
    } else if b <= b'Z' {
        b as u128 - 55
    } else if b < b'a' {
        36
    } else if b <= b'z' {
        b as u128 - 87
    } else {
        36
    }
}

/// The number that the digits write, unless it is too large for 64 bits.
fn number(radix: u128, digits: &[u8]) -> Option<u64>
    requires some { 1 ≤ radix }
    requires few { radix ≤ 16 }
    ensures { result ≡ (if nat_le (digits_value radix digits.now) 18446744073709551615 then Some (digits_value radix digits.now) else None) }
{
    let mut n: u128 = 0;
    for digit in digits {
        n = n * radix + digit_value(*digit);
        if n > 18446744073709551615 {
            return None;
        }
    }
    Some(n as u64)
}

/// The kind that a literal asks for by what stands behind its digits.
fn asked_kind(suffix: &[u8]) -> Option<Kind>
    ensures { result ≡ asked_kind suffix.now }
{
    if suffix.is_empty() {
        Some(Kind::Int)
    } else if is_one_of(&UNSIGNED_SUFFIXES, suffix) {
        Some(Kind::Unsigned)
    } else if is_one_of(&LONG_SUFFIXES, suffix) {
        Some(Kind::Long)
    } else if is_one_of(&UNSIGNED_LONG_SUFFIXES, suffix) {
        Some(Kind::UnsignedLong)
    } else {
        None
    }
}

fn unsigned_of(kind: Kind) -> Kind
    ensures { result ≡ unsigned_of kind }
{
    match kind {
        Kind::Int | Kind::Unsigned => Kind::Unsigned,
        Kind::Long | Kind::UnsignedLong => Kind::UnsignedLong,
    }
}

/// A literal of this number, if its kind has it.
fn literal_in(kind: Kind, n: u64) -> Option<Value>
    ensures { result ≡ literal_in kind n }
{
    match kind {
        Kind::Int if n <= 2147483647 => Some(Value::Int(n as i32)),
        Kind::Unsigned if n <= 4294967295 => Some(Value::Unsigned(n as u32)),
        Kind::Long if n <= 9223372036854775807 => Some(Value::Long(n as i64)),
        Kind::UnsignedLong => Some(Value::UnsignedLong(n)),
        _ => None,
    }
}

#[tactic(auto, using(crate::proofs::Digits::none_above))]
fn decimal_literal(kind: Kind, digits: &[u8]) -> Option<Value>
    ensures { result ≡ literal_in kind (digits_value 10 digits.now) }
{
    match number(10, digits) {
        Some(n) => literal_in(kind, n),
        None => None,
    }
}

/// A hexadecimal literal: unsigned where it is too large for the kind that it asks for.
#[tactic(auto, using(crate::proofs::Digits::none_above))]
fn hex_literal(kind: Kind, digits: &[u8]) -> Option<Value>
    ensures { result ≡ hex_literal kind (digits_value 16 digits.now) }
{
    match number(16, digits) {
        Some(n) => match literal_in(kind, n) {
            Some(value) => Some(value),
            None => literal_in(unsigned_of(kind), n),
        },
        None => None,
    }
}

fn digits_len(bytes: &[u8]) -> usize
    ensures { result ≡ run_of is_digit bytes.now }
{
    bytes.iter().take_while(|b| is_digit(**b)).count()
}

fn hex_digits_len(bytes: &[u8]) -> usize
    ensures { result ≡ run_of is_hex_digit bytes.now }
{
    bytes.iter().take_while(|b| b.is_ascii_hexdigit()).count()
}

fn is_decimal(digits: &[u8]) -> bool
    ensures { result ≡ is_decimal digits.now }
{
    if digits.is_empty() {
        false
    } else if digits.len() == 1 {
        true
    } else {
        !digits.starts_with(b"0")
    }
}

fn decimal_value(digits: &[u8], suffix: &[u8]) -> Option<Value>
    ensures { result ≡ decimal_value digits.now suffix.now }
{
    if !is_decimal(digits) {
        return None;
    }
    match asked_kind(suffix) {
        Some(kind) => decimal_literal(kind, digits),
        None => None,
    }
}

fn hex_value(digits: &[u8], suffix: &[u8]) -> Option<Value>
    ensures { result ≡ hex_value digits.now suffix.now }
{
    if digits.is_empty() {
        return None;
    }
    match asked_kind(suffix) {
        Some(kind) => hex_literal(kind, digits),
        None => None,
    }
}

/// The value of a number, if it is a literal of the language.
#[tactic(auto, unfolding(species_ast::specs::Text::Numbers::literal_of))]
pub(crate) fn literal(run: &[u8]) -> Option<Value>
    ensures { result ≡ literal_of run.now }
{
    if run.starts_with(b"0x") || run.starts_with(b"0X") {
        let digits = behind(run, 2);
        let n = hex_digits_len(digits);
        hex_value(front(digits, n), behind(digits, n))
    } else {
        let n = digits_len(run);
        decimal_value(front(run, n), behind(run, n))
    }
}
