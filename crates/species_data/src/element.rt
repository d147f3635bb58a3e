//! An element of data, as a word.

ghost use Rattle.std.specs.Prelude.{◌≡◌, ◌++◌, ◌^◌, ◌<◌, Some, IfSome, OnOk};
ghost use Rattle.species_ast.specs.declared.tree.Value.{Value};
ghost use Rattle.species_runs.specs.Values.{IsOf};
ghost use Rattle.species_data.specs.Elements.{signed_of, element_of, value_text};

use itoa::Buffer;
use species_ast::{Kind, OutOfMemory, Value};
use species_decimal::read_decimal;

/// The value of a kind that the word writes.
pub(crate) fn element(kind: Kind, word: &[u8]) -> Option<Value>
    ensures value { result ≡ element_of kind word.now }

    // The same in the words of what a value is written as.
    ensures written { IfSome result (λ v. IsOf kind v × (word.now ≡ value_text v)) }
    ensures read { (v : Value) → IsOf kind v → word.now ≡ value_text v → result ≡ Some v }
{
    value_of(kind, word)
}

fn value_of(kind: Kind, word: &[u8]) -> Option<Value>
    ensures { result ≡ element_of kind word.now }
{
    match kind {
        Kind::Int => match signed(word, 2_147_483_647) {
            Some(number) => Some(Value::Int(number as i32)),
            None => None,
        },
        Kind::Unsigned => match read_decimal(word, 4_294_967_295) {
            Some(number) => Some(Value::Unsigned(number as u32)),
            None => None,
        },
        Kind::Long => match signed(word, 9_223_372_036_854_775_807) {
            Some(number) => Some(Value::Long(number)),
            None => None,
        },
        Kind::UnsignedLong => match read_decimal(word, 18_446_744_073_709_551_615) {
            Some(number) => Some(Value::UnsignedLong(number)),
            None => None,
        },
    }
}

/// The number that the word writes, from `-most - 1` to `most`.
fn signed(word: &[u8], most: u64) -> Option<i64>
    requires { most < 2 ^ 63 }
    ensures { result ≡ signed_of most word.now }
{
    let Some((first, digits)) = word.split_first() else {
        return None;
    };
    if *first == b'-' {
        match read_decimal(digits, most + 1) {
            Some(0) => None,
            Some(size) => Some(-1 - (size - 1) as i64),
            None => None,
        }
    } else {
        match read_decimal(word, most) {
            Some(size) => Some(size as i64),
            None => None,
        }
    }
}

pub(crate) fn put_value(value: Value, text: &mut Vec<u8>) -> Result<(), OutOfMemory>
    ensures { OnOk result (text.new.items ≡ text.old.items ++ value_text value) }
{
    let mut buffer = Buffer::new();
    match value {
        Value::Int(n) => text.extend_from_slice(buffer.format(n).as_bytes())?,
        Value::Unsigned(n) => text.extend_from_slice(buffer.format(n).as_bytes())?,
        Value::Long(n) => text.extend_from_slice(buffer.format(n).as_bytes())?,
        Value::UnsignedLong(n) => text.extend_from_slice(buffer.format(n).as_bytes())?,
    }
    Ok(())
}
