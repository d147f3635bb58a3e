//! Names, numbers and signs.
ghost use Rattle.std.specs.Prelude.{◌≡◌, ◌++◌, [], OnOk, OnErr, decimal, codes, slice_get, unwrap_or, option_map};
ghost use Rattle.std.specs.Fmt.{signed_decimal};
ghost use Rattle.species_print.specs.Printed.{text_of, spaced};
ghost use Rattle.species_print.specs.Expressions.{array_name, local_name, iter_name, kind_words, literal_printed};
ghost use Rattle.species_print.specs.Statements.{local_kind};

use itoa::{Buffer, Integer};
use species_ast::{Kind, Name, OutOfMemory, Unit, Value};

pub(crate) fn put(text: &[u8], out: &mut Vec<u8>) -> Result<(), OutOfMemory>
    ensures ok { OnOk result (out.new.items ≡ out.old.items ++ text.now) }
    ensures err { OnErr result (out.new.items ≡ out.old.items) }
{
    out.extend_from_slice(text)?;
    Ok(())
}

pub(crate) fn put_number(n: u64, out: &mut Vec<u8>) -> Result<(), OutOfMemory>
    ensures { OnOk result (out.new.items ≡ out.old.items ++ decimal n) }
{
    let mut buffer = Buffer::new();
    out.extend_from_slice(buffer.format(n).as_bytes())?;
    Ok(())
}

fn put_signed(n: i64, out: &mut Vec<u8>) -> Result<(), OutOfMemory>
    ensures { OnOk result (out.new.items ≡ out.old.items ++ signed_decimal n) }
{
    let mut buffer = Buffer::new();
    out.extend_from_slice(buffer.format(n).as_bytes())?;
    Ok(())
}

pub(crate) fn put_literal(value: Value, out: &mut Vec<u8>) -> Result<(), OutOfMemory>
    ensures { OnOk result (out.new.items ≡ out.old.items ++ text_of (literal_printed value)) }
{
    match value {
        Value::Int(n) => {
            put_signed(i64::from(n), out)?;
            Ok(())
        }
        Value::Unsigned(n) => {
            put_number(u64::from(n), out)?;
            put(b"u", out)?;
            Ok(())
        }
        Value::Long(n) => {
            put_signed(n, out)?;
            put(b"ll", out)?;
            Ok(())
        }
        Value::UnsignedLong(n) => {
            put_number(n, out)?;
            put(b"ull", out)?;
            Ok(())
        }
    }
}

/// The array's name, or nothing where the unit has no such array.
pub(crate) fn array_name(unit: &Unit, array: u32) -> &[u8]
    ensures { result.now ≡ array_name unit.now array }
{
    match unit.arrays.as_slice().get(array as usize) {
        Some(array) => array.name.as_slice(),
        None => &[],
    }
}

/// The local's name, or nothing where the unit has no such local.
pub(crate) fn local_name(unit: &Unit, local: u32) -> &[u8]
    ensures { result.now ≡ local_name unit.now local }
{
    match unit.locals.as_slice().get(local as usize) {
        Some(local) => local.name.as_slice(),
        None => &[],
    }
}

pub(crate) fn local_kind(unit: &Unit, local: u32) -> Kind
    ensures { result ≡ local_kind unit.now local }
{
    match unit.locals.as_slice().get(local as usize) {
        Some(local) => local.kind,
        None => Kind::Int,
    }
}

/// The name of the loop at this level, or nothing where there is none.
pub(crate) fn iter_name(iters: &[Name], level: u32) -> &[u8]
    ensures { result.now ≡ iter_name iters.now level }
{
    match iters.get(level as usize) {
        Some(name) => name.as_slice(),
        None => &[],
    }
}

pub(crate) fn kind_words(kind: Kind) -> &'static [u8]
    ensures { result.now ≡ text_of (kind_words kind) }
{
    match kind {
        Kind::Int => b"int",
        Kind::Unsigned => b"unsigned",
        Kind::Long => b"long long",
        Kind::UnsignedLong => b"unsigned long long",
    }
}

/// An operator with a space on each side.
pub(crate) fn put_spaced(sign: &[u8], out: &mut Vec<u8>) -> Result<(), OutOfMemory>
    ensures { OnOk result (out.new.items ≡ out.old.items ++ text_of (spaced sign.now)) }
{
    put(b" ", out)?;
    put(sign, out)?;
    put(b" ", out)?;
    Ok(())
}
