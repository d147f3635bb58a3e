//! The place of an element in row order, from its indices.
ghost use Rattle.std.specs.Prelude.{◌≡◌, ℕ, Option, option_map, [], pos};
ghost use Rattle.species_ast.specs.Operators.{number_of};
ghost use Rattle.species_ast.specs.Evaluation.{indices_in, sizes_of};
ghost use Rattle.species_ast.specs.Evaluation as evaluation;
ghost use Rattle.species_ast.specs.Run.{source_context};
ghost use Rattle.bones_meaning.specs.Tapes.{came};
ghost use Rattle.bones_meaning.specs.Places.{found_in, next_in, tail_of, capped};

use crate::tape::{Halt, Tape};
use species_ast::{Unit, Value};

/// The sizes of an array; what is no array has no element.
pub(crate) fn sizes(unit: &Unit, array: u32) -> &[u32]
    ensures { result.now ≡ sizes_of (source_context unit.now) array }
{
    match unit.arrays.get(array as usize) {
        Some(array) => array.dims.as_slice(),
        None => &[0],
    }
}

/// The place with one index more, or None where an index lies outside its dimension.
pub(crate) fn next(sizes: &[u32], place: Option<u32>, v: Value) -> Option<u32>
    ensures { (o : Option ℕ) → place ≡ option_map capped o → result ≡ option_map capped (next_in sizes.now o v) }
{
    match sizes {
        [] => None,
        [size, ..] => match place {
            None => None,
            Some(at) => match index_in(*size, v) {
                None => None,
                Some(i) => Some(at.saturating_mul(*size).saturating_add(i)),
            },
        },
    }
}

/// A subscript as an index of a dimension of this size.
fn index_in(size: u32, v: Value) -> Option<u32>
    ensures { result ≡ evaluation.index_in size (number_of v) }
{
    match v {
        Value::Int(n) => signed_index(size, i64::from(n)),
        Value::Unsigned(n) => natural_index(size, u64::from(n)),
        Value::Long(n) => signed_index(size, n),
        Value::UnsignedLong(n) => natural_index(size, n),
    }
}

fn signed_index(size: u32, n: i64) -> Option<u32>
    ensures { result ≡ evaluation.index_in size n }
{
    if 0 <= n && n < i64::from(size) {
        Some(n as u32)
    } else {
        None
    }
}

fn natural_index(size: u32, n: u64) -> Option<u32>
    ensures { result ≡ evaluation.index_in size (pos n) }
{
    if n < u64::from(size) {
        Some(n as u32)
    } else {
        None
    }
}

/// The sizes of the other dimensions.
pub(crate) fn tail(sizes: &[u32]) -> &[u32]
    ensures { result.now ≡ tail_of sizes.now }
{
    match sizes {
        [] => sizes,
        [_, rest @ ..] => rest,
    }
}

/// The place that was found, once each dimension has its index.
pub(crate) fn finish(sizes: &[u32], place: Option<u32>, tape: &Tape<'_>) -> Result<u32, Halt>
    ensures { (o : Option ℕ) → place ≡ option_map capped o → came result tape.now ≡ found_in sizes.now o (indices_in sizes.now []) tape.now }
{
    match sizes {
        [] => match place {
            None => Err(tape.fault()),
            Some(at) => Ok(at),
        },
        _ => Err(tape.fault()),
    }
}
