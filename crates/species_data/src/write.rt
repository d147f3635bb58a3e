//! The data of arrays as it is written.

ghost use Rattle.std.specs.Prelude.{◌≡◌, ◌++◌, Ok, IfOk, OnOk, length, get_or, []};
ghost use Rattle.species_ast.specs.Accesses.{cell};
ghost use Rattle.species_ast.specs.Evaluation.{product};
ghost use Rattle.species_ast.specs.Run.{AreArraysOf};
ghost use Rattle.species_meaning.specs.Effects.{element};
ghost use Rattle.species_data.specs.Data.{data_at};
ghost use Rattle.species_data.specs.Text.{HaveNames, spaced, row_text, data_text};

use crate::element::put_value;
use crate::names::count;
use crate::rows::size_of;
use species_ast::{Array, OutOfMemory, Unit};
use species_meaning::Arrays;
use std::alloc::Global;

/// The text of the arrays of a program: one line for each.
pub fn write_data(alloc: Global, unit: &Unit, arrays: &Arrays) -> Result<Vec<u8>, OutOfMemory>
    ensures text { AreArraysOf unit.now.arrays arrays.now → IfOk result (λ v. v.items ≡ data_text unit.now.arrays arrays.now) }

    // What is written is read back.
    ensures read_back { AreArraysOf unit.now.arrays arrays.now → HaveNames unit.now.arrays
        → IfOk result (λ v. data_at unit.now.arrays 0 v.items ≡ Ok arrays.now) }
{
    let declared = unit.arrays.as_slice();
    let mut text = Vec::new(alloc);
    for number in 0..count(declared)? {
        put_row(&declared[number as usize], arrays, number, &mut text)?;
    }
    Ok(text)
}

/// The line of one array.
fn put_row(
    array: &Array,
    arrays: &Arrays,
    number: u32,
    text: &mut Vec<u8>,
) -> Result<(), OutOfMemory>
    ensures { length (get_or arrays.now number []) ≡ product array.now.dims
        → OnOk result (text.new.items ≡ text.old.items ++ row_text array.now.name (get_or arrays.now number [])) }
{
    text.extend_from_slice(array.name.as_slice())?;
    for at in 0..size_of(array)? {
        put_element(arrays, number, at, text)?;
    }
    text.push(b'\n')?;
    Ok(())
}

/// An element behind a space.
fn put_element(arrays: &Arrays, number: u32, at: u32, text: &mut Vec<u8>) -> Result<(), OutOfMemory>
    ensures { OnOk result (text.new.items ≡ text.old.items ++ spaced (cell arrays.now (element number at))) }
{
    text.push(b' ')?;
    put_value(arrays.get(number, at), text)
}
