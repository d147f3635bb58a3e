//! The data of arrays as it is read.

ghost use Rattle.std.specs.Prelude.{◌≡◌, ◌+◌, ◌≤◌, ℕ, length, Ok, Err, IfOk};
ghost use Rattle.species_ast.specs.Limits.{most_bytes};
ghost use Rattle.species_ast.specs.Run.{AreArraysOf};
ghost use Rattle.species_data.specs.Data.{data_at};

use crate::names::Names;
use crate::refusal::DataRefusal;
use crate::rows::Rows;
use crate::words::line_len;
use species_ast::Unit;
use species_meaning::Arrays;
use std::alloc::Global;

/// The arrays of a program that the text says, which stands at the place `base` of the input. Arrays that
/// have no line are zeros.
pub fn read_data(alloc: Global, unit: &Unit, text: &[u8], base: u32) -> Result<Arrays, DataRefusal>
    requires { base + length text.now ≤ most_bytes }
    ensures data { IfOk result (λ m. data_at unit.now.arrays base text.now ≡ Ok m) }
    ensures syntax { (place : ℕ) → result ≡ Err (DataRefusal.Syntax place) → data_at unit.now.arrays base text.now ≡ Err place }
    ensures arrays { IfOk result (λ m. AreArraysOf unit.now.arrays m) }
{
    let mut rows = Rows::new(alloc, unit)?;
    let names = Names::new(alloc, unit)?;
    let mut at = 0;
    while at < text.len() {
        let len = line_len(&text[at..]);
        rows.read_line(&names, &text[at..at + len], base + at as u32)?;
        at += len + 1;
    }
    Ok(rows.into_arrays())
}
