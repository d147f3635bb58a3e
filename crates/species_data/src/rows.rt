//! Rows of elements, as the lines of data say them.

ghost use Rattle.std.specs.Prelude.{◌≡◌, ◌+◌, ◌≤◌, ◌<◌, ℕ, [], length, get_or, false, Ok, Err, IfOk, OnOk};
ghost use Rattle.species_ast.specs.Evaluation.{product};
ghost use Rattle.species_ast.specs.Limits.{most_bytes};
ghost use Rattle.species_ast.specs.Run.{AreArraysOf};
ghost use Rattle.species_data.specs.Data.{values_of, given_row, none_yet, has_stood, row_read, line_read};
ghost use Rattle.species_data.specs.Seen.{seen};

use crate::element::element;
use crate::names::Names;
use crate::refusal::DataRefusal;
use crate::words::{Word, Words};
use species_ast::{Array, OutOfMemory, Unit};
use species_meaning::Arrays;
use std::alloc::Global;
use std::marker::Model;

/// The arrays, and for each whether its line stood there.
#[derive(Drop)]
pub(crate) struct Rows {
    arrays: Arrays,
    stood: Vec<bool>,
}

impl Model for Rows {
    ghost use Rattle.species_data.specs.Data.{Reading};

    ghost Value = { Reading };

    ghost view = { λ r. record { arrays = r.arrays; stood = r.stood.items } };
}

impl Rows {
    /// Zeros, before the first line.
    pub fn new(alloc: Global, unit: &Unit) -> Result<Rows, OutOfMemory>
        ensures none { IfOk result (λ rows. rows ≡ none_yet unit.now.arrays) }
        ensures arrays { IfOk result (λ rows. AreArraysOf unit.now.arrays rows.arrays) }
    {
        let arrays = Arrays::zeros(alloc, unit)?;
        let stood = Vec::from_elem(alloc, false, unit.arrays.as_slice().len())?;
        Ok(Rows { arrays, stood })
    }

    pub fn into_arrays(self) -> Arrays
        ensures { result ≡ self.arrays }
    {
        self.arrays
    }

    /// Reads a line, whose first byte has this place. Refused is the first word that is not as it has to be,
    /// or the end of a line with too few.
    pub fn read_line(&mut self, names: &Names, line: &[u8], place: u32) -> Result<(), DataRefusal>
        requires within { place + length line.now ≤ most_bytes }
        requires arrays { AreArraysOf names.now self.old.arrays }
        ensures ok { OnOk result (line_read names.now self.old (record { place = place; text = line.now }) ≡ Ok self.new) }
        ensures syntax { (p : ℕ) → result ≡ Err (DataRefusal.Syntax p) → line_read names.now self.old (record { place = place; text = line.now }) ≡ Err p }
        ensures arrays { OnOk result (AreArraysOf names.now self.new.arrays) }
    {
        let end = place + line.len() as u32;
        let mut words = Words::new(line, place);
        match words.next() {
            None => Ok(()),
            Some(name) => self.read_row(names, name, &mut words, end),
        }
    }

    /// Reads the line of the array of this name.
    fn read_row(
        &mut self,
        names: &Names,
        name: Word,
        words: &mut Words,
        end: u32,
    ) -> Result<(), DataRefusal>
        requires arrays { AreArraysOf names.now self.old.arrays }
        ensures ok { OnOk result (row_read names.now self.old (seen name.entry) words.old end ≡ Ok self.new) }
        ensures syntax { (p : ℕ) → result ≡ Err (DataRefusal.Syntax p) → row_read names.now self.old (seen name.entry) words.old end ≡ Err p }
        ensures arrays { OnOk result (AreArraysOf names.now self.new.arrays) }
    {
        let Some(number) = names.number(name.text) else {
            return Err(DataRefusal::Syntax(name.place));
        };
        let Some(array) = names.array(number) else {
            return Err(DataRefusal::Syntax(name.place));
        };
        if self.has_stood(number) {
            return Err(DataRefusal::Syntax(name.place));
        }
        fill(&mut self.arrays, number, array, words, end)?;
        self.stood[number as usize] = true;
        Ok(())
    }

    /// Whether the line of an array stood there.
    fn has_stood(&self, number: u32) -> bool
        ensures value { result ≡ has_stood self.now number }
        ensures within { result ≡ false → number < length self.now.stood }
    {
        let number = number as usize;
        if number < self.stood.len() {
            self.stood[number]
        } else {
            true
        }
    }
}

/// Sets the elements of an array to those that the words say.
fn fill(
    arrays: &mut Arrays,
    number: u32,
    array: &Array,
    words: &mut Words,
    end: u32,
) -> Result<(), DataRefusal>
    requires { length (get_or arrays.old number []) ≡ product array.now.dims }
    ensures ok { OnOk result (given_row arrays.old number (values_of array.now.kind end (product array.now.dims) words.old) ≡ Ok arrays.new) }
    ensures syntax { (p : ℕ) → result ≡ Err (DataRefusal.Syntax p) → given_row arrays.old number (values_of array.now.kind end (product array.now.dims) words.old) ≡ Err p }
{
    let size = size_of(array)?;
    let mut at = 0;
    while let Some(word) = words.next() {
        if at == size {
            return Err(DataRefusal::Syntax(word.place));
        }
        match element(array.kind, word.text) {
            None => return Err(DataRefusal::Syntax(word.place)),
            Some(value) => arrays.set(number, at, value),
        }
        at += 1;
    }
    if at < size {
        return Err(DataRefusal::Syntax(end));
    }
    Ok(())
}

/// How many elements an array has, where 32 bits hold the number.
pub(crate) fn size_of(array: &Array) -> Result<u32, OutOfMemory>
    ensures { IfOk result (λ n. n ≡ product array.now.dims) }
{
    let sizes = array.dims.as_slice();
    let mut count: u32 = 1;
    for size in sizes {
        match count.checked_mul(*size) {
            None => return Err(OutOfMemory),
            Some(more) => count = more,
        }
    }
    Ok(count)
}
