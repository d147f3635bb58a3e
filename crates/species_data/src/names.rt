//! The arrays of a program by name.

ghost use Rattle.std.specs.Prelude.{◌≡◌, length, slice_get, None, Some, IfOk, MatchOption};
ghost use Rattle.species_data.specs.Data.{number_named};

use indexmap::IndexMap;
use species_ast::{Array, OutOfMemory, Unit};
use std::alloc::Global;
use std::marker::Model;

/// The arrays of a program, with the number of each name.
#[derive(Drop)]
pub(crate) struct Names<'a> {
    arrays: &'a [Array],
    numbers: IndexMap<&'a [u8], u32>,
}

impl<'a> Model for Names<'a> {
    ghost use Rattle.std.specs.Prelude.{List};
    ghost use Rattle.species_ast.specs.declared.tree.Array.{Array};
    ghost use Rattle.species_data.specs.Table.{Numbers};

    ghost Value = { List Array };

    ghost view = { λ n. n.arrays.now };

    ghost invariant = { λ n. Numbers n.arrays.now n.numbers };
}

impl<'a> Names<'a> {
    pub fn new(alloc: Global, unit: &'a Unit) -> Result<Names<'a>, OutOfMemory>
        ensures { IfOk result (λ names. names ≡ unit.now.arrays) }
    {
        let arrays = unit.arrays.as_slice();
        let mut numbers = IndexMap::new(alloc);
        let mut number = count(arrays)?;
        while number > 0 {
            number -= 1;
            numbers.insert(arrays[number as usize].name.as_slice(), number)?;
        }
        Ok(Names { arrays, numbers })
    }

    /// The number of the first array of this name.
    pub fn number(&self, name: &[u8]) -> Option<u32>
        ensures { result ≡ number_named self.now name.now }
    {
        self.numbers.get(name).copied()
    }

    pub fn array(&self, number: u32) -> Option<&'a Array>
        ensures { MatchOption result (slice_get self.now number ≡ None) (λ a. slice_get self.now number ≡ Some a.now) }
    {
        self.arrays.get(number as usize)
    }
}

/// How many arrays there are, where 32 bits hold the number.
pub(crate) fn count(arrays: &[Array]) -> Result<u32, OutOfMemory>
    ensures { IfOk result (λ n. n ≡ length arrays.now) }
{
    match u32::try_from(arrays.len()) {
        Ok(count) => Ok(count),
        Err(_) => Err(OutOfMemory),
    }
}
