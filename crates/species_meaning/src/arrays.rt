//! The arrays of a program: for each the values of its elements in row order.
ghost use Rattle.std.specs.Prelude.{◌≡◌, IfOk, IfSome, ℕ, replicate, pos};
ghost use Rattle.species_ast.specs.Operators.{in_kind};
ghost use Rattle.species_ast.specs.Evaluation.{product};
ghost use Rattle.species_ast.specs.Run.{zeros_of, AreArraysOf};
ghost use Rattle.species_ast.specs.Accesses.{cell, changed, added};
ghost use Rattle.species_meaning.specs.Effects.{element};
ghost use Rattle.species_meaning.specs.Places.{capped};

use species_ast::{Array, Kind, OutOfMemory, Unit, Value};
use species_cint::added;
use std::alloc::Global;
use std::marker::Model;

/// Arrays of a program. Contracts see one list of values for each array.
#[derive(Drop)]
pub struct Arrays {
    rows: Vec<Vec<Value>>,
}

impl Model for Arrays {
    ghost use Rattle.std.specs.Prelude.{map};
    ghost use Rattle.species_ast.specs.Accesses.{Cells};

    ghost Value = { Cells };

    ghost view = { λ a. map (λ r. r.items) a.rows.items };
}

impl Arrays {
    /// All elements 0.
    pub fn zeros(alloc: Global, unit: &Unit) -> Result<Arrays, OutOfMemory>
        ensures zeros { IfOk result (λ m. m ≡ zeros_of unit.now.arrays) }
        ensures arrays { IfOk result (λ m. AreArraysOf unit.now.arrays m) }
    {
        let mut rows = Vec::new(alloc);
        for array in unit.arrays.as_slice() {
            rows.push(row_of(alloc, array)?)?;
        }
        Ok(Arrays { rows })
    }

    /// The value of an element; 0 where there is no such element.
    pub fn get(&self, array: u32, at: u32) -> Value
        ensures { result ≡ cell self.now (element array at) }
    {
        self.cell(array, u64::from(at))
    }

    /// Sets an element, where there is such an element.
    pub fn set(&mut self, array: u32, at: u32, value: Value)
        ensures { self.new ≡ changed self.old (element array at) (λ c. value) }
    {
        self.put(array, u64::from(at), value);
    }

    /// Arrays with the same values.
    pub fn copy(&self, alloc: Global) -> Result<Arrays, OutOfMemory>
        ensures { IfOk result (λ c. c ≡ self.now) }
    {
        let mut rows = Vec::new(alloc);
        for row in &self.rows {
            rows.push(Vec::from_slice(alloc, row.as_slice())?)?;
        }
        Ok(Arrays { rows })
    }

    /// The value of an element whose place is `at`, or the greatest word where the place is too
    /// great for one; 0 where there is no such element.
    pub(crate) fn cell(&self, array: u32, at: u64) -> Value
        ensures { (n : ℕ) → at ≡ capped n → result ≡ cell self.now (element array n) }
    {
        let array = array as usize;
        let at = at as usize;
        if array < self.rows.len() {
            let row = &self.rows[array];
            if at < row.len() {
                return row[at];
            }
        }
        Value::Int(0)
    }

    pub(crate) fn put(&mut self, array: u32, at: u64, value: Value)
        ensures { (n : ℕ) → at ≡ capped n → self.new ≡ changed self.old (element array n) (λ c. value) }
    {
        let array = array as usize;
        let at = at as usize;
        if array < self.rows.len() {
            let row = &mut self.rows[array];
            if at < row.len() {
                row[at] = value;
            }
        }
    }

    pub(crate) fn add(&mut self, array: u32, at: u64, value: Value)
        ensures { (n : ℕ) → at ≡ capped n → self.new ≡ changed self.old (element array n) (added value) }
    {
        let old = self.cell(array, at);
        self.put(array, at, added(value, old));
    }
}

/// A row of zeros.
fn row_of(alloc: Global, array: &Array) -> Result<Vec<Value>, OutOfMemory>
    ensures { IfOk result (λ row. row.items ≡ replicate (product array.now.dims) (in_kind array.now.kind (pos 0))) }
{
    match count(array.dims.as_slice()) {
        None => Err(OutOfMemory),
        Some(n) => Ok(Vec::from_elem(alloc, zero(array.kind), n)?),
    }
}

fn zero(kind: Kind) -> Value
    ensures { result ≡ in_kind kind (pos 0) }
{
    match kind {
        Kind::Int => Value::Int(0),
        Kind::Unsigned => Value::Unsigned(0),
        Kind::Long => Value::Long(0),
        Kind::UnsignedLong => Value::UnsignedLong(0),
    }
}

/// How many elements there are, where a word holds the number and those of the first dimensions.
fn count(sizes: &[u32]) -> Option<usize>
    ensures { IfSome result (λ n. n ≡ product sizes.now) }
{
    let mut n: usize = 1;
    for size in sizes {
        match n.checked_mul(*size as usize) {
            None => return None,
            Some(more) => n = more,
        }
    }
    Some(n)
}
