//! Sums of the plain numbers and of the equal names of a form.
ghost use Rattle.std.specs.Prelude.{◌≡◌, ◌≤◌, ◌^◌, ◌+ℤ◌, Some, None, bytes_eq};
ghost use Rattle.std.specs.Int.RustNames.{unsigned_abs};
ghost use Rattle.std.specs.List.{list_any};
ghost use Rattle.species_notation.specs.Meaning.{fits, signed, no_sums, limited, with_product, with_summand, sums_of, coefficient_in, is_known};
ghost use Rattle.species_notation.specs.Tables.{fitting};
ghost use Rattle.species_notation.specs.Gives.{Finds, Leaves};

use crate::raw::{MOST, Natural, RawForm, Summand};
use crate::refusal::NotationRefusal;
use indexmap::IndexMap;
use species_ast::Name;
use std::alloc::Global;
use std::marker::Model;

/// The sum of the plain numbers, and those of the names, each name once. None is too large.
#[derive(Drop)]
pub(crate) struct Totals<'a> {
    constant: i128,
    names: IndexMap<&'a [u8], i128>,
}

impl<'a> Model for Totals<'a> {
    ghost use Rattle.species_notation.specs.Meaning.{Sums};
    ghost use Rattle.species_notation.specs.Tables.{sums_seen, IsLimited};

    ghost Value = { Sums };

    ghost view = { λ t. sums_seen t.constant t.names };

    ghost invariant = { λ t. IsLimited (sums_seen t.constant t.names) };
}

/// Whether it is one of these names.
pub(crate) fn is_among(name: &[u8], names: &[Name]) -> bool
    ensures { result ≡ list_any (bytes_eq name.now) names.now }
{
    names.iter().any(|other| name == other.as_slice())
}

/// A number with its sign.
pub(crate) fn signed(negative: bool, number: &Natural) -> i128
    ensures value { result ≡ signed negative number.now }
    ensures small { unsigned_abs result ≤ 2 ^ 70 }
{
    let size = number.get() as i128;
    if negative { -size } else { size }
}

/// The sum of two numbers, unless it is too large.
fn sum(a: i128, b: i128) -> Option<i128>
    requires a { unsigned_abs a ≤ 2 ^ 70 }
    requires b { unsigned_abs b ≤ 2 ^ 70 }
    ensures { result ≡ fitting (a +ℤ b) }
{
    let sum = a + b;
    if sum.unsigned_abs() <= MOST {
        Some(sum)
    } else {
        None
    }
}

impl<'a> Totals<'a> {
    /// No sums. It takes no memory.
    fn new(alloc: Global) -> Totals<'a>
        ensures { result ≡ no_sums }
    {
        Totals {
            constant: 0,
            names: IndexMap::new(alloc),
        }
    }

    /// The sum of the plain numbers.
    pub(crate) fn constant(&self) -> i128
        ensures value { result ≡ self.now.constant }
        ensures small { unsigned_abs result ≤ 2 ^ 70 }
    {
        self.constant
    }

    /// The sum of a name, 0 where it doesn't stand.
    pub(crate) fn coefficient(&self, name: &[u8]) -> i128
        ensures value { result ≡ coefficient_in name.now self.now.names }
        ensures small { unsigned_abs result ≤ 2 ^ 70 }
    {
        match self.names.get(name) {
            Some(sum) => *sum,
            None => 0,
        }
    }

    /// Whether each name is an iterator's.
    pub(crate) fn is_known(&self, iters: &[Name]) -> bool
        ensures { result ≡ is_known iters.now self.now }
    {
        for at in 0..self.names.len() {
            match self.names.get_index(at) {
                Some((name, _)) => {
                    if !is_among(*name, iters) {
                        return false;
                    }
                }
                None => return true,
            }
        }
        true
    }

    fn add_constant(&mut self, number: i128) -> Result<(), NotationRefusal>
        requires { unsigned_abs number ≤ 2 ^ 70 }
        ensures { Leaves result self.new (limited (with_product number None self.old)) }
    {
        match sum(self.constant(), number) {
            Some(sum) => {
                self.constant = sum;
                Ok(())
            }
            None => Err(NotationRefusal::Syntax),
        }
    }

    fn add_name(&mut self, number: i128, name: &'a [u8]) -> Result<(), NotationRefusal>
        requires { unsigned_abs number ≤ 2 ^ 70 }
        ensures { Leaves result self.new (limited (with_product number (Some name.now) self.old)) }
    {
        match sum(self.coefficient(name), number) {
            Some(sum) => {
                self.names.insert(name, sum)?;
                Ok(())
            }
            None => Err(NotationRefusal::Syntax),
        }
    }

    fn add(&mut self, summand: &Summand<'a>) -> Result<(), NotationRefusal>
        ensures { Leaves result self.new (limited (with_summand summand.now self.old)) }
    {
        let number = signed(summand.negative, &summand.number);
        match &summand.name {
            Some(name) => self.add_name(number, name.as_slice()),
            None => self.add_constant(number),
        }
    }
}

/// The sums of a form, if none on the way is too large.
pub(crate) fn sums_of<'a>(alloc: Global, form: &RawForm<'a>) -> Result<Totals<'a>, NotationRefusal>
    ensures { Finds result (sums_of form.now) }
{
    let mut totals = Totals::new(alloc);
    totals.add(&form.first)?;
    for summand in form.more.as_slice() {
        totals.add(summand)?;
    }
    Ok(totals)
}
