//! What a species line says, before sums are made and names are looked up.

use species_arcs::Word;
use sqlite_items::Items;
use std::marker::Model;

/// A name or a word of the text, seen as its bytes.
#[derive(Drop)]
pub(crate) struct Spelling<'a> {
    bytes: &'a [u8],
}

impl<'a> Model for Spelling<'a> {
    ghost use Rattle.std.specs.Prelude.{List, ℕ};

    ghost Value = { List ℕ };

    ghost view = { λ s. s.bytes.now };
}

impl<'a> Spelling<'a> {
    ghost use Rattle.std.specs.Prelude.{◌≡◌};

    pub(crate) fn new(bytes: &'a [u8]) -> Spelling<'a>
        ensures { result ≡ bytes.now }
    {
        Spelling { bytes }
    }

    pub(crate) fn as_slice(&self) -> &'a [u8]
        ensures { result.now ≡ self.now }
    {
        self.bytes
    }

    pub(crate) fn copy(&self) -> Spelling<'a>
        ensures { result ≡ self.now }
    {
        Spelling { bytes: self.bytes }
    }
}

/// The greatest number, and the greatest size of a sum: 2^70.
pub(crate) const MOST: u128 = 1180591620717411303424;

/// A number of the text, which is at most 2^70.
#[derive(Drop)]
pub(crate) struct Natural {
    value: u128,
}

impl Model for Natural {
    ghost use Rattle.std.specs.Prelude.{ℕ, ◌≤◌, ◌^◌};

    ghost Value = { ℕ };

    ghost view = { λ n. n.value };

    ghost invariant = { λ n. n.value ≤ 2 ^ 70 };
}

impl Natural {
    ghost use Rattle.std.specs.Prelude.{◌≡◌, ◌≤◌, ◌^◌};

    pub(crate) fn new(value: u128) -> Natural
        requires { value ≤ 2 ^ 70 }
        ensures { result ≡ value }
    {
        Natural { value }
    }

    pub(crate) fn get(&self) -> u128
        ensures value { result ≡ self.now }
        ensures within { result ≤ 2 ^ 70 }
    {
        self.value
    }

    pub(crate) fn copy(&self) -> Natural
        ensures { result ≡ self.now }
    {
        Natural { value: self.value }
    }
}

/// A number, and the name that it is a coefficient of.
#[derive(Drop)]
pub(crate) struct Summand<'a> {
    pub(crate) negative: bool,
    pub(crate) number: Natural,
    pub(crate) name: Option<Spelling<'a>>,
}

/// A form: one summand or more.
#[derive(Drop)]
pub(crate) struct RawForm<'a> {
    pub(crate) first: Summand<'a>,
    pub(crate) more: Items<Summand<'a>>,
}

/// A number with its sign.
#[derive(Drop)]
pub(crate) struct RawInt {
    pub(crate) negative: bool,
    pub(crate) size: Natural,
}

/// The offsets of a dimension, with the stride where it is said.
#[derive(Drop)]
pub(crate) struct RawSpan {
    pub(crate) low: RawInt,
    pub(crate) high: RawInt,
    pub(crate) stride: Option<Natural>,
}

/// The two ends of a dimension's domain.
#[derive(Drop)]
pub(crate) struct RawRange<'a> {
    pub(crate) low: RawForm<'a>,
    pub(crate) high: RawForm<'a>,
}

/// An arc.
#[derive(Drop)]
pub(crate) struct RawArc<'a> {
    pub(crate) name: Spelling<'a>,
    pub(crate) ranges: Items<RawRange<'a>>,
    pub(crate) word: Word,
    /// Those behind the word, where there are any; `None` for a `-`.
    pub(crate) offsets: Option<Items<Option<RawSpan>>>,
    pub(crate) forms: Items<RawForm<'a>>,
    pub(crate) exact: bool,
}

/// A line.
#[derive(Drop)]
pub(crate) enum RawLine<'a> {
    Carried {
        name: Spelling<'a>,
        first: Natural,
        second: Natural,
    },
    Local {
        name: Spelling<'a>,
    },
    Sides {
        left: Items<RawArc<'a>>,
        right: Items<RawArc<'a>>,
    },
}
