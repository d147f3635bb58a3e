//! Ranges of loops, and directions of dependences between their iterations.

ghost use Rattle.std.specs.Prelude.{◌≡◌, List, [], ◌∷◌, ◌++◌, OnOk, OnErr};

use std::alloc::{AllocError, Global};
use std::marker::Model;

/// The values that the iterator of one loop takes lie from `low` to `high`. The range is empty where
/// `low` is above `high`.
#[derive(Clone, Copy, Debug, PartialEq, Eq)]
pub struct LoopRange {
    pub low: i64,
    pub high: i64,
    /// What each turn adds to the iterator.
    pub step: i32,
    /// The value of the first turn, where it is a constant.
    pub start: Option<i64>,
    /// Whether the bound on the last turn is a constant too.
    pub fixed: bool,
}

/// Ranges of loops, in a fixed order.
#[derive(Debug, Drop)]
pub struct Ranges {
    list: Vec<LoopRange>,
}

impl Model for Ranges {
    ghost use Rattle.std.specs.Prelude.{List};
    ghost use Rattle.species_linear.specs.declared.loops.LoopRange.{LoopRange};

    ghost Value = { List LoopRange };

    ghost view = { λ r. r.list.items };
}

impl Ranges {
    /// No ranges. It takes no memory.
    pub fn new(alloc: Global) -> Self
        ensures { result ≡ [] }
    {
        Ranges {
            list: Vec::new(alloc),
        }
    }

    pub fn push(&mut self, range: LoopRange) -> Result<(), AllocError>
        ensures ok { OnOk result (self.new ≡ self.old ++ range ∷ []) }
        ensures err { OnErr result (self.new ≡ self.old) }
    {
        self.list.push(range)?;
        Ok(())
    }

    pub fn as_slice(&self) -> &[LoopRange]
        ensures { result.now ≡ self.now }
    {
        self.list.as_slice()
    }
}

impl From<Vec<LoopRange>> for Ranges {
    ghost from_gives = { λ list ranges. ranges ≡ list.items };

    fn from(list: Vec<LoopRange>) -> Self {
        Ranges { list }
    }
}

impl From<Ranges> for Vec<LoopRange> {
    ghost from_gives = { λ ranges list. list.items ≡ ranges };

    fn from(ranges: Ranges) -> Self {
        ranges.list
    }
}

/// A direction between the iterations of two references at one level of a nest: they agree at the
/// levels before it, and differ at this one.
#[derive(Clone, Copy, Debug, PartialEq, Eq)]
pub struct Direction {
    /// The number of loops around the nest.
    pub outer: u32,
    /// The level, counted from 0 in the nest.
    pub level: u32,
    /// Whether the first reference's coordinate is below the second's there ("less"), or above it
    /// ("greater"). The coordinate is the loop's counter where its start is a constant, and else the
    /// iterator.
    pub less: bool,
}
