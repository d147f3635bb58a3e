//! The plan of a nest.

ghost use Rattle.std.specs.Prelude.{◌≡◌, [], ◌∷◌, ◌++◌, OnOk, OnErr};

use crate::places::Arc;
use sqlite_items::Items;
use std::alloc::{AllocError, Global};
use std::marker::Model;

/// How a parallel nest treats the arrays that its iterations only add to: as any other, or by atomic
/// additions.
#[derive(Clone, Copy, Debug, PartialEq, Eq)]
pub enum Mode {
    Plain,
    Shared,
}

/// Why a loop is sequential.
#[derive(Clone, Copy, Debug, PartialEq, Eq)]
pub enum Reason {
    /// Two references to an array, by their numbers, may touch one place in different iterations.
    Carried { array: u32, first: u32, second: u32 },
    /// A local that is declared outside the nest is set inside it.
    Outer { local: u32 },
}

/// A list of numbers.
#[derive(Debug, Drop)]
pub struct Numbers {
    list: Vec<u32>,
}

impl Model for Numbers {
    ghost use Rattle.std.specs.Prelude.{List, ℕ};

    ghost Value = { List ℕ };

    ghost view = { λ n. n.list.items };
}

impl Numbers {
    /// No numbers. It takes no memory.
    pub fn new(alloc: Global) -> Self
        ensures { result ≡ [] }
    {
        Numbers {
            list: Vec::new(alloc),
        }
    }

    pub fn push(&mut self, number: u32) -> Result<(), AllocError>
        ensures ok { OnOk result (self.new ≡ self.old ++ number ∷ []) }
        ensures err { OnErr result (self.new ≡ self.old) }
    {
        self.list.push(number)?;
        Ok(())
    }

    pub fn as_slice(&self) -> &[u32]
        ensures { result.now ≡ self.now }
    {
        self.list.as_slice()
    }
}

impl From<Vec<u32>> for Numbers {
    ghost from_gives = { λ list numbers. numbers ≡ list.items };

    fn from(list: Vec<u32>) -> Self {
        Numbers { list }
    }
}

impl From<Numbers> for Vec<u32> {
    ghost from_gives = { λ numbers list. list.items ≡ numbers };

    fn from(numbers: Numbers) -> Self {
        numbers.list
    }
}

/// The plan of a loop with the loops inside it.
#[derive(Debug, Drop)]
pub struct Nest {
    /// The number of leading loops that run in parallel: the band. It is 0 where the loop is sequential.
    pub depth: u32,
    pub mode: Mode,
    pub arcs: Items<Arc>,
    /// The arrays that are added to by atomic additions.
    pub gathered: Numbers,
    /// Why the loop is sequential, where it is.
    pub reason: Option<Reason>,
}
