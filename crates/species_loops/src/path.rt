//! The ranges of the loops around a place.

ghost use Rattle.std.specs.Prelude.{◌≡◌, ◌<◌, [], ◌∷◌, ◌++◌, take, length, OnOk, OnErr};
ghost use Rattle.species_linear.specs.Point.{IsShort};
ghost use Rattle.species_linear.specs.Box.{HasSmallEnds, HasSmallPath};
ghost use Rattle.species_loops.specs.Ranges.{range_seen, ranges_seen};

use species_ast::OutOfMemory;
use species_linear::LoopRange;
use std::alloc::Global;
use std::marker::Model;

/// The greatest number of ranges in a path.
const MOST_RANGES: usize = 16;

/// The ranges of the loops around a place, that of the outermost first: at most 16, whose ends are at most 2^40 in size.
#[derive(Drop)]
pub struct Path {
    ranges: Vec<LoopRange>,
}

impl Model for Path {
    ghost use Rattle.std.specs.Prelude.{List};
    ghost use Rattle.species_ast.specs.Scope.Hulls.{Range};
    ghost use Rattle.species_linear.specs.Point.{IsShort};
    ghost use Rattle.species_linear.specs.Box.{HasSmallPath};
    ghost use Rattle.species_loops.specs.Ranges.{ranges_seen};

    ghost Value = { List Range };

    ghost view = { λ p. ranges_seen p.ranges.items };

    ghost invariant = { λ p. IsShort p.ranges.items × HasSmallPath p.ranges.items };
}

impl Path {
    /// That of a place in no loop.
    pub fn new(alloc: Global) -> Path
        ensures { result ≡ [] }
    {
        Path {
            ranges: Vec::new(alloc),
        }
    }

    pub fn as_slice(&self) -> &[LoopRange]
        ensures value { ranges_seen result.now ≡ self.now }
        ensures short { IsShort result.now }
        ensures ends { HasSmallPath result.now }
    {
        self.ranges.as_slice()
    }

    pub fn len(&self) -> usize
        ensures { result ≡ length self.now }
    {
        self.ranges.len()
    }

    /// Goes into a loop with this range. Past 16 it is left out.
    pub fn enter(&mut self, range: LoopRange) -> Result<(), OutOfMemory>
        requires { HasSmallEnds range }
        ensures kept { OnOk result (take (length self.old) self.new ≡ self.old) }
        ensures open { OnOk result (length self.old < 16 → self.new ≡ self.old ++ range_seen range ∷ []) }
        ensures err { OnErr result (self.new ≡ self.old) }
    {
        if self.ranges.len() < MOST_RANGES {
            self.ranges.push(range)?;
        }
        Ok(())
    }

    /// Goes back to the first so many loops.
    #[tactic(auto, using(crate::proofs::PathLaws::seen_first))]
    pub fn leave(&mut self, depth: usize)
        ensures { self.new ≡ take depth self.old }
    {
        self.ranges.truncate(depth);
    }
}
