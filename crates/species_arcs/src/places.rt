//! Arcs and their sets.

ghost use Rattle.std.specs.Prelude.{◌≡◌, ◌↔◌, length, All, IsTrue};
ghost use Rattle.species_linear.specs.Point.{IsShort, HasSmallIters, point_of};
ghost use Rattle.species_arcs.specs.Sets.{IsInDim, IsInSet};
ghost use Rattle.species_arcs.specs.Sizes.{HasSmallDim};

use crate::spans::Span;
use species_linear::{Form, value};
use sqlite_items::Items;

/// What an access does to its place. An add is one step that reads, adds and writes.
#[derive(Clone, Copy, Debug, PartialEq, Eq)]
pub enum Dir {
    Read,
    Write,
    Add,
}

/// One dimension of an arc. An index of it is one of `at + a`, `at + a + stride`, and so on up to `at + b`.
#[derive(Debug, Drop)]
pub struct ArcDim {
    /// The part that moves with the iterators in force in an iteration.
    pub at: Form,
    pub a: i128,
    pub b: i128,
    /// How far apart the indices are.
    pub stride: u128,
    /// The least index over the whole nest, which may move with the iterators of the loops around it.
    pub low: Form,
    /// The greatest index over the whole nest.
    pub high: Form,
    /// The number of indices in an iteration.
    pub elements: u128,
    /// How far `at` moves from one iteration to the next, by the iterator that moves it least.
    pub step: u128,
    /// Whether `at` moves with an iterator of the nest's band.
    pub driven: bool,
}

/// The places of an array that references of one direction may touch in an iteration.
#[derive(Debug, Drop)]
pub struct Arc {
    /// The number of the array.
    pub array: u32,
    pub dir: Dir,
    pub dims: Items<ArcDim>,
    /// Whether each of these places is touched.
    pub exact: bool,
}

/// Whether an index is one of those of the dimension.
fn dim_contains(dim: &ArcDim, iters: &[i64], index: i64) -> bool
    requires short { IsShort iters.now }
    requires small_iters { HasSmallIters iters.now }
    requires dim { HasSmallDim (length iters.now) dim.now }
    ensures { IsTrue result ↔ IsInDim dim.now (point_of iters.now) index }
{
    let at = value(&dim.at, iters);
    let offsets = Span {
        low: dim.a,
        high: dim.b,
        stride: dim.stride,
    };
    offsets.holds(index as i128 - at)
}

/// Whether a place is one of the set of the arc where the iterators in force are these, by level.
pub fn contains(arc: &Arc, iters: &[i64], place: &[i64]) -> bool
    requires indices { length place.now ≡ length arc.now.dims }
    requires short { IsShort iters.now }
    requires small_iters { HasSmallIters iters.now }
    requires dims { All (HasSmallDim (length iters.now)) arc.now.dims }
    ensures { IsTrue result ↔ IsInSet arc.now (point_of iters.now) place.now }
{
    for (number, dim) in arc.dims.as_slice().iter().enumerate() {
        if !dim_contains(dim, iters, place[number]) {
            return false;
        }
    }
    true
}
