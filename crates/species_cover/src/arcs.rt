//! Whether a given arc covers a derived one.

ghost use Rattle.std.specs.Prelude.{◌≡◌, ◌↔◌, Some, All, IsTrue};
ghost use Rattle.std.specs.List.{Any};
ghost use Rattle.species_arcs.specs.Pairwise.{Pairwise};
ghost use Rattle.species_cover.specs.Cover.{CoversDim, Covers, IsCovered};
ghost use Rattle.species_cover.specs.Sizes.{HasSmallGivenDim, HasSmallArcDim, HasSmallGiven, HasSmallDerived};

use crate::dims::dim_covers;
use species_arcs::{Arc, ArcDim};
use species_notation::{GivenArc, GivenDim};

/// Whether there are as many dimensions, and each given one covers its derived one; of an `exact` arc with the same
/// indices.
fn dims_cover(exact: bool, given: &[GivenDim], derived: &[ArcDim]) -> bool
    requires given { All HasSmallGivenDim given.now }
    requires derived { All HasSmallArcDim derived.now }
    ensures { IsTrue result ↔ Pairwise (CoversDim exact) given.now derived.now }
{
    if given.len() != derived.len() {
        return false;
    }
    for (number, dim) in given.iter().enumerate() {
        if !dim_covers(exact, dim, &derived[number]) {
            return false;
        }
    }
    true
}

fn is_number(given: Option<u32>, array: u32) -> bool
    ensures { IsTrue result ↔ given ≡ Some array }
{
    match given {
        Some(number) => number == array,
        None => false,
    }
}

fn arc_covers(given: &GivenArc, arc: &Arc) -> bool
    requires given { HasSmallGiven given.now }
    requires derived { HasSmallDerived arc.now }
    ensures { IsTrue result ↔ Covers given.now arc.now }
{
    given.known
        && is_number(given.array, arc.array)
        && given.dir == arc.dir
        && (!given.exact || arc.exact)
        && dims_cover(given.exact, given.dims.as_slice(), arc.dims.as_slice())
}

/// Whether one of the given arcs covers the derived one.
pub(crate) fn is_covered(given: &[GivenArc], arc: &Arc) -> bool
    requires given { All HasSmallGiven given.now }
    requires derived { HasSmallDerived arc.now }
    ensures { IsTrue result ↔ IsCovered given.now arc.now }
{
    for known in given {
        if arc_covers(known, arc) {
            return true;
        }
    }
    false
}
