//! The words for the shapes of arcs.

ghost use Rattle.std.specs.Prelude.{◌≡◌, All};
ghost use Rattle.std.specs.List.{list_all, list_any};
ghost use Rattle.species_arcs.specs.Sizes.{HasSmallSpan};
ghost use Rattle.species_arcs.specs.Shapes.{is_add, is_single, is_overlapping, word_of};

use crate::places::{Arc, ArcDim, Dir};

/// What an arc is in an iteration.
#[derive(Clone, Copy, Debug, PartialEq, Eq)]
pub enum Word {
    /// One place.
    Element,
    /// Places that iterations next to each other share.
    Neighbourhood,
    /// Places of this iteration alone.
    Chunk,
    /// The same places in each iteration.
    Full,
    /// Places that are added to.
    Shared,
}

fn is_add(dir: Dir) -> bool
    ensures { result ≡ is_add dir }
{
    match dir {
        Dir::Add => true,
        Dir::Read => false,
        Dir::Write => false,
    }
}

fn is_single(dim: &ArcDim) -> bool
    ensures { result ≡ is_single dim.now }
{
    dim.a == dim.b
}

fn is_overlapping(dim: &ArcDim) -> bool
    requires { HasSmallSpan dim.now }
    ensures { result ≡ is_overlapping dim.now }
{
    dim.driven && dim.step < (dim.b - dim.a).unsigned_abs() + 1
}

fn all_single(dims: &[ArcDim]) -> bool
    ensures { result ≡ list_all is_single dims.now }
{
    dims.iter().all(is_single)
}

fn any_driven(dims: &[ArcDim]) -> bool
    ensures { result ≡ list_any (λ d. d.driven) dims.now }
{
    dims.iter().any(|dim| dim.driven)
}

fn any_overlapping(dims: &[ArcDim]) -> bool
    requires { All HasSmallSpan dims.now }
    ensures { result ≡ list_any is_overlapping dims.now }
{
    for dim in dims {
        if is_overlapping(dim) {
            return true;
        }
    }
    false
}

/// The word of an arc: the first that fits.
pub fn word_of(arc: &Arc) -> Word
    requires { All HasSmallSpan arc.now.dims }
    ensures { result ≡ word_of arc.now }
{
    let dims = arc.dims.as_slice();
    if is_add(arc.dir) {
        Word::Shared
    } else if all_single(dims) {
        Word::Element
    } else if !any_driven(dims) {
        Word::Full
    } else if any_overlapping(dims) {
        Word::Neighbourhood
    } else {
        Word::Chunk
    }
}
