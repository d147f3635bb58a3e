//! Whether a given dimension covers a derived one.

ghost use Rattle.std.specs.Prelude.{◌≡◌, ◌↔◌, IsTrue};
ghost use Rattle.species_cover.specs.Cover.{CoversDim, derived_span, given_span};
ghost use Rattle.species_cover.specs.Sizes.{HasSmallGivenDim, HasSmallArcDim};

use crate::within::is_within;
use species_arcs::{ArcDim, Span};
use species_linear::Term;
use species_notation::GivenDim;

/// The indices of a dimension without what moves with iterators.
fn given_span(dim: &GivenDim) -> Span
    requires { HasSmallGivenDim dim.now }
    ensures { result ≡ given_span dim.now }
{
    Span {
        low: dim.at.constant + dim.a,
        high: dim.at.constant + dim.b,
        stride: dim.stride,
    }
}

fn derived_span(dim: &ArcDim) -> Span
    requires { HasSmallArcDim dim.now }
    ensures { result ≡ derived_span dim.now }
{
    Span {
        low: dim.at.constant + dim.a,
        high: dim.at.constant + dim.b,
        stride: dim.stride,
    }
}

fn same_terms(given: &[Term], derived: &[Term]) -> bool
    ensures { IsTrue result ↔ given.now ≡ derived.now }
{
    given == derived
}

/// Whether the dimension moves with the same iterators and has each index of the derived one; and no other, where
/// the given arc is exact.
pub(crate) fn dim_covers(exact: bool, given: &GivenDim, derived: &ArcDim) -> bool
    requires given { HasSmallGivenDim given.now }
    requires derived { HasSmallArcDim derived.now }
    ensures { IsTrue result ↔ CoversDim exact given.now derived.now }
{
    if !same_terms(given.at.terms.as_slice(), derived.at.terms.as_slice()) {
        return false;
    }
    let of_given = given_span(given);
    let of_derived = derived_span(derived);
    if !is_within(of_derived, of_given) {
        return false;
    }
    if !exact {
        return true;
    }
    is_within(of_given, of_derived)
}
