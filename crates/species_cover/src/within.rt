//! Whether the numbers of a span are numbers of another.

ghost use Rattle.std.specs.Prelude.{◌≡◌, ◌↔◌, ◌<◌, ◌≤ℤ◌, IsTrue};
ghost use Rattle.species_arcs.specs.Spans.{IsInSpan};
ghost use Rattle.species_cover.specs.Within.{IsWithin, last_of, second_of, width};
ghost use Rattle.species_cover.specs.Sizes.{HasSmallEnds};

use species_arcs::Span;

/// The last number of a span that has one.
fn last_of(span: Span) -> i128
    requires small { HasSmallEnds span }
    requires some { span.low ≤ℤ span.high }
    ensures { result ≡ last_of span }
{
    let rest = (span.high - span.low).unsigned_abs() % span.stride;
    span.high - rest as i128
}

fn second_of(span: Span) -> i128
    requires { HasSmallEnds span }
    ensures { result ≡ second_of span }
{
    span.low + span.stride as i128
}

/// Whether the ends are less than a stride apart.
fn is_single(span: Span) -> bool
    requires { HasSmallEnds span }
    ensures { IsTrue result ↔ width span < span.stride }
{
    (span.high - span.low).unsigned_abs() < span.stride
}

fn holds_first(outer: Span, inner: Span) -> bool
    requires inner { HasSmallEnds inner }
    requires outer { HasSmallEnds outer }
    ensures { IsTrue result ↔ IsInSpan outer inner.low }
{
    outer.holds(inner.low)
}

fn holds_second(outer: Span, inner: Span) -> bool
    requires inner { HasSmallEnds inner }
    requires outer { HasSmallEnds outer }
    ensures { IsTrue result ↔ IsInSpan outer (second_of inner) }
{
    outer.holds(second_of(inner))
}

fn holds_last(outer: Span, inner: Span) -> bool
    requires inner { HasSmallEnds inner }
    requires outer { HasSmallEnds outer }
    requires some { inner.low ≤ℤ inner.high }
    ensures { IsTrue result ↔ IsInSpan outer (last_of inner) }
{
    outer.holds(last_of(inner))
}

/// Each number of the first span is one of the second: its first, its second and its last are.
pub(crate) fn is_within(inner: Span, outer: Span) -> bool
    requires inner { HasSmallEnds inner }
    requires outer { HasSmallEnds outer }
    ensures { IsTrue result ↔ IsWithin inner outer }
{
    if inner.high < inner.low {
        return true;
    }
    if !holds_first(outer, inner) {
        return false;
    }
    if is_single(inner) {
        return true;
    }
    if !holds_second(outer, inner) {
        return false;
    }
    holds_last(outer, inner)
}
