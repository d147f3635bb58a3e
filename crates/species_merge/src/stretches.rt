//! Whether spans cover a hull.
//!
//! Between two ends of spans the same spans go on. Such a stretch is settled by the numbers of one common
//! multiple of their strides, and at once where one span goes through all its numbers.

ghost use Rattle.std.specs.Prelude.{◌≡◌, ◌⊎◌, ◌↔◌, ◌<◌, ◌≤◌, ◌^◌, ◌≤ℤ◌, ◌<ℤ◌, ◌-ℤ◌, All, IsTrue};
ghost use Rattle.std.specs.List.{Any};
ghost use Rattle.std.specs.Int.{◌∣◌};
ghost use Rattle.std.specs.Int.RustNames.{unsigned_abs};
ghost use Rattle.species_arcs.specs.Spans.{IsInSpan};
ghost use Rattle.species_merge.specs.Hulls.{Covers};
ghost use Rattle.species_merge.specs.Reaches.{IsSmallEnd};
ghost use Rattle.species_merge.specs.Stretches.{IsSmallStride, IsSmallWhole, IsSettled, IsMultiple, IsPeriod, IsEnough, IsBehind, GoesThrough};

use crate::hulls::{gcd, lesser, way};
use species_arcs::Span;

fn some_holds(spans: &[Span], number: i128) -> bool
    requires spans { All IsSmallWhole spans.now }
    requires small { unsigned_abs number ≤ 2 ^ 72 }
    ensures { IsTrue result ↔ Any (λ x. IsInSpan x number) spans.now }
{
    for span in spans {
        if span.holds(number) {
            return true;
        }
    }
    false
}

/// Whether a span holds the number and each one behind it, in steps of the stride, up to its end.
fn goes_through(span: Span, at: i128, stride: u128) -> bool
    requires span { IsSmallWhole span }
    requires small { unsigned_abs at ≤ 2 ^ 72 }
    ensures { IsTrue result ↔ GoesThrough at stride span }
{
    stride % span.stride == 0 && span.holds(at)
}

fn some_goes_through(spans: &[Span], at: i128, stride: u128) -> bool
    requires spans { All IsSmallWhole spans.now }
    requires small { unsigned_abs at ≤ 2 ^ 72 }
    ensures { IsTrue result → Any (GoesThrough at stride) spans.now }
{
    for span in spans {
        if goes_through(*span, at, stride) {
            return true;
        }
    }
    false
}

/// Where a stretch from one number on ends, for one span more.
fn edge_with(span: Span, at: i128, edge: i128) -> i128
    requires span { IsSmallWhole span }
    requires ahead { at ≤ℤ edge }
    ensures ahead { at ≤ℤ result }
    ensures within { result ≤ℤ edge }
    ensures settled { IsSettled at result span }
{
    if at < span.low {
        lesser(edge, span.low - 1)
    } else if at <= span.high {
        lesser(edge, span.high)
    } else {
        edge
    }
}

/// The last number up to which the spans that hold numbers at `at` go on, and no others begin.
fn edge_of(spans: &[Span], at: i128, last: i128) -> i128
    requires spans { All IsSmallWhole spans.now }
    requires ahead { at ≤ℤ last }
    ensures ahead { at ≤ℤ result }
    ensures within { result ≤ℤ last }
    ensures settled { All (IsSettled at result) spans.now }
{
    let mut edge = last;
    for span in spans {
        edge = edge_with(*span, at, edge);
    }
    edge
}

/// A common multiple of two numbers, or a number above `most`.
fn multiple(a: u128, b: u128, most: u128) -> u128
    requires first { 0 < a }
    requires second { 0 < b }
    requires small { most < 2 ^ 100 }
    ensures { IsMultiple a b most result }
{
    if a > most {
        return a;
    }
    let turns = b / gcd(a, b);
    if turns > most / a {
        return most + 1;
    }
    a * turns
}

/// A common multiple with the stride of one span more, if it goes on at `at`.
fn period_with(span: Span, at: i128, period: u128, most: u128) -> u128
    requires span { IsSmallWhole span }
    requires some { 0 < period }
    requires small { most < 2 ^ 100 }
    ensures some { 0 < result }
    ensures kept { (most < result) ⊎ (period ∣ result) }
    ensures own { (most < result) ⊎ ((span.low ≤ℤ at) → (at ≤ℤ span.high) → span.stride ∣ result) }
{
    if at < span.low || span.high < at {
        period
    } else {
        multiple(period, span.stride, most)
    }
}

/// A common multiple of a stride and of those of the spans that go on at a number, or a number above `most`.
fn period_of(spans: &[Span], at: i128, stride: u128, most: u128) -> u128
    requires spans { All IsSmallWhole spans.now }
    requires some { 0 < stride }
    requires small { most < 2 ^ 100 }
    ensures { IsPeriod spans.now at stride most result }
{
    let mut period = stride;
    for span in spans {
        period = period_with(*span, at, period, most);
    }
    period
}

/// The last number of a stretch that has to be looked at.
fn last_of(spans: &[Span], at: i128, edge: i128, stride: u128) -> i128
    requires spans { All IsSmallWhole spans.now }
    requires ahead { at ≤ℤ edge }
    requires small_at { unsigned_abs at ≤ 2 ^ 71 }
    requires small_edge { unsigned_abs edge ≤ 2 ^ 71 }
    requires some { 0 < stride }
    ensures within { result ≤ℤ edge }
    ensures enough { IsEnough spans.now at edge stride result }
{
    let most = (edge - at).unsigned_abs();
    let period = period_of(spans, at, stride, most);
    if period > most {
        edge
    } else {
        at + (period as i128 - 1)
    }
}

/// Whether each number from one on, in steps of the stride, is one of some span's.
fn walk(spans: &[Span], first: i128, last: i128, stride: u128) -> bool
    requires spans { All IsSmallWhole spans.now }
    requires small_first { unsigned_abs first ≤ 2 ^ 71 }
    requires small_last { unsigned_abs last ≤ 2 ^ 71 }
    requires some { 0 < stride }
    requires small_stride { stride ≤ 2 ^ 70 }
    ensures { IsTrue result ↔ Covers spans.now (record { low = first; high = last; stride = stride }) }
{
    let mut at = first;
    while at <= last {
        if !some_holds(spans, at) {
            return false;
        }
        at += stride as i128;
    }
    true
}

/// Whether the numbers of a stretch are those of some spans.
fn stretch(spans: &[Span], at: i128, edge: i128, stride: u128) -> bool
    requires spans { All IsSmallWhole spans.now }
    requires ahead { at ≤ℤ edge }
    requires small_at { unsigned_abs at ≤ 2 ^ 71 }
    requires small_edge { unsigned_abs edge ≤ 2 ^ 71 }
    requires some { 0 < stride }
    requires small_stride { stride ≤ 2 ^ 70 }
    requires settled { All (IsSettled at edge) spans.now }
    ensures { IsTrue result ↔ Covers spans.now (record { low = at; high = edge; stride = stride }) }
{
    if some_goes_through(spans, at, stride) {
        return true;
    }
    walk(spans, at, last_of(spans, at, edge, stride), stride)
}

/// The first number behind a stretch, in steps of the stride.
fn behind(at: i128, edge: i128, stride: u128) -> i128
    requires ahead { at ≤ℤ edge }
    requires small_at { unsigned_abs at ≤ 2 ^ 71 }
    requires small_edge { unsigned_abs edge ≤ 2 ^ 71 }
    requires some { 0 < stride }
    requires small_stride { stride ≤ 2 ^ 70 }
    ensures { IsBehind at edge stride result }
{
    let turns = (edge - at).unsigned_abs() / stride;
    at + ((turns + 1) * stride) as i128
}

/// Whether each number of the hull is one of some span's.
pub fn covers(hull: Span, spans: &[Span]) -> bool
    requires small_low { IsSmallEnd hull.low }
    requires small_high { IsSmallEnd hull.high }
    requires stride { IsSmallStride hull.stride }
    requires spans { All IsSmallWhole spans.now }
    ensures { IsTrue result ↔ Covers spans.now hull }
{
    let mut at = hull.low;
    while at <= hull.high {
        let edge = edge_of(spans, at, hull.high);
        if !stretch(spans, at, edge, hull.stride) {
            return false;
        }
        at = behind(at, edge, hull.stride);
    }
    true
}
