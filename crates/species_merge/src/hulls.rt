//! The hull of spans.

ghost use Rattle.std.specs.Prelude.{◌≡◌, ◌⊎◌, ◌<◌, ◌≤◌, ◌^◌, ◌≤ℤ◌, ◌-ℤ◌, All, length, if◌then◌else◌};
ghost use Rattle.std.specs.Int.{IsGcd};
ghost use Rattle.std.specs.Int.RustNames.{unsigned_abs};
ghost use Rattle.std.specs.Ordering.{int_eq};
ghost use Rattle.species_merge.specs.Hulls.{own_stride, IsHullOf};
ghost use Rattle.species_merge.specs.Reaches.{IsSmallEnd, IsSmallSpan, AreNext, IsFirst};

use species_arcs::Span;

/// The least and the greatest number so far, and the greatest common divisor of the ways between numbers;
/// it is 0 while there is one number.
#[derive(Clone, Copy, Debug)]
pub(crate) struct Reach {
    low: i128,
    high: i128,
    divisor: u128,
}

/// The greatest common divisor.
pub(crate) fn gcd(a: u128, b: u128) -> u128
    ensures { IsGcd a b result }
{
    let mut x = a;
    let mut y = b;
    while y != 0 {
        let rest = x % y;
        x = y;
        y = rest;
    }
    x
}

/// The stride of a span, and 0 where it has one number.
fn own_stride(span: Span) -> u128
    ensures { result ≡ own_stride span }
{
    if span.low == span.high {
        0
    } else {
        span.stride
    }
}

/// How far it is from one number to another.
pub(crate) fn way(from: i128, to: i128) -> u128
    requires small_from { IsSmallEnd from }
    requires small_to { IsSmallEnd to }
    ensures { result ≡ unsigned_abs (to -ℤ from) }
{
    (to - from).unsigned_abs()
}

pub(crate) fn lesser(a: i128, b: i128) -> i128
    ensures { (result ≤ℤ a) × (result ≤ℤ b) × ((result ≡ a) ⊎ (result ≡ b)) }
{
    if b < a { b } else { a }
}

fn greater(a: i128, b: i128) -> i128
    ensures { (a ≤ℤ result) × (b ≤ℤ result) × ((result ≡ a) ⊎ (result ≡ b)) }
{
    if a < b { b } else { a }
}

/// With one span more.
fn next(reach: Reach, span: Span) -> Reach
    requires small_low { IsSmallEnd reach.low }
    requires small_span { IsSmallEnd span.low }
    ensures next { AreNext reach span result }
{
    let divisor = gcd(
        gcd(reach.divisor, way(reach.low, span.low)),
        own_stride(span),
    );
    Reach {
        low: lesser(reach.low, span.low),
        high: greater(reach.high, span.high),
        divisor,
    }
}

/// With one span.
fn first(span: Span) -> Reach
    ensures first { IsFirst span result }
{
    Reach {
        low: span.low,
        high: span.high,
        divisor: own_stride(span),
    }
}

fn finish(reach: Reach) -> Span
    ensures { result ≡ record { low = reach.low; high = reach.high; stride = if int_eq reach.low reach.high then 1 else reach.divisor } }
{
    Span {
        low: reach.low,
        high: reach.high,
        stride: if reach.low == reach.high {
            1
        } else {
            reach.divisor
        },
    }
}

/// The hull of spans: from the least number to the greatest, with the greatest stride that goes from the
/// least one through each number of each span.
pub fn hull(spans: &[Span]) -> Span
    requires some { 0 < length spans.now }
    requires small { All IsSmallSpan spans.now }
    ensures { IsHullOf spans.now result }
{
    let mut reach = first(spans[0]);
    for index in 1..spans.len() {
        reach = next(reach, spans[index]);
    }
    finish(reach)
}
