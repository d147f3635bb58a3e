//! The coordinates of one loop: from which to which they run.

ghost use Rattle.std.specs.Prelude.{◌≡◌, ◌≢◌, ◌<◌, ◌≤◌, ◌^◌, ℤ, pos, ◌*ℤ◌, ◌≤ℤ◌, ◌↔◌};
ghost use Rattle.std.specs.Int.RustNames.{unsigned_abs};
ghost use Rattle.species_linear.specs.Box.{HasSmallEnds};
ghost use Rattle.species_region.specs.Coordinate.{iterator_at, IsCoordinate};
ghost use Rattle.species_banerjee.specs.Span.{IsWithin, Moves};

use species_linear::LoopRange;

/// The coordinates from `first` to `last`; none where `first` is above `last`.
#[derive(Clone, Copy)]
pub(crate) struct Span {
    pub first: i128,
    pub last: i128,
}

/// The least counter whose multiple of `size` is not below `near`.
fn first_counter(near: i128, size: u32) -> i128
    requires { 0 < size }
    ensures { (v : ℤ) → ((pos 0 ≤ℤ v) × (near ≤ℤ (pos size *ℤ v))) ↔ (result ≤ℤ v) }
{
    if near <= 0 {
        return 0;
    }
    let before = (near - 1) as u128;
    (before / size as u128 + 1) as i128
}

/// The greatest counter whose multiple of `size` is not above `far`; -1 where there is none.
fn last_counter(far: i128, size: u32) -> i128
    requires { 0 < size }
    ensures { (v : ℤ) → pos 0 ≤ℤ v → ((pos size *ℤ v) ≤ℤ far) ↔ (v ≤ℤ result) }
{
    if far < 0 {
        return -1;
    }
    (far as u128 / size as u128) as i128
}

/// The counters of a loop with the constant `start`.
fn counters(start: i64, range: LoopRange) -> Span
    requires counted { range.start ≡ Some start }
    requires moves { range.step ≢ pos 0 }
    ensures { (v : ℤ) → IsCoordinate range v ↔ IsWithin result v }
{
    let origin = start as i128;
    let low = range.low as i128;
    let high = range.high as i128;
    let size = range.step.unsigned_abs();
    if range.step > 0 {
        Span {
            first: first_counter(low - origin, size),
            last: last_counter(high - origin, size),
        }
    } else {
        Span {
            first: first_counter(origin - high, size),
            last: last_counter(origin - low, size),
        }
    }
}

/// The coordinates of a loop.
pub(crate) fn span_of(range: LoopRange) -> Span
    requires { Moves range }
    ensures { (v : ℤ) → IsCoordinate range v ↔ IsWithin result v }
{
    match range.start {
        None => Span {
            first: range.low as i128,
            last: range.high as i128,
        },
        Some(start) => counters(start, range),
    }
}

/// The iterator at a coordinate.
pub(crate) fn iterator(range: LoopRange, coordinate: i128) -> i128
    requires inside { IsCoordinate range coordinate }
    requires small { HasSmallEnds range }
    ensures value { result ≡ iterator_at range coordinate }
    ensures size { unsigned_abs result ≤ 2 ^ 40 }
{
    match range.start {
        None => coordinate,
        Some(start) => start as i128 + range.step as i128 * coordinate,
    }
}
