//! Numbers at equal distances.

ghost use Rattle.std.specs.Prelude.{◌↔◌, ◌<◌, ◌≤◌, ◌^◌, IsTrue};
ghost use Rattle.std.specs.Int.RustNames.{unsigned_abs};

/// The numbers `low`, `low + stride`, `low + 2 * stride`, and so on up to `high`.
#[derive(Clone, Copy, Debug, PartialEq, Eq)]
pub struct Span {
    pub low: i128,
    pub high: i128,
    pub stride: u128,
}

impl Span {
    ghost use Rattle.species_arcs.specs.Spans.{IsInSpan};

    /// Whether a number is one of the span's.
    pub fn holds(self, number: i128) -> bool
        requires stride { 0 < self.stride }
        requires small_low { unsigned_abs self.low ≤ 2 ^ 120 }
        requires small { unsigned_abs number ≤ 2 ^ 120 }
        ensures { IsTrue result ↔ IsInSpan self number }
    {
        if number < self.low {
            return false;
        }
        if self.high < number {
            return false;
        }
        (number - self.low).unsigned_abs() % self.stride == 0
    }
}
