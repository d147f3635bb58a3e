//! The two loops of one level, and the extremes of what the level adds to the difference.

ghost use Rattle.std.specs.Prelude.{◌≡◌, ◌<◌, ◌≤◌, ◌^◌, ◌+ℤ◌, ◌≤ℤ◌, ◌↔◌, ◌⊎◌, IsTrue};
ghost use Rattle.std.specs.Int.RustNames.{unsigned_abs};
ghost use Rattle.species_linear.specs.Box.{IsLeastOver, IsGreatestOver};
ghost use Rattle.species_banerjee.specs.Spread.{AreSpread};
ghost use Rattle.species_banerjee.specs.Entry.{entry_at};
ghost use Rattle.species_banerjee.specs.LoopPair.{loop_pair_at, Allows, IsOpen, gap_of, IsUsable, AreCorners};

use crate::spans::{iterator, span_of};
use species_linear::{Direction, LoopRange};
use species_region::{level_of, range_or_zero};

/// An entry of a direction vector: what it asks of the coordinates of two iterations at one level.
#[derive(Clone, Copy)]
pub(crate) enum Entry {
    /// They are equal.
    Equal,
    /// The first is below the second.
    Less,
    /// The first is above the second.
    Greater,
    /// Nothing.
    Any,
}

/// The loops of one level around the two references.
#[derive(Clone, Copy)]
pub(crate) struct LoopPair {
    pub entry: Entry,
    pub first: LoopRange,
    pub second: LoopRange,
}

/// A pair of coordinates.
#[derive(Clone, Copy)]
struct Corner {
    first: i128,
    second: i128,
}

fn entry_at(at: &Direction, level: usize) -> Entry
    ensures { result ≡ entry_at at.now level }
{
    let differs_at = level_of(at);
    if level < differs_at {
        Entry::Equal
    } else if level == differs_at {
        if at.less { Entry::Less } else { Entry::Greater }
    } else {
        Entry::Any
    }
}

pub(crate) fn loop_pair_at(
    at: &Direction,
    p_path: &[LoopRange],
    q_path: &[LoopRange],
    level: usize,
) -> LoopPair
    ensures { result ≡ loop_pair_at at.now p_path.now q_path.now level }
{
    LoopPair {
        entry: entry_at(at, level),
        first: range_or_zero(p_path, level),
        second: range_or_zero(q_path, level),
    }
}

/// Whether the loops have a pair of coordinates as the entry asks.
pub(crate) fn is_open(loops: LoopPair) -> bool
    requires { IsUsable loops }
    ensures { IsTrue result ↔ IsOpen loops }
{
    let s = span_of(loops.first);
    let t = span_of(loops.second);
    match loops.entry {
        Entry::Equal => s.first <= s.last,
        Entry::Less => s.first < s.last,
        Entry::Greater => s.first < s.last,
        Entry::Any => s.first <= s.last && t.first <= t.last,
    }
}

/// Four pairs of coordinates at which the extremes of any difference are taken.
#[derive(Clone, Copy)]
struct Corners {
    near: Corner,
    low: Corner,
    high: Corner,
    far: Corner,
}

fn corners_of(loops: LoopPair) -> Corners
    requires usable { IsUsable loops }
    requires inhabited { IsOpen loops }
    ensures { AreCorners loops (result.near.first, result.near.second) (result.low.first, result.low.second)
        (result.high.first, result.high.second) (result.far.first, result.far.second) }
{
    let s = span_of(loops.first);
    let t = span_of(loops.second);
    match loops.entry {
        Entry::Equal => {
            let near = Corner {
                first: s.first,
                second: s.first,
            };
            let far = Corner {
                first: s.last,
                second: s.last,
            };
            Corners {
                near,
                low: near,
                high: far,
                far,
            }
        }
        Entry::Less => {
            let wide = Corner {
                first: s.first,
                second: s.last,
            };
            Corners {
                near: Corner {
                    first: s.first,
                    second: s.first + 1,
                },
                low: wide,
                high: wide,
                far: Corner {
                    first: s.last - 1,
                    second: s.last,
                },
            }
        }
        Entry::Greater => {
            let wide = Corner {
                first: s.last,
                second: s.first,
            };
            Corners {
                near: Corner {
                    first: s.first + 1,
                    second: s.first,
                },
                low: wide,
                high: wide,
                far: Corner {
                    first: s.last,
                    second: s.last - 1,
                },
            }
        }
        Entry::Any => Corners {
            near: Corner {
                first: s.first,
                second: t.first,
            },
            low: Corner {
                first: s.first,
                second: t.last,
            },
            high: Corner {
                first: s.last,
                second: t.first,
            },
            far: Corner {
                first: s.last,
                second: t.last,
            },
        },
    }
}

/// What the level adds to the difference at a pair of coordinates.
fn gap(loops: LoopPair, a: i128, b: i128, at: Corner) -> i128
    requires usable { IsUsable loops }
    requires small_a { unsigned_abs a < 2 ^ 70 }
    requires small_b { unsigned_abs b < 2 ^ 70 }
    requires allowed { Allows loops (at.first, at.second) }
    ensures { result ≡ gap_of loops a b (at.first, at.second) }
{
    a * iterator(loops.first, at.first) - b * iterator(loops.second, at.second)
}

/// The lesser of two numbers.
fn lesser(first: i128, second: i128) -> i128
    ensures below { (result ≤ℤ first) × (result ≤ℤ second) }
    ensures one { (first ≡ result) ⊎ (second ≡ result) }
{
    if second < first { second } else { first }
}

/// The greater of two numbers.
fn greater(first: i128, second: i128) -> i128
    ensures above { (first ≤ℤ result) × (second ≤ℤ result) }
    ensures one { (first ≡ result) ⊎ (second ≡ result) }
{
    if first < second { second } else { first }
}

/// The least and the greatest of some numbers.
#[derive(Clone, Copy)]
pub(crate) struct Extremes {
    pub least: i128,
    pub greatest: i128,
}

fn spread(first: i128, second: i128, third: i128, last: i128) -> Extremes
    ensures { AreSpread first second third last result.least result.greatest }
{
    Extremes {
        least: lesser(lesser(first, second), lesser(third, last)),
        greatest: greater(greater(first, second), greater(third, last)),
    }
}

/// The extremes over the pairs of coordinates that the entry allows. They are taken at its corners.
pub(crate) fn extremes_of(loops: LoopPair, a: i128, b: i128) -> Extremes
    requires usable { IsUsable loops }
    requires inhabited { IsOpen loops }
    requires small_a { unsigned_abs a < 2 ^ 70 }
    requires small_b { unsigned_abs b < 2 ^ 70 }
    ensures least { IsLeastOver (Allows loops) (gap_of loops a b) result.least }
    ensures greatest { IsGreatestOver (Allows loops) (gap_of loops a b) result.greatest }
    ensures small { (unsigned_abs result.least ≤ 2 ^ 112) × (unsigned_abs result.greatest ≤ 2 ^ 112) }
{
    let at = corners_of(loops);
    spread(
        gap(loops, a, b, at.near),
        gap(loops, a, b, at.low),
        gap(loops, a, b, at.high),
        gap(loops, a, b, at.far),
    )
}
