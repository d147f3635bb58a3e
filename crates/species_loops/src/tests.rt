//! Ranges and limits of loops, perfect nests and weights, with ample memory.
mod trees;

ghost use Rattle.std.specs.Prelude.{◌≡◌, true, IfOk, IfSome};
ghost use Rattle.species_linear.specs.Point.{IsShort};
ghost use Rattle.species_linear.specs.Box.{HasSmallEnds, HasSmallPath};
ghost use Rattle.species_loops.specs.Bounds.{IsAffine};

use crate::front::perfect_depth;
use crate::{Path, bounds_fit, range_of, weight};
use species_affine::{Subscript, form_of};
use species_ast::{Expr, Loop, OutOfMemory, Stmt, Test};
use species_linear::LoopRange;
use std::alloc::Global;
use std::test::Fail;
use trees::{Header, loops, unit};

// ---- ranges

fn is_affine(alloc: Global, e: &Expr) -> Result<bool, OutOfMemory>
    ensures { IfOk result (λ yes. yes ≡ true → IsAffine e.now) }
{
    match form_of(alloc, e)? {
        Subscript::Affine(_) => Ok(true),
        Subscript::Other => Ok(false),
    }
}

/// The range of a loop in loops with these ranges, if its bounds fit.
fn range(alloc: Global, head: &Loop, path: &[LoopRange]) -> Result<Option<LoopRange>, OutOfMemory>
    requires short { IsShort path.now }
    requires ends { HasSmallPath path.now }
    ensures { IfOk result (λ r. IfSome r HasSmallEnds) }
{
    let start = is_affine(alloc, &head.start)?;
    let limit = is_affine(alloc, &head.limit)?;
    if start && limit && bounds_fit(head, path) {
        return Ok(Some(range_of(alloc, head, path)?));
    }
    Ok(None)
}

/// The range of the innermost of loops that stand in one another, if its bounds fit.
fn innermost(alloc: Global, headers: &[Header]) -> Result<Option<LoopRange>, OutOfMemory> {
    let all = loops(alloc, headers)?;
    let mut path = Path::new(alloc);
    let mut last = None;
    for head in all.as_slice() {
        last = range(alloc, head, path.as_slice())?;
        if let Some(range) = last {
            path.enter(range)?;
        }
    }
    Ok(last)
}

/// Loops that stand in one another, and of the innermost the low and the high end, the start where it
/// is a constant, and whether the limit is one.
static RANGES: [(&[Header], i64, i64, Option<i64>, bool); 15] = [
    (&[("1 ", Test::Lt, "63 ", 1)], 1, 62, Some(1), true),
    // the far end is moved to the last value that is taken, upward and downward
    (&[("0 ", Test::Lt, "64 ", 5)], 0, 60, Some(0), true),
    (&[("63 ", Test::Ge, "0 ", -2)], 1, 63, Some(63), true),
    (&[("9 ", Test::Gt, "0 ", -3)], 3, 9, Some(9), true),
    // an empty range is left as it is
    (&[("0 ", Test::Lt, "0 ", 1)], 0, -1, Some(0), true),
    (&[("0 ", Test::Gt, "5 ", -4)], 6, 0, Some(0), true),
    // in an empty one a constant range is found, and any other goes from 1 to 0
    (
        &[("0 ", Test::Lt, "0 ", 1), ("0 ", Test::Le, "10 ", 4)],
        0,
        8,
        Some(0),
        true,
    ),
    (
        &[("0 ", Test::Lt, "0 ", 1), ("i", Test::Lt, "64 ", 1)],
        1,
        0,
        None,
        true,
    ),
    // triangles
    (
        &[("0 ", Test::Lt, "64 ", 1), ("i", Test::Lt, "64 ", 1)],
        0,
        63,
        None,
        true,
    ),
    (
        &[("0 ", Test::Lt, "64 ", 1), ("0 ", Test::Le, "i", 7)],
        0,
        63,
        Some(0),
        false,
    ),
    // a start that falls and a limit that rises, and both downward
    (
        &[("2 ", Test::Le, "9 ", 1), ("10 i-", Test::Lt, "2 i*", 1)],
        1,
        17,
        None,
        false,
    ),
    (
        &[("2 ", Test::Le, "9 ", 1), ("i2 *", Test::Gt, "i", -3)],
        3,
        18,
        None,
        false,
    ),
    // each extreme at another corner
    (
        &[
            ("0 ", Test::Lt, "10 ", 1),
            ("0 ", Test::Lt, "5 ", 1),
            ("ij-", Test::Le, "ij+", 1),
        ],
        -4,
        13,
        None,
        false,
    ),
    // iterators that cancel out
    (
        &[("0 ", Test::Lt, "64 ", 1), ("ii-4 +", Test::Lt, "10 ", 4)],
        4,
        8,
        Some(4),
        true,
    ),
    // the greatest ends
    (
        &[("1073741824 ", Test::Ge, "1073741824 n", -65536)],
        -1073741824,
        1073741824,
        Some(1073741824),
        true,
    ),
];

#[test]
fn ranges_of_loops(rt: HostRuntime) -> Result<(), Fail> {
    for (headers, low, high, start, fixed) in &RANGES {
        let want = LoopRange {
            low: *low,
            high: *high,
            step: headers.last().map_or(0, |h| h.3),
            start: *start,
            fixed: *fixed,
        };
        assert_eq!(rt; innermost(rt.alloc(), headers)?, Some(want));
    }
    Ok(())
}

// ---- limits

/// Loops that stand in one another, and whether the bounds of the innermost fit.
static LIMITS: [(&[Header], bool); 13] = [
    (&[("1073741824 ", Test::Le, "1073741824 ", 1)], true),
    (&[("1073741825 ", Test::Le, "1073741825 ", 1)], false),
    // the last value counts and not the limit
    (&[("0 ", Test::Lt, "1073741825 ", 1)], true),
    (&[("0 ", Test::Gt, "1073741825 n", -1)], true),
    (&[("0 ", Test::Gt, "1073741826 n", -1)], false),
    // every corner counts
    (
        &[
            ("0 ", Test::Le, "1073741824 ", 1),
            ("i1 +", Test::Le, "9 ", 1),
        ],
        false,
    ),
    (
        &[
            ("0 ", Test::Le, "1073741824 ", 1),
            ("1 i-", Test::Le, "9 ", 1),
        ],
        true,
    ),
    // in an empty range there are no values
    (
        &[
            ("0 ", Test::Lt, "0 ", 1),
            ("0 ", Test::Le, "1073741825 ", 1),
        ],
        true,
    ),
    // each part counts with the sizes of its own parts
    (&[("1073741824 1073741823 -", Test::Lt, "9 ", 1)], true),
    (&[("1073741824 1073741824 -", Test::Lt, "9 ", 1)], false),
    (
        &[
            ("5 n", Test::Lt, "4 ", 1),
            ("214748364 i*214748364 i*-", Test::Lt, "9 ", 1),
        ],
        true,
    ),
    (
        &[
            ("5 n", Test::Lt, "4 ", 1),
            ("214748365 i*214748365 i*-", Test::Lt, "9 ", 1),
        ],
        false,
    ),
    (
        &[
            ("0 ", Test::Lt, "0 ", 1),
            ("2147483647 2147483647 -", Test::Lt, "9 ", 1),
        ],
        false,
    ),
];

#[test]
fn limits_on_bounds(rt: HostRuntime) -> Result<(), Fail> {
    for (headers, want) in &LIMITS {
        assert_eq!(rt; innermost(rt.alloc(), headers)?.is_some(), *want);
    }
    Ok(())
}

// ---- perfect nests

/// The perfect depth of the last loop of a list, or 0 where there is none.
fn depth(body: &[Stmt], level: u32) -> u32 {
    match body.last() {
        Some(Stmt::For(head)) => perfect_depth(head, level),
        _ => 0,
    }
}

/// A loop, its level, and how many loops from it on are perfectly nested and name none of their iterators.
static DEPTHS: [(&str, u32, u32); 15] = [
    ("0 64 S1F", 0, 1),
    ("0 64 0F", 0, 1),
    ("1 63 1 63 S1F1F", 0, 2),
    ("0 4096 0 4096 0 4096 0 4096 S1F1F1F1F", 0, 4),
    // a list of more statements, in the outermost and in an inner loop
    ("0 64 S0 128 S1FS3F", 0, 1),
    ("0 64 0 64 S0 64 S1F2F1F", 0, 2),
    // triangles, one of which cancels out
    ("0 64 i64 S1F1F", 0, 1),
    ("0 64 0 iS1F1F", 0, 1),
    ("0 64 0 ii-S1F1F", 0, 1),
    // a bound that names the first of three, and one that names the second
    ("0 64 0 64 i64 S1F1F1F", 0, 2),
    ("0 64 0 64 0 jS1F1F1F", 0, 2),
    // an iterator outside
    ("0 iiiS1F1F", 1, 2),
    ("0 ijiS1F1F", 1, 1),
    // blocks are looked through, and branches are not
    ("0 64 0 64 S1F1B1B1F", 0, 2),
    ("0 64 0 64 S1F1W1F", 0, 1),
];

#[test]
fn perfectly_nested_loops(rt: HostRuntime) -> Result<(), Fail> {
    for (codes, level, want) in &DEPTHS {
        let unit = unit(rt.alloc(), codes)?;
        assert_eq!(rt; depth(unit.body.as_slice(), *level), *want, "{codes}");
    }
    Ok(())
}

// ---- weights

/// Units, and the turns of their loops.
static WEIGHTS: [(&str, u128); 15] = [
    ("S", 0),
    ("0 64 S1F", 64),
    ("0 10 S1G", 4),
    ("0 0 S1F", 0),
    ("0 1 S1F", 1),
    // a loop that has no turn counts as a statement, and so does all that is in it
    ("0 4 0 0 S1F1F", 4),
    ("0 0 0 4 S1F1F", 0),
    // loops beside each other, in a list and in branches
    ("0 64 S0 128 S1FS3F", 8192),
    ("0 10 1 63 S1F1 63 S1F2F", 1240),
    ("0 4 S1F0 5 S1F2J0 3 S1F", 12),
    // a triangle counts as a square
    ("0 64 i64 S1F1F", 4096),
    ("0 64 0 64 S0 64 S1F2F1F", 262144),
    ("0 4096 0 4096 0 4096 0 4096 S1F1F1F1F", 281474976710656),
    // just below the greatest weight, and past it
    (
        "0 1073741824 0 1073741824 0 1073741824 0 1023 S1F1F1F1F",
        1266412660188944021221804081152,
    ),
    (
        "0 1073741824 0 1073741824 0 1073741824 0 1025 S1F1F1F1F",
        1267650600228229401496703205376,
    ),
];

#[test]
fn weights_of_units(rt: HostRuntime) -> Result<(), Fail> {
    for (codes, want) in &WEIGHTS {
        let unit = unit(rt.alloc(), codes)?;
        assert_eq!(rt; weight(rt.alloc(), &unit)?, *want, "{codes}");
    }
    Ok(())
}
