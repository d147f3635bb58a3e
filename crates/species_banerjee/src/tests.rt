//! Worked pairs of subscripts.

ghost use Rattle.std.specs.Prelude.{◌≡◌, ◌≢◌, ◌<◌, ◌≤◌, ◌^◌, pos, IfOk};
ghost use Rattle.std.specs.Int.RustNames.{unsigned_abs};
ghost use Rattle.species_linear.specs.Value.{NamesOnly, HasSmallForm};
ghost use Rattle.species_linear.specs.Box.{HasSmallEnds};

use super::*;
use species_linear::{Term, Terms};
use std::alloc::{AllocError, Global};
use std::test::Fail;

/// The loop that counts from `start` by `step`, with iterators from `low` to `high`.
fn counted(start: i64, low: i64, high: i64, step: i32) -> LoopRange
    requires small_low { unsigned_abs low ≤ 2 ^ 40 }
    requires small_high { unsigned_abs high ≤ 2 ^ 40 }
    requires moves { step ≢ pos 0 }
    ensures small { HasSmallEnds result }
    ensures moves { result.step ≢ pos 0 }
{
    LoopRange {
        low,
        high,
        step,
        start: Some(start),
        fixed: true,
    }
}

/// The loop from 0 to `high`.
fn upto(high: i64) -> LoopRange
    requires { unsigned_abs high ≤ 2 ^ 40 }
    ensures small { HasSmallEnds result }
    ensures moves { result.step ≢ pos 0 }
{
    counted(0, 0, high, 1)
}

/// `outer` * i + `inner` * j + `constant`
fn form(alloc: Global, outer: i128, inner: i128, constant: i128) -> Result<Form, AllocError>
    requires small_outer { unsigned_abs outer < 2 ^ 70 }
    requires small_inner { unsigned_abs inner < 2 ^ 70 }
    requires small_constant { unsigned_abs constant < 2 ^ 70 }
    ensures small { IfOk result HasSmallForm }
    ensures named { IfOk result (λ f. NamesOnly f 2) }
{
    let mut terms = Terms::new(alloc);
    if outer != 0 {
        terms.push(Term {
            level: 0,
            coefficient: outer,
        })?;
    }
    if inner != 0 {
        terms.push(Term {
            level: 1,
            coefficient: inner,
        })?;
    }
    Ok(Form { constant, terms })
}

/// The answers in the directions "less" and "greater" at the level of `i`, with the loop `j` within it.
fn answers(p: &Form, q: &Form, i: LoopRange, j: LoopRange) -> (bool, bool)
    requires small_p { HasSmallForm p.now }
    requires small_q { HasSmallForm q.now }
    requires named_p { NamesOnly p.now 2 }
    requires named_q { NamesOnly q.now 2 }
    requires small_i { HasSmallEnds i }
    requires small_j { HasSmallEnds j }
    requires moves_i { i.step ≢ pos 0 }
    requires moves_j { j.step ≢ pos 0 }
{
    let less = Direction {
        outer: 0,
        level: 0,
        less: true,
    };
    let greater = Direction {
        less: false,
        ..less
    };
    let path = [i, j];
    (
        excluded(p, q, &less, &path, &path),
        excluded(p, q, &greater, &path, &path),
    )
}

/// Whether there is no pair in the direction "less" at the level of `i`.
fn is_empty(i: LoopRange, j: LoopRange) -> bool
    requires small_i { HasSmallEnds i }
    requires small_j { HasSmallEnds j }
    requires moves_i { i.step ≢ pos 0 }
    requires moves_j { j.step ≢ pos 0 }
{
    let at = Direction {
        outer: 0,
        level: 0,
        less: true,
    };
    region_empty(&at, &[i, j], &[i, j])
}

#[test]
fn one_loop(rt: HostRuntime) -> Result<(), Fail> {
    let plain = form(rt.alloc(), 1, 0, 0)?;
    let ahead = form(rt.alloc(), 1, 0, 64)?;
    let far = form(rt.alloc(), 1, 0, 1073741824)?;
    let even = form(rt.alloc(), 2, 0, 0)?;
    let odd = form(rt.alloc(), 2, 0, 1)?;
    let fours = form(rt.alloc(), 4, 0, 0)?;
    let j = upto(0);
    assert_eq!(rt; answers(&even, &odd, upto(63), j), (true, true));
    assert_eq!(rt; answers(&plain, &ahead, upto(63), j), (true, true));
    assert_eq!(rt; answers(&plain, &ahead, upto(64), j), (true, false));
    // 4 * 1 - 2 * 2 - 1 is negative, and 4 * 2 - 2 * 3 - 1 positive; but 4 * x is above 2 * y + 1 wherever x is above y
    assert_eq!(rt; answers(&fours, &odd, upto(63), j), (false, true));
    // 2^30 turns, at once
    assert_eq!(rt; answers(&plain, &far, upto(1073741823), j), (true, true));
    Ok(())
}

#[test]
fn steps_and_starts(rt: HostRuntime) -> Result<(), Fail> {
    let plain = form(rt.alloc(), 1, 0, 0)?;
    let next = form(rt.alloc(), 1, 0, 1)?;
    let inner = form(rt.alloc(), 0, 1, 0)?;
    let inner_ahead = form(rt.alloc(), 0, 1, 64)?;
    let j = upto(0);
    assert_eq!(rt; answers(&plain, &next, upto(63), j), (true, false));
    // downwards, the lesser counter has the greater iterator
    assert_eq!(rt;
        answers(&plain, &next, counted(63, 0, 63, -1), j),
        (false, true)
    );
    // by 2, two iterators are never 1 apart
    assert_eq!(rt;
        answers(&plain, &next, counted(0, 0, 62, 2), j),
        (true, true)
    );
    // a loop whose start is no constant, within
    let triangular = LoopRange {
        start: None,
        ..upto(63)
    };
    assert_eq!(rt;
        answers(&inner, &inner_ahead, upto(63), triangular),
        (true, true)
    );
    assert_eq!(rt;
        answers(&inner, &inner, upto(63), triangular),
        (false, false)
    );
    Ok(())
}

#[test]
fn empty_regions(rt: HostRuntime) -> Result<(), Fail> {
    let plain = form(rt.alloc(), 1, 0, 0)?;
    assert_eq!(rt; is_empty(upto(1), upto(0)), false);
    // one turn, an empty range, an empty range within
    assert_eq!(rt; is_empty(upto(0), upto(0)), true);
    assert_eq!(rt; is_empty(upto(-1), upto(0)), true);
    assert_eq!(rt; is_empty(upto(1), upto(-1)), true);
    assert_eq!(rt; answers(&plain, &plain, upto(1), upto(-1)), (true, true));
    Ok(())
}
