//! Worked pairs of subscripts.

ghost use Rattle.std.specs.Prelude.{◌≡◌, ◌≢◌, ◌<◌, ◌≤◌, ◌^◌, pos, IfOk};
ghost use Rattle.std.specs.Int.RustNames.{unsigned_abs};
ghost use Rattle.species_linear.specs.Value.{NamesOnly, HasSmallForm};
ghost use Rattle.species_linear.specs.Box.{HasSmallEnds};

use super::*;
use species_linear::{Term, Terms};
use std::alloc::{AllocError, Global};
use std::test::Fail;

/// The loop that counts from `start` by `step`, with iterators from `low` to `high`.
fn counted(start: i64, low: i64, high: i64, step: i32) -> LoopRange
    requires small_low { unsigned_abs low ≤ 2 ^ 40 }
    requires small_high { unsigned_abs high ≤ 2 ^ 40 }
    requires moves { step ≢ pos 0 }
    ensures small { HasSmallEnds result }
    ensures moves { result.step ≢ pos 0 }
{
    LoopRange {
        low,
        high,
        step,
        start: Some(start),
        fixed: true,
    }
}

/// The loop from 0 to `high`.
fn upto(high: i64) -> LoopRange
    requires { unsigned_abs high ≤ 2 ^ 40 }
    ensures small { HasSmallEnds result }
    ensures moves { result.step ≢ pos 0 }
{
    counted(0, 0, high, 1)
}

/// `outer` * i + `inner` * j + `constant`
fn form(alloc: Global, outer: i128, inner: i128, constant: i128) -> Result<Form, AllocError>
    requires small_outer { unsigned_abs outer < 2 ^ 70 }
    requires small_inner { unsigned_abs inner < 2 ^ 70 }
    requires small_constant { unsigned_abs constant < 2 ^ 70 }
    ensures small { IfOk result HasSmallForm }
    ensures named { IfOk result (λ f. NamesOnly f 2) }
{
    let mut terms = Terms::new(alloc);
    if outer != 0 {
        terms.push(Term {
            level: 0,
            coefficient: outer,
        })?;
    }
    if inner != 0 {
        terms.push(Term {
            level: 1,
            coefficient: inner,
        })?;
    }
    Ok(Form { constant, terms })
}

/// The answer in the direction "less" at the level of `i`, with the loop `j` within it.
fn answer(p: &Form, q: &Form, i: LoopRange, j: LoopRange) -> bool
    requires small_p { HasSmallForm p.now }
    requires small_q { HasSmallForm q.now }
    requires named_p { NamesOnly p.now 2 }
    requires named_q { NamesOnly q.now 2 }
    requires small_i { HasSmallEnds i }
    requires small_j { HasSmallEnds j }
    requires moves_i { i.step ≢ pos 0 }
    requires moves_j { j.step ≢ pos 0 }
{
    let at = Direction {
        outer: 0,
        level: 0,
        less: true,
    };
    divides(p, q, &at, &[i, j], &[i, j])
}

/// The answer in the direction "less" at the level of `j`, where both share `i`.
fn answer_below(p: &Form, q: &Form, i: LoopRange, j: LoopRange) -> bool
    requires small_p { HasSmallForm p.now }
    requires small_q { HasSmallForm q.now }
    requires named_p { NamesOnly p.now 2 }
    requires named_q { NamesOnly q.now 2 }
    requires small_i { HasSmallEnds i }
    requires small_j { HasSmallEnds j }
    requires moves_i { i.step ≢ pos 0 }
    requires moves_j { j.step ≢ pos 0 }
{
    let at = Direction {
        outer: 1,
        level: 0,
        less: true,
    };
    divides(p, q, &at, &[i, j], &[i, j])
}

#[test]
fn one_loop(rt: HostRuntime) -> Result<(), Fail> {
    let even = form(rt.alloc(), 2, 0, 0)?;
    let odd = form(rt.alloc(), 2, 0, 1)?;
    let fours = form(rt.alloc(), 4, 0, 0)?;
    let plain = form(rt.alloc(), 1, 0, 0)?;
    let ahead = form(rt.alloc(), 1, 0, 64)?;
    let zero = form(rt.alloc(), 0, 0, 0)?;
    let five = form(rt.alloc(), 0, 0, 5)?;
    let i = upto(63);
    assert_eq!(rt; answer(&even, &odd, i, i), false);
    assert_eq!(rt; answer(&fours, &odd, i, i), false);
    assert_eq!(rt; answer(&fours, &even, i, i), true);
    assert_eq!(rt; answer(&plain, &ahead, i, i), true);
    assert_eq!(rt; answer(&zero, &zero, i, i), true);
    assert_eq!(rt; answer(&zero, &five, i, i), false);
    // one turn, and an empty range: the coefficients count all the same
    assert_eq!(rt; answer(&even, &odd, upto(0), i), false);
    assert_eq!(rt; answer(&even, &odd, upto(-1), i), false);
    Ok(())
}

#[test]
fn steps_and_starts(rt: HostRuntime) -> Result<(), Fail> {
    let plain = form(rt.alloc(), 1, 0, 0)?;
    let next = form(rt.alloc(), 1, 0, 1)?;
    let plus_two = form(rt.alloc(), 1, 0, 2)?;
    let triple = form(rt.alloc(), 3, 0, 0)?;
    let i = upto(63);
    // i counts by 2, up or down: i and i + 1 are never equal, i and 3 * i may be
    assert_eq!(rt; answer(&plain, &next, counted(1, 1, 63, 2), i), false);
    assert_eq!(rt; answer(&plain, &next, counted(63, 1, 63, -2), i), false);
    assert_eq!(rt; answer(&plain, &triple, counted(1, 1, 63, 2), i), true);
    // i = 1 + 4 * k: 3 * i and i + 2 are 3 more than a multiple of 4, and i is 1 more
    assert_eq!(rt; answer(&plain, &triple, counted(1, 1, 61, 4), i), false);
    assert_eq!(rt; answer(&plus_two, &triple, counted(1, 1, 61, 4), i), true);
    // a loop with no constant start counts by its own value, whatever its step
    let triangular = LoopRange {
        start: None,
        fixed: false,
        ..counted(1, 1, 63, 2)
    };
    assert_eq!(rt; answer(&plain, &next, triangular, i), true);
    Ok(())
}

#[test]
fn shared_and_free_levels(rt: HostRuntime) -> Result<(), Fail> {
    // 3 * i + 2 * j and i + 2 * j + 1, with i shared: 2 * i + 2 * j - 2 * j' = 1 has no solution
    let first = form(rt.alloc(), 3, 2, 0)?;
    let second = form(rt.alloc(), 1, 2, 1)?;
    let i = upto(63);
    assert_eq!(rt; answer_below(&first, &second, i, i), false);
    // with two values of i: 3 * i - i' + 2 * j - 2 * j' = 1 has
    assert_eq!(rt; answer(&first, &second, i, i), true);
    Ok(())
}
