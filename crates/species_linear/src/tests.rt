//! Worked values.

ghost use Rattle.std.specs.Prelude.{◌≡◌, ◌<◌, ◌^◌, IfOk};
ghost use Rattle.std.specs.Int.RustNames.{unsigned_abs};
ghost use Rattle.species_linear.specs.Value.{NamesOnly, HasSmallForm};

use super::*;
use std::alloc::{AllocError, Global};
use std::test::Fail;

/// 2^70 - 1
const LARGEST: i128 = 1180591620717411303423;

/// 2^40
const FARTHEST: i64 = 1099511627776;

fn range(low: i64, high: i64) -> LoopRange
    ensures low { result.low ≡ low }
    ensures high { result.high ≡ high }
{
    LoopRange {
        low,
        high,
        step: 1,
        start: None,
        fixed: false,
    }
}

fn constant(alloc: Global, constant: i128) -> Form
    requires { unsigned_abs constant < 2 ^ 70 }
    ensures small { HasSmallForm result }
    ensures named { NamesOnly result 0 }
{
    Form {
        constant,
        terms: Terms::new(alloc),
    }
}

/// 5 + 3 a - 2 c, for the iterators a, b, c
fn two_signs(alloc: Global) -> Result<Form, AllocError>
    ensures small { IfOk result HasSmallForm }
    ensures named { IfOk result (λ f. NamesOnly f 3) }
{
    let mut terms = Terms::new(alloc);
    terms.push(Term {
        level: 0,
        coefficient: 3,
    })?;
    terms.push(Term {
        level: 2,
        coefficient: -2,
    })?;
    Ok(Form { constant: 5, terms })
}

/// The largest constant, and the largest coefficient at each of 16 levels.
fn largest(alloc: Global) -> Result<Form, AllocError>
    ensures small { IfOk result HasSmallForm }
    ensures named { IfOk result (λ f. NamesOnly f 16) }
{
    let mut terms = Terms::new(alloc);
    for level in 0..16 {
        terms.push(Term {
            level,
            coefficient: LARGEST,
        })?;
    }
    Ok(Form {
        constant: LARGEST,
        terms,
    })
}

#[test]
fn constants(rt: HostRuntime) {
    let form = constant(rt.alloc(), -7);
    assert_eq!(rt; value(&form, &[]), -7);
    assert_eq!(rt; least(&form, &[]), -7);
    assert_eq!(rt; greatest(&form, &[]), -7);
}

#[test]
fn terms_of_both_signs(rt: HostRuntime) -> Result<(), Fail> {
    let form = two_signs(rt.alloc())?;
    let path = [range(-3, 4), range(1, 1), range(2, 9)];
    assert_eq!(rt; value(&form, &[10, 7, -4]), 43);
    assert_eq!(rt; least(&form, &path), -22);
    assert_eq!(rt; greatest(&form, &path), 13);
    Ok(())
}

#[test]
fn largest_numbers(rt: HostRuntime) -> Result<(), Fail> {
    let form = largest(rt.alloc())?;
    let path = [range(-FARTHEST, FARTHEST); 16];
    let far = (1 << 114) + (1 << 70) - (1 << 44) - 1;
    assert_eq!(rt; value(&form, &[FARTHEST; 16]), far);
    assert_eq!(rt; greatest(&form, &path), far);
    assert_eq!(rt; least(&form, &path), (1 << 70) + (1 << 44) - (1 << 114) - 1);
    Ok(())
}

#[test]
fn ranges_from_a_list_and_back(rt: HostRuntime) -> Result<(), Fail> {
    let mut ranges = Ranges::new(rt.alloc());
    ranges.push(range(1, 2))?;
    ranges.push(range(3, 0))?;
    assert_eq!(rt; ranges.as_slice(), [range(1, 2), range(3, 0)].as_slice());
    let list = Vec::from(ranges);
    assert_eq!(rt; list.len(), 2);
    let again = Ranges::from(list);
    assert_eq!(rt; again.as_slice().len(), 2);
    Ok(())
}
