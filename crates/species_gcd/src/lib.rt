//! The GCD test: whether the difference of two affine subscripts can be 0 for whole numbers at all.
//!
//! The difference is a constant plus whole multiples of coordinates (`species_region`). Where the greatest
//! common divisor of the coefficients does not divide the constant, no whole numbers make it 0.
#![tactic(auto)]

ghost use Rattle.std.specs.Prelude.{◌≡◌, ◌≢◌, ◌≤◌, ◌<◌, ◌^◌, ◌+ℤ◌, ◌-ℤ◌, ◌*ℤ◌, ◌↔◌, ℕ, pos, IsTrue, IsSome};
ghost use Rattle.std.specs.Bool.{OnFalse};
ghost use Rattle.std.specs.Int.{◌∣◌, IsGcd};
ghost use Rattle.std.specs.Int.RustNames.{unsigned_abs, int_rem};
ghost use Rattle.species_region.specs.Coordinate.{origin_of, unit_of};
ghost use Rattle.species_region.specs.Region.{NeverMeet};
ghost use Rattle.species_region.specs.Asked.{ShareLoops, IsSmallPath, IsFormOver};
ghost use Rattle.species_gcd.specs.Divisor.{DividesDifference, DividesLevel};

use species_linear::{Direction, Form, LoopRange};
use species_region::{coefficient, level_of, range_or_zero};

#[cfg(test)]
mod tests;

/// The greatest common divisor, by Euclid.
fn gcd(a: u128, b: u128) -> u128
    ensures { IsGcd a b result }
{
    let mut x = a;
    let mut y = b;
    while y != 0 {
        let r = x % y;
        x = y;
        y = r;
    }
    x
}

/// What one more in the coordinate adds to the iterator.
fn unit(range: LoopRange) -> i32
    ensures { result ≡ unit_of range }
{
    match range.start {
        None => 1,
        Some(_) => range.step,
    }
}

/// The origin of a loop up to whole units: no further from 0 than a unit.
fn residue(range: LoopRange) -> i128
    requires { IsSome range.start → range.step ≢ pos 0 }
    ensures value { result ≡ int_rem (origin_of range) (unit_of range) }
    ensures small { unsigned_abs result ≤ 2 ^ 31 }
{
    match range.start {
        None => 0,
        Some(start) => start as i128 % range.step as i128,
    }
}

/// The size of a coefficient of a coordinate.
fn scaled_size(coefficient: i128, range: LoopRange) -> u128
    requires { unsigned_abs coefficient ≤ 2 ^ 71 }
    ensures { result ≡ unsigned_abs (coefficient *ℤ unit_of range) }
{
    (coefficient * unit(range) as i128).unsigned_abs()
}

/// The greatest common divisor of the coefficients of one level.
fn divisor_of_level(shared: bool, a: i128, b: i128, first: LoopRange, second: LoopRange) -> u128
    requires small_a { unsigned_abs a < 2 ^ 70 }
    requires small_b { unsigned_abs b < 2 ^ 70 }
    ensures { (d : ℕ) → (d ∣ result) ↔ DividesLevel shared d a b (unit_of first) (unit_of second) }
{
    if shared {
        scaled_size(a - b, first)
    } else {
        gcd(scaled_size(a, first), scaled_size(b, second))
    }
}

/// A total and the difference of two products more.
fn add_products(total: i128, a: i128, x: i128, b: i128, y: i128) -> i128
    requires small_total { unsigned_abs total ≤ 2 ^ 110 }
    requires small_a { unsigned_abs a < 2 ^ 70 }
    requires small_b { unsigned_abs b < 2 ^ 70 }
    requires small_x { unsigned_abs x ≤ 2 ^ 31 }
    requires small_y { unsigned_abs y ≤ 2 ^ 31 }
    ensures { result ≡ total +ℤ ((a *ℤ x) -ℤ (b *ℤ y)) }
{
    total + (a * x - b * y)
}

/// Whether a number is a multiple of the divisor. 0 has one multiple, itself.
fn is_multiple(number: i128, divisor: u128) -> bool
    ensures { IsTrue result ↔ (divisor ∣ unsigned_abs number) }
{
    let size = number.unsigned_abs();
    if divisor == 0 {
        size == 0
    } else {
        size % divisor == 0
    }
}

/// Whether the greatest common divisor of the coefficients of the difference `p` - `q` divides its constant.
///
/// The difference is taken over the pairs of iterations of the direction `at`, by coordinates: a loop whose
/// start is a constant counts by its counter, so its step is a factor of its coefficient. `p_path` and
/// `q_path` have the ranges of the loops around the two references. Where the answer is false, the two
/// references never name one place in this dimension.
pub fn divides(
    p: &Form,
    q: &Form,
    at: &Direction,
    p_path: &[LoopRange],
    q_path: &[LoopRange],
) -> bool
    requires loops { ShareLoops at.now p_path.now q_path.now }
    requires first_path { IsSmallPath p_path.now }
    requires second_path { IsSmallPath q_path.now }
    requires first_form { IsFormOver p_path.now p.now }
    requires second_form { IsFormOver q_path.now q.now }
    ensures divides { IsTrue result ↔ DividesDifference p.now q.now at.now p_path.now q_path.now }
    ensures refuted { OnFalse result (NeverMeet p.now q.now at.now p_path.now q_path.now) }
{
    let differs_at = level_of(at);
    let mut divisor = 0;
    let mut constant = p.constant - q.constant;
    for level in 0..16 {
        let a = coefficient(p, level);
        let b = coefficient(q, level);
        let first = range_or_zero(p_path, level);
        let second = range_or_zero(q_path, level);
        divisor = gcd(
            divisor,
            divisor_of_level(level < differs_at, a, b, first, second),
        );
        constant = add_products(constant, a, residue(first), b, residue(second));
    }
    is_multiple(constant, divisor)
}
