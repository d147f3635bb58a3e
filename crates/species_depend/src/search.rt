//! The first pair of references that a level of a nest carries.

ghost use Rattle.std.specs.Prelude.{◌≡◌, ◌↔◌, ℕ, true, IsTrue, Some, IfNone, IfSome, All, Contains};
ghost use Rattle.species_depend.specs.Refuted.{IsTestable, directed};
ghost use Rattle.species_depend.specs.Carried.{IsWritten, IsPossible, Carries, IsNear, IsLeastNumber, AtOrBefore, IsFirstOf, AreAsked};

use crate::refutation::refuted;
use species_arcs::Dir;
use species_linear::Direction;
use species_references::Reference;

fn is_exempt(exempt: &[u32], array: u32) -> bool
    ensures { IsTrue result ↔ Contains exempt.now array }
{
    exempt.contains(&array)
}

/// Whether a reference changes its element.
fn is_written(p: &Reference) -> bool
    ensures { IsTrue result ↔ IsWritten p.now }
{
    match p.dir {
        Dir::Read => false,
        Dir::Write => true,
        Dir::Add => true,
    }
}

/// Whether a pair is not refuted in both directions.
fn is_possible(p: &Reference, q: &Reference, outer: u32, level: u32) -> bool
    requires { IsTestable (directed outer level true) p.now q.now }
    ensures { IsTrue result ↔ IsPossible outer level p.now q.now }
{
    let less = Direction {
        outer,
        level,
        less: true,
    };
    let greater = Direction {
        outer,
        level,
        less: false,
    };
    !(refuted(p, q, &less) && refuted(p, q, &greater))
}

/// Whether the level carries the pair.
pub(crate) fn carries(p: &Reference, q: &Reference, outer: u32, level: u32, exempt: &[u32]) -> bool
    requires { p.now.array ≡ q.now.array → IsTestable (directed outer level true) p.now q.now }
    ensures { IsTrue result ↔ Carries outer level exempt.now p.now q.now }
{
    if p.number <= q.number && p.array == q.array {
        if is_written(p) || is_written(q) {
            !is_exempt(exempt, p.array) && is_possible(p, q, outer, level)
        } else {
            false
        }
    } else {
        false
    }
}

/// Whether a number is below the one found, if any is.
fn is_near(number: u32, found: Option<u32>) -> bool
    ensures { IsTrue result ↔ IsNear number found }
{
    match found {
        None => true,
        Some(least) => number < least,
    }
}

/// Whether the level carries the pair, and the second number is below the one found.
pub(crate) fn is_better(
    p: &Reference,
    q: &Reference,
    outer: u32,
    level: u32,
    exempt: &[u32],
    found: Option<u32>,
) -> bool
    requires { p.now.array ≡ q.now.array → IsTestable (directed outer level true) p.now q.now }
    ensures { IsTrue result ↔ (IsNear q.now.number found × Carries outer level exempt.now p.now q.now) }
{
    is_near(q.number, found) && carries(p, q, outer, level, exempt)
}

/// The least number of a reference with which the level carries the given one, in this order.
fn first_with(
    p: &Reference,
    refs: &[Reference],
    outer: u32,
    level: u32,
    exempt: &[u32],
) -> Option<u32>
    requires { All (λ q. p.now.array ≡ q.array → IsTestable (directed outer level true) p.now q) refs.now }
    ensures { IsLeastNumber (Carries outer level exempt.now p.now) refs.now result }
{
    let mut least = None;
    for q in refs {
        if is_better(p, q, outer, level, exempt, least) {
            least = Some(q.number);
        }
    }
    least
}

/// Whether a pair is found that stands at or before this one.
pub(crate) fn is_at_or_before(found: Option<(u32, u32)>, first: u32, second: u32) -> bool
    ensures { IsTrue result ↔ AtOrBefore found first second }
{
    match found {
        None => false,
        Some((a, b)) => a < first || a == first && b <= second,
    }
}

/// Whether a pair is found whose first number is below this one.
pub(crate) fn is_past(found: Option<(u32, u32)>, first: u32) -> bool
    ensures { IsTrue result → (second : ℕ) → AtOrBefore found first second }
{
    match found {
        None => false,
        Some((a, _)) => a < first,
    }
}

/// The least number with which the level carries the given reference, where that pair stands before the
/// one found.
fn first_from(
    p: &Reference,
    refs: &[Reference],
    outer: u32,
    level: u32,
    exempt: &[u32],
    found: Option<(u32, u32)>,
) -> Option<u32>
    requires { All (λ q. p.now.array ≡ q.array → IsTestable (directed outer level true) p.now q) refs.now }
    ensures none { IfNone result (All (λ q. Carries outer level exempt.now p.now q → AtOrBefore found p.now.number q.number) refs.now) }
    ensures some { IfSome result (λ n. IsLeastNumber (Carries outer level exempt.now p.now) refs.now (Some n) × ¬ AtOrBefore found p.now.number n) }
{
    if is_past(found, p.number) {
        return None;
    }
    let second = first_with(p, refs, outer, level, exempt)?;
    if is_at_or_before(found, p.number, second) {
        None
    } else {
        Some(second)
    }
}

/// The first pair of references, by their numbers, that a level of a nest with so many loops around it
/// carries, where the arrays in `exempt` do not count.
pub fn carried(refs: &[Reference], outer: u32, level: u32, exempt: &[u32]) -> Option<(u32, u32)>
    requires { AreAsked refs.now outer level }
    ensures { IsFirstOf (Carries outer level exempt.now) refs.now result }
{
    let mut first = None;
    for p in refs {
        if let Some(second) = first_from(p, refs, outer, level, exempt, first) {
            first = Some((p.number, second));
        }
    }
    first
}
