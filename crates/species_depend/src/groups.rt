//! The first pair that a level carries, of references that are kept by array.
//!
//! A reference that is like an earlier one is passed over: each of its pairs is carried where that of the
//! earlier one is, which comes first. So a nest with few different references takes few tests.

ghost use Rattle.std.specs.Prelude.{◌<◌, length, slice_index_or, Some, IfNone, IfSome, All};
ghost use Rattle.species_references.specs.declared.nest.Reference.{Reference};
ghost use Rattle.species_depend.specs.Carried.{Carries, IsLeastNumber, AtOrBefore, IsFirstOf, AreAsked};

use crate::alike::has_twin;
use crate::search::{is_at_or_before, is_better, is_past};
use species_references::Grouped;

/// The least number of a reference with which the level carries the one at this place, in this order.
fn first_with(refs: &Grouped, first: usize, outer: u32, level: u32, exempt: &[u32]) -> Option<u32>
    requires asked { AreAsked refs.now outer level }
    requires here { first < length refs.now }
    ensures { (d : Reference) → IsLeastNumber (Carries outer level exempt.now (slice_index_or refs.now first d)) refs.now result }
{
    let list = refs.as_slice();
    let p = &list[first];
    let mut least = None;
    for place in refs.places_of(p.array) {
        if has_twin(list, first, *place, p.number) {
            continue;
        }
        let q = &list[*place];
        if is_better(p, q, outer, level, exempt, least) {
            least = Some(q.number);
        }
    }
    least
}

/// The least number with which the level carries the reference at this place, where that pair stands before
/// the one found.
fn first_from(
    refs: &Grouped,
    first: usize,
    outer: u32,
    level: u32,
    exempt: &[u32],
    found: Option<(u32, u32)>,
) -> Option<u32>
    requires asked { AreAsked refs.now outer level }
    requires here { first < length refs.now }
    ensures none { (d : Reference) → IfNone result (All (λ q. Carries outer level exempt.now (slice_index_or refs.now first d) q → AtOrBefore found (slice_index_or refs.now first d).number q.number) refs.now) }
    ensures some { (d : Reference) → IfSome result (λ n. IsLeastNumber (Carries outer level exempt.now (slice_index_or refs.now first d)) refs.now (Some n) × ¬ AtOrBefore found (slice_index_or refs.now first d).number n) }
{
    let number = refs.as_slice()[first].number;
    if is_past(found, number) {
        return None;
    }
    let second = first_with(refs, first, outer, level, exempt)?;
    if is_at_or_before(found, number, second) {
        None
    } else {
        Some(second)
    }
}

/// The first pair of references, by their numbers, that a level of a nest with so many loops around it
/// carries, where the arrays in `exempt` do not count.
pub fn carried_in(refs: &Grouped, outer: u32, level: u32, exempt: &[u32]) -> Option<(u32, u32)>
    requires { AreAsked refs.now outer level }
    ensures { IsFirstOf (Carries outer level exempt.now) refs.now result }
{
    let mut found = None;
    for first in 0..refs.as_slice().len() {
        if has_twin(refs.as_slice(), 0, first, 0) {
            continue;
        }
        if let Some(second) = first_from(refs, first, outer, level, exempt, found) {
            found = Some((refs.as_slice()[first].number, second));
        }
    }
    found
}
