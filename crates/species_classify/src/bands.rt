//! Leading loops of a nest that carry no dependence.

ghost use Rattle.std.specs.Prelude.{◌≡◌, ◌<◌, ◌↔◌, ℕ, IsTrue};
ghost use Rattle.species_depend.specs.Carried.{AreAsked, CarriesNone};
ghost use Rattle.species_classify.specs.Bands.{IsDepth, IsBandOf};

use species_depend::carried_in;
use species_references::Grouped;

/// The leading loops of a nest that carry no pair, at least one; or the first pair that its first loop
/// carries, by the numbers of its references.
#[derive(Clone, Copy, Debug, PartialEq, Eq)]
pub enum Band {
    Free(u32),
    Carried(u32, u32),
}

fn carries_none(refs: &Grouped, outer: u32, level: u32, exempt: &[u32]) -> bool
    requires { AreAsked refs.now outer level }
    ensures { IsTrue result ↔ CarriesNone refs.now outer level exempt.now }
{
    match carried_in(refs, outer, level, exempt) {
        None => true,
        Some(_) => false,
    }
}

/// The number of leading loops before the first level that carries a pair. The first carries none.
fn depth_of(refs: &Grouped, outer: u32, front: u32, exempt: &[u32]) -> u32
    requires some { 0 < front }
    requires asked { (level : ℕ) → level < front → AreAsked refs.now outer level }
    requires first { CarriesNone refs.now outer 0 exempt.now }
    ensures some { 0 < result }
    ensures depth { IsDepth refs.now outer front exempt.now result }
{
    for level in 1..front {
        if !carries_none(refs, outer, level, exempt) {
            return level;
        }
    }
    front
}

/// The band of a nest whose front has so many loops, in so many outer loops.
pub(crate) fn band_of(refs: &Grouped, outer: u32, front: u32, exempt: &[u32]) -> Band
    requires some { 0 < front }
    requires asked { (level : ℕ) → level < front → AreAsked refs.now outer level }
    ensures { IsBandOf refs.now outer front exempt.now result }
{
    match carried_in(refs, outer, 0, exempt) {
        Some((first, second)) => Band::Carried(first, second),
        None => Band::Free(depth_of(refs, outer, front, exempt)),
    }
}
