//! What the dependences of a nest decide.

ghost use Rattle.std.specs.Prelude.{◌≡◌, ◌<◌, ◌≤◌, ◌^◌, ℕ, length, IfOk};
ghost use Rattle.std.specs.List.{Any};
ghost use Rattle.species_ast.specs.Scope.Nests.{front_of};
ghost use Rattle.species_ast.specs.Scope.WellMade.{IsWellMade};
ghost use Rattle.species_gather.specs.Summed.{summed_arrays};
ghost use Rattle.species_references.specs.Ranges.{ranges_seen, ranges_in_loop};
ghost use Rattle.species_depend.specs.Carried.{AreAsked};
ghost use Rattle.species_classify.specs.Counts.{most_in_loop};
ghost use Rattle.species_classify.specs.Decisions.{sequential, parallel, IsSharedDecisionOf, IsDecidedBy, IsDecision};
ghost use Rattle.species_classify.specs.Places.{StandsIn, ArePlain};

use crate::bands::{Band, band_of};
use crate::locals::first_outer_local;
use species_arcs::{Mode, Numbers, Reason};
use species_ast::{Loop, OutOfMemory, Unit};
use species_gather::sum_arrays;
use species_linear::{LoopRange, Ranges};
use species_loops::perfect_depth;
use species_references::{Grouped, group, references};
use std::alloc::Global;

/// The plan of a nest without its arcs.
#[derive(Debug, Drop)]
pub struct Decision {
    /// The number of leading loops that run in parallel, 0 where the first is sequential.
    pub depth: u32,
    pub mode: Mode,
    /// The arrays that are added to by atomic additions.
    pub gathered: Numbers,
    /// Why the loop is sequential, where it is.
    pub reason: Option<Reason>,
}

impl Decision {
    fn sequential(alloc: Global, why: Reason) -> Decision
        ensures { result ≡ sequential why }
    {
        Decision {
            depth: 0,
            mode: Mode::Plain,
            gathered: Numbers::new(alloc),
            reason: Some(why),
        }
    }

    fn parallel(depth: u32, mode: Mode, gathered: Numbers) -> Decision
        ensures { result ≡ parallel depth mode gathered }
    {
        Decision {
            depth,
            mode,
            gathered,
            reason: None,
        }
    }
}

/// The array of the reference with this number, which is its place in the list.
fn array_of(refs: &Grouped, number: u32) -> u32
    requires { Any (λ p. p.number ≡ number) refs.now }
    ensures { Any (λ p. (p.number ≡ number) × (p.array ≡ result)) refs.now }
{
    for reference in refs.as_slice() {
        if reference.number == number {
            return reference.array;
        }
    }
    0
}

/// The decision where the gathered arrays are exempt.
fn shared_decision(
    alloc: Global,
    refs: &Grouped,
    outer: u32,
    front: u32,
    gathered: Numbers,
) -> Decision
    requires some { 0 < front }
    requires asked { (level : ℕ) → level < front → AreAsked refs.now outer level }
    ensures { IsSharedDecisionOf refs.now outer front gathered result }
{
    match band_of(refs, outer, front, gathered.as_slice()) {
        Band::Free(depth) => Decision::parallel(depth, Mode::Shared, gathered),
        Band::Carried(first, second) => {
            let array = array_of(refs, first);
            Decision::sequential(
                alloc,
                Reason::Carried {
                    array,
                    first,
                    second,
                },
            )
        }
    }
}

/// The decision by the plain references of a nest, in so many outer loops, with a front of so many loops.
/// The arrays that the nest only adds to are looked for where they may decide.
fn decide_by(
    alloc: Global,
    unit: &Unit,
    head: &Loop,
    refs: &Grouped,
    outer: u32,
    front: u32,
) -> Result<Decision, OutOfMemory>
    requires some { 0 < front }
    requires asked { (level : ℕ) → level < front → AreAsked refs.now outer level }
    ensures { IfOk result (IsDecidedBy refs.now outer front (summed_arrays unit.now head.now)) }
{
    match band_of(refs, outer, front, &[]) {
        Band::Free(depth) => {
            let none = Numbers::new(alloc);
            Ok(Decision::parallel(depth, Mode::Plain, none))
        }
        Band::Carried(_, _) => {
            let gathered = Numbers::from(sum_arrays(alloc, unit, head)?);
            Ok(shared_decision(alloc, refs, outer, front, gathered))
        }
    }
}

/// The plain references of the nest of `head`, kept by array.
fn plain_references(
    alloc: Global,
    unit: &Unit,
    head: &Loop,
    path: &[LoopRange],
    ranges: &Ranges,
) -> Result<Grouped, OutOfMemory>
    requires ranges { ranges_seen ranges.now ≡ ranges_in_loop head.now (ranges_seen path.now) }
    requires few { most_in_loop head.now < 2 ^ 32 }
    ensures { IfOk result (ArePlain unit.now head.now (ranges_seen path.now)) }
{
    let plain = references(alloc, unit, head, path, ranges, 1, &[])?;
    let refs = group(alloc, plain)?;
    Ok(refs)
}

/// How many loops of the nest of `head` run in parallel, and in which mode, or why it is sequential. `path`
/// has the ranges of the loops around it, and `ranges` those of the loops in it.
pub(crate) fn decide(
    alloc: Global,
    unit: &Unit,
    head: &Loop,
    path: &[LoopRange],
    ranges: &Ranges,
) -> Result<Decision, OutOfMemory>
    requires made { IsWellMade unit.now }
    requires stands { StandsIn unit.now head.now (ranges_seen path.now) }
    requires ranges { ranges_seen ranges.now ≡ ranges_in_loop head.now (ranges_seen path.now) }
    requires few { most_in_loop head.now < 2 ^ 32 }
    ensures decision { IfOk result (IsDecision unit.now head.now (ranges_seen path.now)) }
    ensures deep { IfOk result (λ d. d.depth ≤ length (front_of head.now)) }
{
    if let Some(local) = first_outer_local(head.body.as_slice()) {
        return Ok(Decision::sequential(alloc, Reason::Outer { local }));
    }
    let outer = path.len() as u32;
    let refs = plain_references(alloc, unit, head, path, ranges)?;
    let front = perfect_depth(head, outer);
    decide_by(alloc, unit, head, &refs, outer, front)
}
