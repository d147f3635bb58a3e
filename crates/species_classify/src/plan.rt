//! The plan of a nest.

ghost use Rattle.std.specs.Prelude.{◌≡◌, ◌<◌, ◌≤◌, ◌-◌, ◌^◌, [], ◌∷◌, ◌++◌, List, ℕ, true, false, length, IfOk, OnOk, All};
ghost use Rattle.species_arcs.specs.Sizes.{HasSmallSpan};
ghost use Rattle.species_ast.specs.declared.tree.Loop.{out-Loop};
ghost use Rattle.species_ast.specs.Scope.Hulls as hulls;
ghost use Rattle.species_ast.specs.Scope.Nests.{front_of};
ghost use Rattle.species_ast.specs.Scope.WellMade.{IsWellMade};
ghost use Rattle.species_linear.specs.Box.{HasSmallPath};
ghost use Rattle.species_linear.specs.Point.{IsShort};
ghost use Rattle.species_merge.specs.Sizes.{IsSmallBound};
ghost use Rattle.species_references.specs.Ranges.{ranges_seen, ranges_in_loop};
ghost use Rattle.species_classify.specs.Counts.{most_in_loop};
ghost use Rattle.species_classify.specs.Places.{StandsIn};
ghost use Rattle.species_classify.specs.Plans.{HasOneMore, AddsBounds, AreBandBounds, AreBandArcs, IsPlan};
ghost use Rattle.species_ranges.specs.Fitting.{fits_in, fits_in_list, fits_in_loop};
ghost use Rattle.species_nests.specs.Nests.{nest_in, nest_of};

use crate::counts::check_references;
use crate::decide::{Decision, decide};
use species_arcs::{Arc, Nest};
use species_ast::{Loop, OutOfMemory, Stmt, Unit};
use species_linear::{LoopRange, Ranges};
use species_loops::{Header, Path};
use species_merge::{BandBound, bound_of, merge};
use species_ranges::{nest_ranges, path_of};
use species_references::references;
use sqlite_items::Items;
use std::alloc::Global;

/// Adds the bounds of a loop, in loops with these ranges, and goes into it. Of one that passes the limit on
/// hulls, which no lawful program has, nothing is added.
fn enter(
    alloc: Global,
    head: &Loop,
    path: &mut Path,
    found: &mut Vec<BandBound>,
) -> Result<(), OutOfMemory>
    ensures added { OnOk result (hulls.passes_hull path.old (out-Loop head.now) ≡ false → HasOneMore head.now found.old.items found.new.items) }
    ensures small { OnOk result (All IsSmallBound found.old.items → All IsSmallBound found.new.items) }
    ensures open { OnOk result (hulls.passes_hull path.old (out-Loop head.now) ≡ false → length path.old < 16 → path.new ≡ path.old ++ hulls.range_of path.old (out-Loop head.now) ∷ []) }
{
    let header = Header::of(alloc, head)?;
    if header.passes_hull(path.as_slice()) {
        return Ok(());
    }
    let range = header.range(alloc, path.as_slice())?;
    let bound = bound_of(alloc, head, range)?;
    found.push(bound)?;
    path.enter(range)?;
    Ok(())
}

/// Adds the bounds of a loop, in loops with these ranges, and of the loops below it, to this depth in all.
#[cycle(bounds)]
fn add_bounds(
    alloc: Global,
    head: &Loop,
    depth: u32,
    path: &mut Path,
    found: &mut Vec<BandBound>,
) -> Result<(), OutOfMemory>
    requires { 0 < depth }
    ensures bounds { OnOk result (fits_in_loop head.now path.old ≡ true → (at : List ℕ) → AddsBounds found.old.items found.new.items (nest_of (depth - 1) head.now at).loops) }
    ensures small { OnOk result (All IsSmallBound found.old.items → All IsSmallBound found.new.items) }
{
    enter(alloc, head, path, found)?;
    if depth == 1 {
        return Ok(());
    }
    add_bounds_in_body(alloc, head.body.as_slice(), depth - 1, path, found)?;
    Ok(())
}

/// Adds those of the loop that a body is, where blocks of one statement are looked through.
#[cycle(bounds)]
fn add_bounds_in_body(
    alloc: Global,
    body: &[Stmt],
    depth: u32,
    path: &mut Path,
    found: &mut Vec<BandBound>,
) -> Result<(), OutOfMemory>
    requires { 0 < depth }
    ensures bounds { OnOk result (fits_in_list body.now path.old ≡ true → (at : List ℕ) → AddsBounds found.old.items found.new.items (nest_in depth body.now at).loops) }
    ensures small { OnOk result (All IsSmallBound found.old.items → All IsSmallBound found.new.items) }
{
    match body {
        [] => Ok(()),
        [only] => {
            add_bounds_in(alloc, only, depth, path, found)?;
            Ok(())
        }
        [_, _, ..] => Ok(()),
    }
}

#[cycle(bounds)]
fn add_bounds_in(
    alloc: Global,
    stmt: &Stmt,
    depth: u32,
    path: &mut Path,
    found: &mut Vec<BandBound>,
) -> Result<(), OutOfMemory>
    requires { 0 < depth }
    ensures bounds { OnOk result (fits_in stmt.now path.old ≡ true → (at : List ℕ) → AddsBounds found.old.items found.new.items (nest_in depth (stmt.now ∷ []) at).loops) }
    ensures small { OnOk result (All IsSmallBound found.old.items → All IsSmallBound found.new.items) }
{
    match stmt {
        Stmt::For(head) => {
            add_bounds(alloc, head, depth, path, found)?;
            Ok(())
        }
        Stmt::Block(body) => {
            add_bounds_in_body(alloc, body.as_slice(), depth, path, found)?;
            Ok(())
        }
        Stmt::Assign { .. } => Ok(()),
        Stmt::AddTo { .. } => Ok(()),
        Stmt::Declare { .. } => Ok(()),
        Stmt::SetLocal { .. } => Ok(()),
        Stmt::If { .. } => Ok(()),
    }
}

/// The bounds of the loops of a band.
fn band_bounds(
    alloc: Global,
    head: &Loop,
    path: &[LoopRange],
    depth: u32,
) -> Result<Vec<BandBound>, OutOfMemory>
    requires some { 0 < depth }
    requires short { IsShort path.now }
    requires ends { HasSmallPath path.now }
    requires fits { fits_in_loop head.now (ranges_seen path.now) ≡ true }
    requires deep { depth ≤ length (front_of head.now) }
    ensures bounds { IfOk result (λ bands. AreBandBounds (depth - 1) head.now bands.items) }
    ensures count { IfOk result (λ bands. length bands.items ≡ depth) }
    ensures small { IfOk result (λ bands. All IsSmallBound bands.items) }
{
    let mut around = path_of(alloc, path)?;
    let mut found = Vec::new(alloc);
    add_bounds(alloc, head, depth, &mut around, &mut found)?;
    Ok(found)
}

/// The arcs of a nest with a band of this depth.
fn band_arcs(
    alloc: Global,
    unit: &Unit,
    head: &Loop,
    path: &[LoopRange],
    ranges: &Ranges,
    depth: u32,
    gathered: &[u32],
) -> Result<Items<Arc>, OutOfMemory>
    requires made { IsWellMade unit.now }
    requires stands { StandsIn unit.now head.now (ranges_seen path.now) }
    requires ranges { ranges_seen ranges.now ≡ ranges_in_loop head.now (ranges_seen path.now) }
    requires few { most_in_loop head.now < 2 ^ 32 }
    requires deep { depth ≤ length (front_of head.now) }
    ensures arcs { IfOk result (λ arcs. AreBandArcs depth unit.now head.now (ranges_seen path.now) gathered.now arcs) }
    ensures spans { IfOk result (λ arcs. All (λ arc. All HasSmallSpan arc.dims) arcs) }
{
    if depth == 0 {
        return Ok(Items::new(alloc));
    }
    let refs = references(alloc, unit, head, path, ranges, depth, gathered)?;
    let bands = band_bounds(alloc, head, path, depth)?;
    let arcs = merge(
        alloc,
        refs.as_slice(),
        path.len() as u32,
        depth,
        bands.as_slice(),
    )?;
    Ok(Items::from_vec(arcs))
}

/// The plan of the nest of `head`, a loop of the unit. `path` has the ranges of the loops around it. A nest
/// that may have 2^32 references gets the answer for want of memory.
pub fn plan_nest(
    alloc: Global,
    unit: &Unit,
    head: &Loop,
    path: &[LoopRange],
) -> Result<Nest, OutOfMemory>
    requires made { IsWellMade unit.now }
    requires stands { StandsIn unit.now head.now (ranges_seen path.now) }
    ensures plan { IfOk result (IsPlan unit.now head.now (ranges_seen path.now)) }
    ensures spans { IfOk result (λ nest. All (λ arc. All HasSmallSpan arc.dims) nest.arcs) }
{
    check_references(head)?;
    let ranges = nest_ranges(alloc, head, path)?;
    let Decision {
        depth,
        mode,
        gathered,
        reason,
    } = decide(alloc, unit, head, path, &ranges)?;
    let arcs = band_arcs(alloc, unit, head, path, &ranges, depth, gathered.as_slice())?;
    Ok(Nest {
        depth,
        mode,
        arcs,
        gathered,
        reason,
    })
}
