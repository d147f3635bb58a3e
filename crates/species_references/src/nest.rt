//! References: elements with their numbers, the forms of their subscripts, and boxes.

ghost use Rattle.std.specs.Prelude.{◌≡◌, ℕ, ◌+◌, ◌<◌, ◌^◌, [], List, length, IfOk, slice_index_or};
ghost use Rattle.species_arcs.specs.Pairwise.{Pairwise};
ghost use Rattle.species_ast.specs.Evaluation.{sizes_of};
ghost use Rattle.species_ast.specs.Run.{source_context};
ghost use Rattle.species_ast.specs.Scope.References.{references_of};
ghost use Rattle.species_references.specs.Ranges.{ranges_seen, ranges_in_loop};
ghost use Rattle.species_references.specs.References.{adds_of, IsReference, AreNumberedFrom};
ghost use Rattle.species_references.specs.Occurrences.{seen, all_seen};

use crate::boxes::{Boxes, box_of};
use crate::occurrences::{Occurrence, add_loop};
use species_affine::{Subscript, form_of};
use species_arcs::Dir;
use species_ast::{Loop, OutOfMemory, Unit};
use species_linear::{LoopRange, Ranges};
use sqlite_items::Items;
use std::alloc::Global;

/// An element of an array that a nest reads, writes or adds to, where it stands in the text.
#[derive(Drop)]
pub struct Reference {
    /// From 0, in order of evaluation.
    pub number: u32,
    pub array: u32,
    pub dir: Dir,
    pub subs: Items<Subscript>,
    /// Whether it is evaluated only on a condition, within the nest.
    pub conditional: bool,
    /// The ranges of all loops around it, by level.
    pub path: Ranges,
    /// What the loops inside the nest, below its band, add to the index in each dimension.
    pub boxes: Boxes,
}

/// The references of the nest of a loop, of which the first `depth` loops are the band. `path` are the
/// ranges of the loops outside, by level, and `ranges` those of all loops in it, in the order of the
/// text. `+=` on an array of `gathered` is one add, and on any other a read and a write.
pub fn references(
    alloc: Global,
    unit: &Unit,
    head: &Loop,
    path: &[LoopRange],
    ranges: &Ranges,
    depth: u32,
    gathered: &[u32],
) -> Result<Vec<Reference>, OutOfMemory>
    requires ranges { ranges_seen ranges.now ≡ ranges_in_loop head.now (ranges_seen path.now) }
    requires few { length (references_of (adds_of gathered.now) head.now [] (ranges_seen path.now) depth) < 2 ^ 32 }
    ensures listed { IfOk result (λ found. (at : List ℕ) → Pairwise (IsReference (sizes_of (source_context unit.now)) (length path.now + depth)) found.items (references_of (adds_of gathered.now) head.now at (ranges_seen path.now) depth)) }
    ensures numbered { IfOk result (λ found. AreNumberedFrom 0 found.items) }
{
    let mut occurrences = Vec::new(alloc);
    add_loop(
        alloc,
        head,
        path,
        false,
        depth,
        gathered,
        ranges.as_slice(),
        &mut occurrences,
    )?;
    let inner = path.len() + depth as usize;
    resolved(alloc, unit, inner, occurrences.as_slice())
}

/// The occurrences as references.
pub(crate) fn resolved(
    alloc: Global,
    unit: &Unit,
    inner: usize,
    occurrences: &[Occurrence<'_>],
) -> Result<Vec<Reference>, OutOfMemory>
    requires { length occurrences.now < 2 ^ 32 }
    ensures listed { IfOk result (λ found. Pairwise (IsReference (sizes_of (source_context unit.now)) inner) found.items (all_seen occurrences.now)) }
    ensures numbered { IfOk result (λ found. AreNumberedFrom 0 found.items) }
{
    let mut found = Vec::new(alloc);
    for (number, occurrence) in occurrences.iter().enumerate() {
        found.push(resolve(alloc, unit, inner, number as u32, occurrence)?)?;
    }
    Ok(found)
}

/// The reference of an occurrence.
fn resolve(
    alloc: Global,
    unit: &Unit,
    inner: usize,
    number: u32,
    occurrence: &Occurrence<'_>,
) -> Result<Reference, OutOfMemory>
    ensures shown { IfOk result (λ r. IsReference (sizes_of (source_context unit.now)) inner r (seen occurrence.now)) }
    ensures number { IfOk result (λ r. r.number ≡ number) }
{
    let ranges = occurrence.path.as_slice();
    let mut subs = Items::new(alloc);
    let mut boxes = Boxes::new(alloc);
    for (dimension, expr) in occurrence.subs.iter().enumerate() {
        let subscript = form_of(alloc, expr)?;
        let size = size_of(unit, occurrence.array, dimension);
        boxes.push(box_of(&subscript, inner, ranges, size))?;
        subs.push(subscript)?;
    }
    Ok(Reference {
        number,
        array: occurrence.array,
        dir: occurrence.dir,
        subs,
        conditional: occurrence.conditional,
        path: Ranges::from(Vec::from_slice(alloc, ranges)?),
        boxes,
    })
}

/// The size of a dimension of an array, 0 where there is none.
fn size_of(unit: &Unit, array: u32, dimension: usize) -> u32
    ensures { result ≡ slice_index_or (sizes_of (source_context unit.now) array) dimension 0 }
{
    match unit.arrays.as_slice().get(array as usize) {
        Some(found) => found.dims.as_slice().get(dimension).copied().unwrap_or(0),
        None => 0,
    }
}
