//! The table of a unit: of each loop that stands in no other its place and its lines.

ghost use Rattle.std.specs.Prelude.{◌≡◌, ◌<◌, ◌^◌, [], ◌∷◌, List, All, IfOk, OnOk, length, map, take};
ghost use Rattle.std.specs.List.{Contains};
ghost use Rattle.species_ast.specs.declared.tree.Loop.{out-Loop};
ghost use Rattle.species_ast.specs.Scope.Loops.{outermost_loops};
ghost use Rattle.species_ast.specs.Scope.WellMade.{IsWellMade};
ghost use Rattle.species_merge.specs.Bounds.{IsBoundOf};
ghost use Rattle.species_merge.specs.Sizes.{IsMergeable, IsSmallBound};
ghost use Rattle.species_report.specs.Table.{names_in, AreOfNest, IsOfLoop, IsTable};

use crate::heads::heads_of;
use crate::lines::{lines_of, place_line};
use species_ast::{Array, Loop, Name, OutOfMemory, Unit};
use species_merge::{BandBound, bound_of};
use species_notation::Names;
use species_ranges::nest_ranges;
use species_references::{Reference, references};
use sqlite_items::Items;
use std::alloc::Global;

/// The names of the arrays.
fn array_names(alloc: Global, arrays: &[Array]) -> Result<Items<Name>, OutOfMemory>
    ensures { IfOk result (λ names. names ≡ map (λ a. a.name) arrays.now) }
{
    let mut names = Items::new(alloc);
    for array in arrays {
        names.push(array.name.copy(alloc)?)?;
    }
    Ok(names)
}

/// Names the iterator of a loop that stands in no other.
fn enter(alloc: Global, head: &Loop, names: &mut Names) -> Result<(), OutOfMemory>
    ensures { OnOk result (names.new ≡ record names.old { iters = (out-Loop head.now).iter ∷ [] }) }
{
    let mut iters = Items::new(alloc);
    iters.push(head.iter.copy(alloc)?)?;
    names.iters = iters;
    Ok(())
}

/// A band of one loop, and the references of its nest.
#[derive(Drop)]
struct Nest {
    bound: BandBound,
    references: Vec<Reference>,
}

/// The nest of a loop that stands in no other.
fn nest_of(alloc: Global, unit: &Unit, head: &Loop) -> Result<Nest, OutOfMemory>
    requires made { IsWellMade unit.now }
    requires there { Contains (outermost_loops unit.now) head.now }
    ensures ends { IfOk result (λ nest. IsBoundOf (out-Loop head.now) nest.bound) }
    ensures small { IfOk result (λ nest. IsSmallBound nest.bound) }
    ensures plain { IfOk result (λ nest. AreOfNest unit.now head.now nest.references.items) }
    ensures mergeable { IfOk result (λ nest. All IsMergeable nest.references.items) }
{
    let ranges = nest_ranges(alloc, head, &[])?;
    let bound = bound_of(alloc, head, ranges.as_slice()[0])?;
    let references = references(alloc, unit, head, &[], &ranges, 1, &[])?;
    Ok(Nest { bound, references })
}

/// What the table has of a loop that stands in no other.
#[tactic(auto, using(crate::proofs::PartLemmas::part_is))]
fn part_of(alloc: Global, unit: &Unit, head: &Loop, names: &Names) -> Result<Vec<u8>, OutOfMemory>
    requires made { IsWellMade unit.now }
    requires there { Contains (outermost_loops unit.now) head.now }
    requires names { names.now ≡ names_in unit.now head.now }
    ensures { IfOk result (λ text. IsOfLoop unit.now head.now text.items) }
{
    let nest = nest_of(alloc, unit, head)?;
    let mut text = place_line(alloc, head.place)?;
    let lines = lines_of(alloc, &nest.bound, nest.references.as_slice(), names)?;
    text.extend_from_slice(lines.as_slice())?;
    Ok(text)
}

/// The table of a well made unit: of each loop that stands in no other its place, and a line for each array
/// reference of its nest, with the arc that this reference has alone.
pub fn table(alloc: Global, unit: &Unit) -> Result<Vec<u8>, OutOfMemory>
    requires { IsWellMade unit.now }
    ensures { IfOk result (λ text. IsTable unit.now text.items) }
{
    let heads = heads_of(alloc, unit)?;
    let mut names = Names {
        arrays: array_names(alloc, unit.arrays.as_slice())?,
        iters: Items::new(alloc),
        locals: Items::new(alloc),
    };
    let mut text = Vec::new(alloc);
    for &head in heads.as_slice() {
        enter(alloc, head, &mut names)?;
        let part = part_of(alloc, unit, head, &names)?;
        text.extend_from_slice(part.as_slice())?;
    }
    Ok(text)
}
