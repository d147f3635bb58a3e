//! Worked nests of one loop.

ghost use Rattle.std.specs.Prelude.{◌≡◌, ◌≢◌, ◌<◌, ◌≤◌, ◌^◌, pos, length, All, IfOk};
ghost use Rattle.std.specs.Int.RustNames.{unsigned_abs};
ghost use Rattle.species_linear.specs.Box.{HasSmallEnds};
ghost use Rattle.species_linear.specs.Value.{NamesOnly, HasSmallForm};
ghost use Rattle.species_region.specs.Asked.{IsSmallPath};
ghost use Rattle.species_depend.specs.Refuted.{IsSmallReference};

use super::*;
use species_affine::Subscript;
use species_arcs::Dir;
use species_ast::OutOfMemory;
use species_linear::{Form, LoopRange, Ranges, Term, Terms};
use species_references::{Boxes, Reference, group};
use sqlite_items::Items;
use std::alloc::Global;
use std::test::Fail;

/// A reference to an array of one dimension: its subscript is `factor` * i + `constant`.
#[derive(Clone, Copy)]
struct Row {
    array: u32,
    dir: Dir,
    factor: i128,
    constant: i128,
}

fn read(array: u32, factor: i128, constant: i128) -> Row
    ensures factor { result.factor ≡ factor }
    ensures constant { result.constant ≡ constant }
{
    Row {
        array,
        dir: Dir::Read,
        factor,
        constant,
    }
}

fn write(array: u32, factor: i128, constant: i128) -> Row
    ensures factor { result.factor ≡ factor }
    ensures constant { result.constant ≡ constant }
{
    Row {
        dir: Dir::Write,
        ..read(array, factor, constant)
    }
}

/// The loop from `low` to `high` by 1.
fn from_to(low: i64, high: i64) -> LoopRange
    requires low { unsigned_abs low ≤ 2 ^ 40 }
    requires high { unsigned_abs high ≤ 2 ^ 40 }
    ensures ends { HasSmallEnds result }
    ensures step { result.step ≢ pos 0 }
{
    LoopRange {
        low,
        high,
        step: 1,
        start: Some(low),
        fixed: true,
    }
}

fn form(alloc: Global, row: Row) -> Result<Form, OutOfMemory>
    requires factor { unsigned_abs row.factor < 2 ^ 70 }
    requires constant { unsigned_abs row.constant < 2 ^ 70 }
    ensures small { IfOk result HasSmallForm }
    ensures named { IfOk result (λ f. NamesOnly f 1) }
{
    let mut terms = Terms::new(alloc);
    if row.factor != 0 {
        terms.push(Term {
            level: 0,
            coefficient: row.factor,
        })?;
    }
    Ok(Form {
        constant: row.constant,
        terms,
    })
}

fn reference(
    alloc: Global,
    number: u32,
    row: Row,
    path: &[LoopRange],
) -> Result<Reference, OutOfMemory>
    requires factor { unsigned_abs row.factor < 2 ^ 70 }
    requires constant { unsigned_abs row.constant < 2 ^ 70 }
    requires path { IsSmallPath path.now }
    requires some { 0 < length path.now }
    ensures path { IfOk result (λ r. r.path ≡ path.now) }
    ensures small { IfOk result IsSmallReference }
{
    let mut subs = Items::new(alloc);
    subs.push(Subscript::Affine(form(alloc, row)?))?;
    Ok(Reference {
        number,
        array: row.array,
        dir: row.dir,
        subs,
        conditional: false,
        path: Ranges::from(Vec::from_slice(alloc, path)?),
        boxes: Boxes::new(alloc),
    })
}

/// The number at a place, which behind the last is the place.
fn number_at(numbers: &[u32], place: usize) -> u32
    requires { place < 2 ^ 32 }
{
    match numbers.get(place) {
        Some(number) => *number,
        None => place as u32,
    }
}

/// References with these numbers, and behind these with their places as numbers.
fn references(
    alloc: Global,
    path: &[LoopRange],
    numbers: &[u32],
    rows: &[Row],
) -> Result<Vec<Reference>, OutOfMemory>
    requires few { length rows.now < 2 ^ 32 }
    requires rows { All (λ r. (unsigned_abs r.factor < 2 ^ 70) × (unsigned_abs r.constant < 2 ^ 70)) rows.now }
    requires path { IsSmallPath path.now }
    requires some { 0 < length path.now }
    ensures { IfOk result (λ refs. All (λ r. (r.path ≡ path.now) × IsSmallReference r) refs.items) }
{
    let mut all = Vec::new(alloc);
    for (place, row) in rows.iter().enumerate() {
        all.push(reference(alloc, number_at(numbers, place), *row, path)?)?;
    }
    Ok(all)
}

/// What the first loop carries, by both searches.
fn first_of(
    alloc: Global,
    path: &[LoopRange],
    rows: &[Row],
    exempt: &[u32],
) -> Result<[Option<(u32, u32)>; 2], OutOfMemory>
    requires few { length rows.now < 2 ^ 32 }
    requires rows { All (λ r. (unsigned_abs r.factor < 2 ^ 70) × (unsigned_abs r.constant < 2 ^ 70)) rows.now }
    requires path { IsSmallPath path.now }
    requires some { 0 < length path.now }
{
    let refs = references(alloc, path, &[], rows)?;
    let found = carried(refs.as_slice(), 0, 0, exempt);
    let grouped = group(alloc, refs)?;
    Ok([found, carried_in(&grouped, 0, 0, exempt)])
}

#[test]
fn one_loop(rt: HostRuntime) -> Result<(), Fail> {
    let alloc = rt.alloc();
    let turns = [from_to(0, 63)];
    // A[i] = A[i - 1]
    let chain = [read(0, 1, -1), write(0, 1, 0)];
    assert_eq!(rt;
        first_of(alloc, &[from_to(1, 63)], &chain, &[])?,
        [Some((0, 1)); 2]
    );
    assert_eq!(rt; first_of(alloc, &turns, &chain, &[0])?, [None; 2]);
    // A[i] = A[i + 1]
    let ahead = [read(0, 1, 1), write(0, 1, 0)];
    assert_eq!(rt; first_of(alloc, &turns, &ahead, &[])?, [Some((0, 1)); 2]);
    // A[2 * i] = A[2 * i + 1], and A[4 * i] = A[2 * i + 1]
    let odd = [read(0, 2, 1), write(0, 2, 0)];
    assert_eq!(rt; first_of(alloc, &turns, &odd, &[])?, [None; 2]);
    let fours = [read(0, 2, 1), write(0, 4, 0)];
    assert_eq!(rt; first_of(alloc, &turns, &fours, &[])?, [None; 2]);
    // A[i] = A[i + 64]
    let far = [read(0, 1, 64), write(0, 1, 0)];
    assert_eq!(rt; first_of(alloc, &turns, &far, &[])?, [None; 2]);
    assert_eq!(rt;
        first_of(alloc, &[from_to(0, 64)], &far, &[])?,
        [Some((0, 1)); 2]
    );
    // s[0] += A[i]
    let sum = [read(0, 0, 0), read(1, 1, 0), write(0, 0, 0)];
    assert_eq!(rt; first_of(alloc, &turns, &sum, &[])?, [Some((0, 2)); 2]);
    assert_eq!(rt; first_of(alloc, &turns, &sum, &[0])?, [None; 2]);
    // A[0] = 5
    let same = [write(0, 0, 0)];
    assert_eq!(rt; first_of(alloc, &turns, &same, &[])?, [Some((0, 0)); 2]);
    assert_eq!(rt; first_of(alloc, &[from_to(0, 0)], &same, &[])?, [None; 2]);
    assert_eq!(rt; first_of(alloc, &[from_to(0, -1)], &same, &[])?, [None; 2]);
    // references that are alike
    let alike = [
        read(0, 1, -1),
        read(1, 1, -1),
        read(0, 1, -1),
        write(0, 1, 0),
    ];
    assert_eq!(rt; first_of(alloc, &turns, &alike, &[])?, [Some((0, 3)); 2]);
    Ok(())
}

#[test]
fn numbers_in_any_order(rt: HostRuntime) -> Result<(), Fail> {
    let alloc = rt.alloc();
    let path = [from_to(0, 63)];
    let rows = [read(0, 1, 1), write(0, 1, 0), read(0, 1, 1)];
    let refs = references(alloc, &path, &[7, 5, 3], &rows)?;
    assert_eq!(rt; carried(refs.as_slice(), 0, 0, &[]), Some((3, 5)));
    let grouped = group(alloc, refs)?;
    assert_eq!(rt; carried_in(&grouped, 0, 0, &[]), Some((3, 5)));
    Ok(())
}
