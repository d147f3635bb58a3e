//! The arcs of the classes of references.

ghost use Rattle.std.specs.Prelude.{◌≡◌, ◌≢◌, suc, ◌<◌, ◌≤◌, ◌+◌, ◌/◌, ◌^◌, ◌+ℤ◌, ◌-ℤ◌, ◌≤ℤ◌, pos, List, length, map, IfOk, All};
ghost use Rattle.std.specs.Int.RustNames.{unsigned_abs};
ghost use Rattle.species_arcs.specs.Sizes.{HasSmallSpan};
ghost use Rattle.species_arcs.specs.declared.spans.Span.{Span};
ghost use Rattle.species_merge.specs.Arcs.{added_in, IsDimOf, AreDimsFrom, IsArcOf, AreArcsOf};
ghost use Rattle.species_merge.specs.Classes.{members, column};
ghost use Rattle.species_merge.specs.Hulls.{IsHullOf};
ghost use Rattle.species_merge.specs.Sizes.{IsSmallSubscript, IsSmallBox, HasSmallBoxes, IsMergeable, IsSmallBound};

use crate::bands::{BandBound, copied, end_of, step_of};
use crate::classes::{Members, is_alike_one, terms_below, terms_from, terms_of};
use crate::exact::is_exact;
use crate::hulls::{hull, way};
use species_affine::Subscript;
use species_arcs::{Arc, ArcDim, Span};
use species_ast::OutOfMemory;
use species_linear::Form;
use species_references::Reference;
use sqlite_items::Items;
use std::alloc::Global;

/// What does not move in the indices of a dimension.
#[derive(Clone, Copy, Debug)]
struct Offsets {
    constant: i128,
    a: i128,
    b: i128,
    elements: u128,
}

/// The offsets of the indices with this hull. Where it is one number, that is the constant.
fn offsets_of(reach: Span) -> Offsets
    requires { IsSmallBox reach }
    ensures low { result.constant +ℤ result.a ≡ reach.low }
    ensures high { result.constant +ℤ result.b ≡ reach.high }
    ensures single { result.a ≡ result.b → result.a ≡ pos 0 }
    ensures several { result.a ≢ result.b → result.constant ≡ pos 0 }
    ensures elements { result.elements ≡ suc (unsigned_abs (result.b -ℤ result.a) / reach.stride) }
    ensures ordered { result.a ≤ℤ result.b }
    ensures small_constant { unsigned_abs result.constant < 2 ^ 70 }
    ensures small_a { unsigned_abs result.a < 2 ^ 70 }
    ensures small_b { unsigned_abs result.b < 2 ^ 70 }
{
    if reach.low == reach.high {
        return Offsets {
            constant: reach.low,
            a: 0,
            b: 0,
            elements: 1,
        };
    }
    Offsets {
        constant: 0,
        a: reach.low,
        b: reach.high,
        elements: way(reach.low, reach.high) / reach.stride + 1,
    }
}

/// A dimension of an arc, from the subscript of the class's first reference and the hull of the boxes.
fn dim_of(
    alloc: Global,
    outer: usize,
    bands: &[BandBound],
    subscript: &Subscript,
    reach: Span,
) -> Result<ArcDim, OutOfMemory>
    requires outer { outer < 2 ^ 32 }
    requires few { length bands.now ≤ 16 }
    requires bounds { All IsSmallBound bands.now }
    requires subscript { IsSmallSubscript subscript.now }
    requires reach { IsSmallBox reach }
    ensures dim { IfOk result (λ d. (xs : List Span) → IsHullOf xs reach → IsDimOf outer bands.now subscript.now xs d) }
    ensures reach { IfOk result (λ d. added_in d ≡ reach) }
    ensures span { IfOk result HasSmallSpan }
{
    let offsets = offsets_of(reach);
    let fixed = terms_below(terms_of(subscript), outer + bands.len());
    let terms = copied(alloc, fixed)?;
    let at = Form {
        constant: offsets.constant,
        terms,
    };
    let low = end_of(alloc, true, outer, bands, &at, offsets.a)?;
    let high = end_of(alloc, false, outer, bands, &at, offsets.b)?;
    let step = step_of(outer, bands, at.terms.as_slice());
    let driven = !terms_from(at.terms.as_slice(), outer).is_empty();
    Ok(ArcDim {
        at,
        a: offsets.a,
        b: offsets.b,
        stride: reach.stride,
        low,
        high,
        elements: offsets.elements,
        step,
        driven,
    })
}

/// The hull of a class's boxes in a dimension.
fn reach_of(alloc: Global, class: &Members<'_>, number: usize) -> Result<Span, OutOfMemory>
    requires { All HasSmallBoxes (members class.now) }
    ensures hull { IfOk result (IsHullOf (column (members class.now) number)) }
    ensures small { IfOk result IsSmallBox }
{
    let spans = class.column(alloc, number)?;
    let reach = hull(spans.as_slice());
    Ok(reach)
}

/// The dimensions of an arc, and the hulls of the boxes in them.
#[derive(Drop)]
struct Dims {
    dims: Items<ArcDim>,
    hulls: Vec<Span>,
}

/// The dimensions of a class's arc.
fn dims_of(
    alloc: Global,
    outer: usize,
    bands: &[BandBound],
    class: &Members<'_>,
    subs: &[Subscript],
) -> Result<Dims, OutOfMemory>
    requires outer { outer < 2 ^ 32 }
    requires few { length bands.now ≤ 16 }
    requires bounds { All IsSmallBound bands.now }
    requires boxes { All HasSmallBoxes (members class.now) }
    requires subs { All IsSmallSubscript subs.now }
    ensures dims { IfOk result (λ r. AreDimsFrom outer bands.now (members class.now) 0 subs.now r.dims) }
    ensures hulls { IfOk result (λ r. r.hulls.items ≡ map added_in r.dims) }
    ensures small { IfOk result (λ r. All IsSmallBox r.hulls.items) }
    ensures spans { IfOk result (λ r. All HasSmallSpan r.dims) }
{
    let mut dims = Items::new(alloc);
    let mut hulls = Vec::new(alloc);
    for (number, subscript) in subs.iter().enumerate() {
        let reach = reach_of(alloc, class, number)?;
        dims.push(dim_of(alloc, outer, bands, subscript, reach)?)?;
        hulls.push(reach)?;
    }
    Ok(Dims { dims, hulls })
}

/// The arc of a class.
fn arc_of(
    alloc: Global,
    outer: usize,
    bands: &[BandBound],
    class: &Members<'_>,
) -> Result<Arc, OutOfMemory>
    requires outer { outer < 2 ^ 32 }
    requires few { length bands.now ≤ 16 }
    requires bounds { All IsSmallBound bands.now }
    requires refs { All IsMergeable (members class.now) }
    ensures arc { IfOk result (IsArcOf outer bands.now class.now) }
    ensures spans { IfOk result (λ arc. All HasSmallSpan arc.dims) }
{
    let first = class.first();
    let Dims { dims, hulls } = dims_of(alloc, outer, bands, class, first.subs.as_slice())?;
    let exact = is_exact(alloc, class, outer + bands.len(), hulls.as_slice())?;
    Ok(Arc {
        array: first.array,
        dir: first.dir,
        dims,
        exact,
    })
}

/// The arcs of references in `outer` loops around the nest, for the band of `depth` loops with these
/// bounds. References with equal array, direction and coefficients of the iterators of all these loops
/// have one arc.
pub fn merge(
    alloc: Global,
    refs: &[Reference],
    outer: u32,
    depth: u32,
    bands: &[BandBound],
) -> Result<Vec<Arc>, OutOfMemory>
    requires depth { length bands.now ≡ depth }
    requires few { depth ≤ 16 }
    requires bounds { All IsSmallBound bands.now }
    requires refs { All IsMergeable refs.now }
    ensures arcs { IfOk result (λ arcs. AreArcsOf outer bands.now refs.now arcs.items) }
    ensures spans { IfOk result (λ arcs. All (λ arc. All HasSmallSpan arc.dims) arcs.items) }
{
    let outer = outer as usize;
    let top = outer + depth as usize;
    let mut arcs = Vec::new(alloc);
    for (number, first) in refs.iter().enumerate() {
        if is_alike_one(first, &refs[..number], top) {
            continue;
        }
        let class = Members::new(first, &refs[number + 1..], top);
        arcs.push(arc_of(alloc, outer, bands, &class)?)?;
    }
    Ok(arcs)
}
