//! Worked examples of given arcs that cover derived ones, or do not.

ghost use Rattle.std.specs.Prelude.{◌≡◌, ◌≤◌, ◌^◌, All, IfOk};
ghost use Rattle.std.specs.Int.RustNames.{unsigned_abs};
ghost use Rattle.species_cover.specs.Sizes.{HasSmallGivenDim, HasSmallArcDim, HasSmallGiven, HasSmallDerived};

use super::{Differs, covers};
use species_arcs::{Arc, ArcDim, Dir};
use species_linear::{Form, Term, Terms};
use species_notation::{GivenArc, GivenDim, SpeciesLine};
use sqlite_items::Items;
use std::alloc::{AllocError, Global};
use std::test::Fail;

/// An arc of one dimension, which moves with the first iterator.
#[derive(Clone, Copy)]
struct Offsets {
    a: i8,
    b: i8,
    stride: u8,
    exact: bool,
}

fn moved(a: i8, b: i8, stride: u8, exact: bool) -> Offsets {
    Offsets {
        a,
        b,
        stride,
        exact,
    }
}

fn first_iterator(alloc: Global) -> Result<Form, AllocError>
    ensures { IfOk result (λ f. unsigned_abs f.constant ≤ 2 ^ 70) }
{
    let mut terms = Terms::new(alloc);
    terms.push(Term {
        level: 0,
        coefficient: 1,
    })?;
    Ok(Form { constant: 0, terms })
}

fn given_dim(alloc: Global, of: Offsets) -> Result<GivenDim, AllocError>
    ensures { IfOk result HasSmallGivenDim }
{
    Ok(GivenDim {
        at: first_iterator(alloc)?,
        a: i128::from(of.a),
        b: i128::from(of.b),
        stride: u128::from(of.stride) + 1,
    })
}

fn given_arc(alloc: Global, of: Offsets) -> Result<GivenArc, AllocError>
    ensures { IfOk result HasSmallGiven }
{
    let mut dims = Items::new(alloc);
    dims.push(given_dim(alloc, of)?)?;
    Ok(GivenArc {
        array: Some(0),
        dir: Dir::Read,
        dims,
        exact: of.exact,
        known: true,
    })
}

fn given_line(alloc: Global, of: Offsets) -> Result<SpeciesLine, AllocError>
    ensures { IfOk result (λ line. All HasSmallGiven line.arcs) }
{
    let mut arcs = Items::new(alloc);
    arcs.push(given_arc(alloc, of)?)?;
    Ok(SpeciesLine { arcs })
}

fn arc_dim(alloc: Global, of: Offsets) -> Result<ArcDim, AllocError>
    ensures { IfOk result HasSmallArcDim }
{
    Ok(ArcDim {
        at: first_iterator(alloc)?,
        a: i128::from(of.a),
        b: i128::from(of.b),
        stride: u128::from(of.stride) + 1,
        low: first_iterator(alloc)?,
        high: first_iterator(alloc)?,
        elements: 1,
        step: 1,
        driven: true,
    })
}

fn arc(alloc: Global, of: Offsets) -> Result<Arc, AllocError>
    ensures { IfOk result HasSmallDerived }
{
    let mut dims = Items::new(alloc);
    dims.push(arc_dim(alloc, of)?)?;
    Ok(Arc {
        array: 0,
        dir: Dir::Read,
        dims,
        exact: of.exact,
    })
}

fn arcs(alloc: Global, of: Offsets) -> Result<Items<Arc>, AllocError>
    ensures { IfOk result (λ all. All HasSmallDerived all) }
{
    let mut all = Items::new(alloc);
    all.push(arc(alloc, of)?)?;
    Ok(all)
}

fn is_covered(alloc: Global, given: Offsets, derived: Offsets) -> Result<bool, AllocError> {
    let line = given_line(alloc, given)?;
    let all = arcs(alloc, derived)?;
    Ok(covers(&line, all.as_slice()) != Err(Differs(0)))
}

/// The number behind both offsets is one less than the stride.
#[test]
fn lines_cover_or_differ(rt: HostRuntime) -> Result<(), Fail> {
    let rows = [
        (moved(-1, 1, 0, false), moved(-1, 1, 1, true), true),
        (moved(-1, 1, 1, false), moved(-1, 1, 0, true), false),
        (moved(0, 1, 0, false), moved(-1, 1, 0, true), false),
        (moved(-2, 2, 0, false), moved(-1, 1, 0, true), true),
        (moved(-1, 1, 0, true), moved(-1, 1, 0, true), true),
        (moved(-2, 2, 0, true), moved(-1, 1, 0, true), false),
        (moved(-1, 1, 0, true), moved(-1, 1, 0, false), false),
        (moved(0, 0, 0, true), moved(0, 0, 4, true), true),
        (moved(0, 6, 2, false), moved(0, 6, 5, true), true),
        (moved(0, 6, 1, false), moved(0, 5, 4, true), false),
        (moved(0, 6, 1, false), moved(2, 7, 3, true), true),
        (moved(0, 8, 1, false), moved(0, 6, 2, true), false),
    ];
    for (given, derived, covered) in rows {
        assert_eq!(rt; is_covered(rt.alloc(), given, derived)?, covered);
    }
    Ok(())
}
