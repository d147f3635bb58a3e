//! Arcs of two references that one loop makes.

ghost use Rattle.std.specs.Prelude.{◌^◌, IfOk};
ghost use Rattle.species_merge.specs.Sizes.{HasNumbers, IsSmallBox, IsMergeable, IsSmallBound};

use super::{BandBound, merge};
use species_affine::Subscript;
use species_arcs::{Dir, Span};
use species_linear::{Form, Ranges, Term, Terms};
use species_references::{Boxes, Reference};
use sqlite_items::Items;
use std::alloc::{AllocError, Global};
use std::test::Fail;

/// What a reference adds to the iterator in a dimension: numbers from the first on, at equal distances.
#[derive(Clone, Copy)]
struct Added {
    first: i8,
    length: u8,
    stride: u8,
}

fn at(first: i8) -> Added {
    Added {
        first,
        length: 0,
        stride: 1,
    }
}

fn from(first: i8, length: u8, stride: u8) -> Added {
    Added {
        first,
        length,
        stride,
    }
}

fn iterator(alloc: Global, constant: i8) -> Result<Form, AllocError>
    ensures { IfOk result (HasNumbers (2 ^ 40)) }
{
    let mut terms = Terms::new(alloc);
    terms.push(Term {
        level: 0,
        coefficient: 1,
    })?;
    Ok(Form {
        constant: i128::from(constant),
        terms,
    })
}

fn added_box(added: Added) -> Span
    ensures { IsSmallBox result }
{
    Span {
        low: i128::from(added.first),
        high: i128::from(added.first) + i128::from(added.length),
        stride: u128::from(added.stride.max(1)),
    }
}

fn reference(alloc: Global, added: Added) -> Result<Reference, AllocError>
    ensures { IfOk result IsMergeable }
{
    let mut subs = Items::new(alloc);
    subs.push(Subscript::Affine(iterator(alloc, added.first)?))?;
    let mut boxes = Boxes::new(alloc);
    boxes.push(added_box(added))?;
    Ok(Reference {
        number: 0,
        array: 0,
        dir: Dir::Read,
        subs,
        conditional: false,
        path: Ranges::new(alloc),
        boxes,
    })
}

/// The bounds of `for (i = 1; i < 63; i++)`.
fn bound(alloc: Global) -> BandBound
    ensures { IsSmallBound result }
{
    BandBound {
        least: Form {
            constant: 1,
            terms: Terms::new(alloc),
        },
        greatest: Form {
            constant: 62,
            terms: Terms::new(alloc),
        },
        step: 1,
    }
}

/// The dimension of the only arc, and whether the arc is exact.
#[derive(Clone, Copy, Debug, PartialEq, Eq)]
struct Shown {
    a: i128,
    b: i128,
    stride: u128,
    low: i128,
    high: i128,
    elements: u128,
    exact: bool,
}

/// The dimension with these offsets, of the iterator's values from 1 to 62.
fn shown_as(a: i8, b: i8, stride: u128, elements: u128, exact: bool) -> Shown {
    let (a, b) = (i128::from(a), i128::from(b));
    Shown {
        a,
        b,
        stride,
        low: 1 + a,
        high: 62 + b,
        elements,
        exact,
    }
}

#[tactic(auto, using(crate::proofs::TestLemmas::two_mergeable, crate::proofs::TestLemmas::one_bound))]
fn only_arc(alloc: Global, first: Added, second: Added) -> Result<Option<Shown>, Fail> {
    let refs = [reference(alloc, first)?, reference(alloc, second)?];
    let bands = [bound(alloc)];
    let arcs = merge(alloc, &refs, 0, 1, &bands)?;
    let [arc] = arcs.as_slice() else {
        return Ok(None);
    };
    let Some(dim) = arc.dims.get(0) else {
        return Ok(None);
    };
    Ok(Some(Shown {
        a: dim.a,
        b: dim.b,
        stride: dim.stride,
        low: dim.low.constant,
        high: dim.high.constant,
        elements: dim.elements,
        exact: arc.exact,
    }))
}

#[test]
fn two_references_are_merged(rt: HostRuntime) -> Result<(), Fail> {
    let rows = [
        (at(0), at(0), shown_as(0, 0, 1, 1, true)),
        (at(-1), at(0), shown_as(-1, 0, 1, 2, true)),
        (at(-1), at(1), shown_as(-1, 1, 2, 2, true)),
        (from(0, 6, 2), from(0, 6, 2), shown_as(0, 6, 2, 4, true)),
        (from(0, 6, 2), at(1), shown_as(0, 6, 1, 7, false)),
        (from(0, 6, 2), from(1, 4, 2), shown_as(0, 6, 1, 7, true)),
    ];
    for (first, second, row) in rows {
        assert_eq!(rt; only_arc(rt.alloc(), first, second)?, Some(row));
    }
    Ok(())
}
