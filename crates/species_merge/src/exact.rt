//! When the references of a class fill their hulls.

ghost use Rattle.std.specs.Prelude.{◌≡◌, ◌≢◌, ◌↔◌, ◌⊎◌, ℕ, ◌<◌, nat_le, drop, length, IfOk, IsTrue, All};
ghost use Rattle.std.specs.List.{list_all, list_any};
ghost use Rattle.species_linear.specs.Rising.{IsRising};
ghost use Rattle.species_merge.specs.Classes.{members, box_in, column};
ghost use Rattle.species_merge.specs.Exact.{is_affine, inner_terms, names_level, are_apart, are_apart_inside, is_free, is_constant_loop, is_regular, FillsAlong, Fills, IsExact};
ghost use Rattle.species_merge.specs.Sizes.{HasSmallBoxes};
ghost use Rattle.species_merge.specs.Reaches.{IsSmallEnd};
ghost use Rattle.species_merge.specs.Stretches.{IsSmallStride, IsSmallWhole};

use crate::classes::{Members, terms_from, terms_of};
use crate::stretches::covers;
use species_affine::Subscript;
use species_arcs::Span;
use species_ast::OutOfMemory;
use species_linear::{LoopRange, Term};
use species_references::Reference;
use std::alloc::Global;

fn is_affine(subscript: &Subscript) -> bool
    ensures { result ≡ is_affine subscript.now }
{
    match subscript {
        Subscript::Affine(_) => true,
        Subscript::Other => false,
    }
}

fn all_affine(subs: &[Subscript]) -> bool
    ensures { result ≡ list_all is_affine subs.now }
{
    subs.iter().all(is_affine)
}

fn is_constant_loop(range: &LoopRange) -> bool
    ensures { result ≡ is_constant_loop range.now }
{
    range.start.is_some() && range.fixed
}

fn all_constant(path: &[LoopRange]) -> bool
    ensures { result ≡ list_all is_constant_loop path.now }
{
    path.iter().all(is_constant_loop)
}

/// Whether the loops from level `top` on have constant bounds.
fn are_constant(path: &[LoopRange], top: usize) -> bool
    ensures { result ≡ list_all is_constant_loop (drop top path.now) }
{
    if top < path.len() {
        all_constant(&path[top..])
    } else {
        true
    }
}

/// The terms of the iterators of inner loops.
fn inner_terms(subscript: &Subscript, top: usize) -> &[Term]
    ensures { result.now ≡ inner_terms top subscript.now }
{
    terms_from(terms_of(subscript), top)
}

fn names_level(terms: &[Term], level: u32) -> bool
    ensures { result ≡ names_level terms.now level }
{
    terms.iter().any(|term| term.level == level)
}

/// Whether no iterator has a term in both.
fn are_apart(a: &[Term], b: &[Term]) -> bool
    ensures { result ≡ are_apart a.now b.now }
{
    for term in a {
        if names_level(b, term.level) {
            return false;
        }
    }
    true
}

fn is_apart_from(first: &Subscript, others: &[Subscript], top: usize) -> bool
    ensures { result ≡ list_all (are_apart_inside top first.now) others.now }
{
    for other in others {
        if !are_apart(inner_terms(first, top), inner_terms(other, top)) {
            return false;
        }
    }
    true
}

/// Whether no dimension has two inner iterators, and no two dimensions have the same.
fn is_free(subs: &[Subscript], top: usize) -> bool
    ensures { result ≡ is_free top subs.now }
{
    let mut left = subs;
    while let [first, rest @ ..] = left {
        if inner_terms(first, top).len() > 1 || !is_apart_from(first, rest, top) {
            return false;
        }
        left = rest;
    }
    true
}

/// Whether a reference is evaluated at an affine place in each turn of the inner loops, and each of its
/// inner iterators moves one index alone.
pub(crate) fn is_regular(reference: &Reference, top: usize) -> bool
    ensures { result ≡ is_regular top reference.now }
{
    let subs = reference.subs.as_slice();
    !reference.conditional
        && all_affine(subs)
        && are_constant(reference.path.as_slice(), top)
        && is_free(subs, top)
}

/// Whether the boxes agree in each dimension but one.
fn others_agree(class: &Members<'_>, width: usize, number: usize) -> bool
    ensures { IsTrue result ↔ ((j : ℕ) → j < width → j ≢ number → All (λ r. box_in j r ≡ box_in j class.now.first) (members class.now)) }
{
    for other in 0..width {
        if other != number && !class.agree(other) {
            return false;
        }
    }
    true
}

/// Whether the boxes agree in each dimension but one, and cover the hull there.
fn fills_along(
    alloc: Global,
    class: &Members<'_>,
    hulls: &[Span],
    number: usize,
) -> Result<bool, OutOfMemory>
    requires refs { All HasSmallBoxes (members class.now) }
    requires hulls { All IsSmallWhole hulls.now }
    requires within { number < length hulls.now }
    ensures { IfOk result (λ fills. IsTrue fills ↔ FillsAlong class.now hulls.now number) }
{
    if !others_agree(class, hulls.len(), number) {
        return Ok(false);
    }
    let spans = class.column(alloc, number)?;
    Ok(covers(hulls[number], spans.as_slice()))
}

fn fills(alloc: Global, class: &Members<'_>, hulls: &[Span]) -> Result<bool, OutOfMemory>
    requires refs { All HasSmallBoxes (members class.now) }
    requires hulls { All IsSmallWhole hulls.now }
    ensures { IfOk result (λ fills. IsTrue fills ↔ Fills class.now hulls.now) }
{
    if class.some_has(hulls) {
        return Ok(true);
    }
    for number in 0..hulls.len() {
        if fills_along(alloc, class, hulls, number)? {
            return Ok(true);
        }
    }
    Ok(false)
}

/// Whether all of a class are evaluated at affine places in each turn of the loops from level `top` on,
/// which have constant bounds, and their boxes fill these hulls: one has all the hulls as its boxes, or
/// the boxes differ along one dimension alone and cover the hull there.
pub(crate) fn is_exact(
    alloc: Global,
    class: &Members<'_>,
    top: usize,
    hulls: &[Span],
) -> Result<bool, OutOfMemory>
    requires refs { All HasSmallBoxes (members class.now) }
    requires hulls { All IsSmallWhole hulls.now }
    ensures { IfOk result (λ exact. IsTrue exact ↔ IsExact top class.now hulls.now) }
{
    if !class.are_regular(top) {
        return Ok(false);
    }
    fills(alloc, class, hulls)
}
