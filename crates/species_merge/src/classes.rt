//! Which references form a class, and their boxes.

ghost use Rattle.std.specs.Prelude.{◌≡◌, ◌↔◌, ◌≤◌, true, take, drop, length, IfOk, IsTrue, All};
ghost use Rattle.std.specs.List.{list_any, Any};
ghost use Rattle.species_linear.specs.Rising.{IsRising};
ghost use Rattle.species_merge.specs.Classes.{terms_of, terms_below, terms_from, same_terms, same_front, same_fronts, same_direction, are_alike, class_of, members, box_in, column};
ghost use Rattle.species_merge.specs.Exact.{is_regular};

use crate::exact::is_regular;
use species_affine::Subscript;
use species_arcs::{Dir, Span};
use species_ast::OutOfMemory;
use species_linear::Term;
use species_references::Reference;
use std::alloc::Global;
use std::marker::Model;

/// The terms of a subscript that is affine.
pub(crate) fn terms_of(subscript: &Subscript) -> &[Term]
    ensures value { result.now ≡ terms_of subscript.now }
    ensures rising { IsRising result.now }
{
    match subscript {
        Subscript::Affine(form) => form.terms.as_slice(),
        Subscript::Other => &[],
    }
}

/// How many of the terms, whose levels rise, are of levels below `top`.
fn count_below(terms: &[Term], top: usize) -> usize
    requires { IsRising terms.now }
    ensures within { result ≤ length terms.now }
    ensures below { take result terms.now ≡ terms_below top terms.now }
    ensures behind { drop result terms.now ≡ terms_from top terms.now }
{
    let mut count = 0;
    while count < terms.len() && (terms[count].level as usize) < top {
        count += 1;
    }
    count
}

/// The terms of levels below `top`.
pub(crate) fn terms_below<'a>(terms: &'a [Term], top: usize) -> &'a [Term]
    requires { IsRising terms.now }
    ensures value { result.now ≡ terms_below top terms.now }
    ensures rising { IsRising result.now }
{
    &terms[..count_below(terms, top)]
}

/// The terms of the other levels.
pub(crate) fn terms_from<'a>(terms: &'a [Term], top: usize) -> &'a [Term]
    requires { IsRising terms.now }
    ensures value { result.now ≡ terms_from top terms.now }
    ensures rising { IsRising result.now }
{
    &terms[count_below(terms, top)..]
}

fn same_terms(a: &[Term], b: &[Term]) -> bool
    ensures { result ≡ same_terms a.now b.now }
{
    a == b
}

/// Whether the coefficients of the iterators below level `top` are equal.
fn same_front(a: &Subscript, b: &Subscript, top: usize) -> bool
    ensures { result ≡ same_front top a.now b.now }
{
    same_terms(terms_below(terms_of(a), top), terms_below(terms_of(b), top))
}

/// Whether they are in each dimension.
fn same_fronts(a: &[Subscript], b: &[Subscript], top: usize) -> bool
    ensures { result ≡ same_fronts top a.now b.now }
{
    if a.len() != b.len() {
        return false;
    }
    for (number, subscript) in a.iter().enumerate() {
        if !same_front(subscript, &b[number], top) {
            return false;
        }
    }
    true
}

fn same_direction(a: Dir, b: Dir) -> bool
    ensures { result ≡ same_direction a b }
{
    match a {
        Dir::Read => match b {
            Dir::Read => true,
            Dir::Write => false,
            Dir::Add => false,
        },
        Dir::Write => match b {
            Dir::Read => false,
            Dir::Write => true,
            Dir::Add => false,
        },
        Dir::Add => match b {
            Dir::Read => false,
            Dir::Write => false,
            Dir::Add => true,
        },
    }
}

/// Whether two references are of one class. The iterators below level `top` are those of the loops around
/// the nest and of its band.
pub(crate) fn are_alike(a: &Reference, b: &Reference, top: usize) -> bool
    ensures { result ≡ are_alike top a.now b.now }
{
    a.array == b.array
        && same_direction(a.dir, b.dir)
        && same_fronts(a.subs.as_slice(), b.subs.as_slice(), top)
}

/// Whether a reference is of the class of one of these.
pub(crate) fn is_alike_one(a: &Reference, before: &[Reference], top: usize) -> bool
    ensures { result ≡ list_any (are_alike top a.now) before.now }
{
    for b in before {
        if are_alike(a, b, top) {
            return true;
        }
    }
    false
}

/// A class of references.
#[derive(Drop)]
pub(crate) struct Members<'a> {
    first: &'a Reference,
    /// The references behind the first, among them the others of the class.
    behind: &'a [Reference],
    top: usize,
}

impl<'a> Model for Members<'a> {
    ghost use Rattle.species_merge.specs.Classes.{Class, class_of};

    ghost Value = { Class };

    ghost view = { λ m. class_of m.top m.first.now m.behind.now };
}

impl<'a> Members<'a> {
    /// The class of a reference, where these stand behind it.
    pub(crate) fn new(first: &'a Reference, behind: &'a [Reference], top: usize) -> Members<'a>
        ensures { result ≡ class_of top first.now behind.now }
    {
        Members { first, behind, top }
    }

    pub(crate) fn first(&self) -> &'a Reference
        ensures { result.now ≡ self.now.first }
    {
        self.first
    }

    /// The boxes in a dimension.
    pub(crate) fn column(&self, alloc: Global, number: usize) -> Result<Vec<Span>, OutOfMemory>
        ensures { IfOk result (λ spans. spans.items ≡ column (members self.now) number) }
    {
        column_of(alloc, self.first, self.behind, self.top, number)
    }

    /// Whether all have the box of the first in a dimension.
    pub(crate) fn agree(&self, number: usize) -> bool
        ensures { IsTrue result ↔ All (λ r. box_in number r ≡ box_in number self.now.first) (members self.now) }
    {
        all_agree(self.first, self.behind, self.top, number)
    }

    /// Whether one of them has these boxes.
    pub(crate) fn some_has(&self, boxes: &[Span]) -> bool
        ensures { IsTrue result ↔ Any (λ r. r.boxes ≡ boxes.now) (members self.now) }
    {
        some_has(self.first, self.behind, self.top, boxes)
    }

    /// Whether all are evaluated at affine places in each turn of the inner loops, and each of their inner
    /// iterators moves one index alone.
    pub(crate) fn are_regular(&self, top: usize) -> bool
        ensures { IsTrue result ↔ All (λ r. is_regular top r ≡ true) (members self.now) }
    {
        all_regular(self.first, self.behind, self.top, top)
    }
}

fn column_of(
    alloc: Global,
    first: &Reference,
    behind: &[Reference],
    top: usize,
    number: usize,
) -> Result<Vec<Span>, OutOfMemory>
    ensures { IfOk result (λ spans. spans.items ≡ column (members (class_of top first.now behind.now)) number) }
{
    let mut spans = Vec::new(alloc);
    spans.push(box_in(first, number))?;
    for reference in behind {
        if are_alike(first, reference, top) {
            spans.push(box_in(reference, number))?;
        }
    }
    Ok(spans)
}

fn all_agree(first: &Reference, behind: &[Reference], top: usize, number: usize) -> bool
    ensures { IsTrue result ↔ All (λ r. box_in number r ≡ box_in number first.now) (members (class_of top first.now behind.now)) }
{
    for reference in behind {
        if are_alike(first, reference, top) && !same_box(reference, first, number) {
            return false;
        }
    }
    true
}

fn some_has(first: &Reference, behind: &[Reference], top: usize, boxes: &[Span]) -> bool
    ensures { IsTrue result ↔ Any (λ r. r.boxes ≡ boxes.now) (members (class_of top first.now behind.now)) }
{
    if has_boxes(first, boxes) {
        return true;
    }
    for reference in behind {
        if are_alike(first, reference, top) && has_boxes(reference, boxes) {
            return true;
        }
    }
    false
}

fn all_regular(first: &Reference, behind: &[Reference], top: usize, inner: usize) -> bool
    ensures { IsTrue result ↔ All (λ r. is_regular inner r ≡ true) (members (class_of top first.now behind.now)) }
{
    if !is_regular(first, inner) {
        return false;
    }
    for reference in behind {
        if are_alike(first, reference, top) && !is_regular(reference, inner) {
            return false;
        }
    }
    true
}

/// Whether two references have equal boxes in a dimension.
fn same_box(a: &Reference, b: &Reference, number: usize) -> bool
    ensures { IsTrue result ↔ box_in number a.now ≡ box_in number b.now }
{
    box_in(a, number) == box_in(b, number)
}

/// The box of a reference in a dimension.
fn box_in(reference: &Reference, number: usize) -> Span
    ensures { result ≡ box_in number reference.now }
{
    match reference.boxes.as_slice().get(number) {
        Some(span) => *span,
        None => Span {
            low: 0,
            high: 0,
            stride: 1,
        },
    }
}

fn has_boxes(reference: &Reference, boxes: &[Span]) -> bool
    ensures { IsTrue result ↔ reference.now.boxes ≡ boxes.now }
{
    reference.boxes.as_slice() == boxes
}
