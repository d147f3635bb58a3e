//! Boxes: what the iterators of inner loops add to an index.

ghost use Rattle.std.specs.Prelude.{◌≡◌, ◌≤◌, ◌<◌, ◌^◌, ◌+◌, ◌*◌, ◌+ℤ◌, ◌*ℤ◌, if◌then◌else◌, nat_eq, nat_lt, [], ◌∷◌, ◌++◌, OnOk, OnErr, All, Option};
ghost use Rattle.std.specs.Int.{IsGcd};
ghost use Rattle.std.specs.Int.RustNames.{unsigned_abs};
ghost use Rattle.species_affine.specs.Limited.{IsWithin};
ghost use Rattle.species_affine.specs.Subscript.{IsSubscript, IsSameForm, HasFormNumbers};
ghost use Rattle.species_ast.specs.Scope.Forms as text;
ghost use Rattle.species_ast.specs.Scope.Hulls.{least_product, greatest_product};
ghost use Rattle.species_linear.specs.Box.{zero_range, range_at};
ghost use Rattle.species_references.specs.Ranges.{range_seen, ranges_seen};
ghost use Rattle.species_references.specs.Boxes.{unit_of, gap_of, IsBoxOf, IsBoxIn};

use species_affine::Subscript;
use species_arcs::Span;
use species_linear::{Form, LoopRange, Term};
use std::alloc::{AllocError, Global};
use std::marker::Model;

/// The box of each dimension of an element.
#[derive(Debug, Drop)]
pub struct Boxes {
    list: Vec<Span>,
}

impl Model for Boxes {
    ghost use Rattle.std.specs.Prelude.{List};
    ghost use Rattle.species_arcs.specs.declared.spans.Span.{Span};

    ghost Value = { List Span };

    ghost view = { λ b. b.list.items };
}

impl Boxes {
    /// No boxes. It takes no memory.
    pub fn new(alloc: Global) -> Self
        ensures { result ≡ [] }
    {
        Boxes {
            list: Vec::new(alloc),
        }
    }

    pub fn push(&mut self, span: Span) -> Result<(), AllocError>
        ensures ok { OnOk result (self.new ≡ self.old ++ span ∷ []) }
        ensures err { OnErr result (self.new ≡ self.old) }
    {
        self.list.push(span)?;
        Ok(())
    }

    pub fn as_slice(&self) -> &[Span]
        ensures { result.now ≡ self.now }
    {
        self.list.as_slice()
    }
}

/// The box of a subscript in a dimension of this size. The inner loops are those from level `inner` on.
pub(crate) fn box_of(subscript: &Subscript, inner: usize, path: &[LoopRange], size: u32) -> Span
    requires { HasFormNumbers subscript.now }
    ensures { (o : Option text.Form) → IsSubscript subscript.now o → IsBoxIn inner (ranges_seen path.now) size o result }
{
    match subscript {
        Subscript::Affine(form) => inner_box(form, inner, path),
        Subscript::Other => Span {
            low: 0,
            high: size as i128 - 1,
            stride: 1,
        },
    }
}

/// The least and the greatest value of a sum of terms, and the greatest common divisor of their gaps.
#[derive(Clone, Copy, Debug)]
pub(crate) struct Extent {
    low: i128,
    high: i128,
    divisor: u128,
}

/// The box of the inner part of a form.
fn inner_box(form: &Form, inner: usize, path: &[LoopRange]) -> Span
    requires constant { IsWithin form.now.constant }
    requires coefficients { All (λ t. IsWithin t.coefficient) form.now.terms }
    ensures { (f : text.Form) → IsSameForm form.now f → IsBoxOf inner (ranges_seen path.now) f result }
{
    let mut extent = Extent {
        low: form.constant,
        high: form.constant,
        divisor: 0,
    };
    for term in form.terms.as_slice() {
        let range = inner_range(path, inner, term.level);
        extent = with_term(extent, *term, range);
    }
    finish(extent)
}

/// The range of an inner loop. Of any other level it holds 0 alone.
fn inner_range(path: &[LoopRange], inner: usize, level: u32) -> LoopRange
    ensures value { result ≡ (if nat_lt level inner then zero_range else range_at path.now level) }
    ensures level { level < 2 ^ 32 }
{
    let level = level as usize;
    if level < inner || level >= path.len() {
        LoopRange {
            low: 0,
            high: 0,
            step: 0,
            start: None,
            fixed: false,
        }
    } else {
        path[level]
    }
}

/// With one term more.
fn with_term(extent: Extent, term: Term, range: LoopRange) -> Extent
    requires small_low { unsigned_abs extent.low ≤ 2 ^ 126 + 2 ^ 94 }
    requires small_high { unsigned_abs extent.high ≤ 2 ^ 126 + 2 ^ 94 }
    requires small { IsWithin term.coefficient }
    ensures low { result.low ≡ extent.low +ℤ least_product term.coefficient (range_seen range) }
    ensures high { result.high ≡ extent.high +ℤ greatest_product term.coefficient (range_seen range) }
    ensures grows_low { unsigned_abs result.low ≤ unsigned_abs extent.low + 2 ^ 94 }
    ensures grows_high { unsigned_abs result.high ≤ unsigned_abs extent.high + 2 ^ 94 }
    ensures divisor { IsGcd extent.divisor (gap_of term.coefficient (range_seen range)) result.divisor }
{
    Extent {
        low: extent.low + least_product(term, range),
        high: extent.high + greatest_product(term, range),
        divisor: gcd(extent.divisor, gap(term, range)),
    }
}

fn finish(extent: Extent) -> Span
    ensures { result ≡ record { low = extent.low; high = extent.high; stride = if nat_eq extent.divisor 0 then 1 else extent.divisor } }
{
    Span {
        low: extent.low,
        high: extent.high,
        stride: if extent.divisor == 0 {
            1
        } else {
            extent.divisor
        },
    }
}

fn least_product(term: Term, range: LoopRange) -> i128
    requires { IsWithin term.coefficient }
    ensures value { result ≡ least_product term.coefficient (range_seen range) }
    ensures small { unsigned_abs result ≤ 2 ^ 94 }
{
    if term.coefficient < 0 {
        product(term.coefficient, range.high)
    } else {
        product(term.coefficient, range.low)
    }
}

fn greatest_product(term: Term, range: LoopRange) -> i128
    requires { IsWithin term.coefficient }
    ensures value { result ≡ greatest_product term.coefficient (range_seen range) }
    ensures small { unsigned_abs result ≤ 2 ^ 94 }
{
    if term.coefficient < 0 {
        product(term.coefficient, range.low)
    } else {
        product(term.coefficient, range.high)
    }
}

fn product(coefficient: i128, end: i64) -> i128
    requires { IsWithin coefficient }
    ensures value { result ≡ coefficient *ℤ end }
    ensures small { unsigned_abs result ≤ 2 ^ 94 }
{
    coefficient * end as i128
}

/// Two products of the coefficient with the iterator are a multiple of this apart. It is 0 where the
/// iterator has one value.
fn gap(term: Term, range: LoopRange) -> u128
    requires { IsWithin term.coefficient }
    ensures { result ≡ gap_of term.coefficient (range_seen range) }
{
    if range.low == range.high {
        0
    } else {
        scaled(term.coefficient, unit(range))
    }
}

fn scaled(coefficient: i128, unit: u32) -> u128
    requires { IsWithin coefficient }
    ensures { result ≡ unsigned_abs coefficient * unit }
{
    coefficient.unsigned_abs() * unit as u128
}

/// Two values of the iterator are a multiple of this apart.
fn unit(range: LoopRange) -> u32
    ensures { result ≡ unit_of (range_seen range) }
{
    if range.start.is_some() && range.fixed {
        range.step.unsigned_abs()
    } else {
        1
    }
}

/// The greatest common divisor.
fn gcd(a: u128, b: u128) -> u128
    ensures { IsGcd a b result }
{
    let mut x = a;
    let mut y = b;
    while y != 0 {
        let rest = x % y;
        x = y;
        y = rest;
    }
    x
}
