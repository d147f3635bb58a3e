//! The band of a nest: how far its iterators move an index, and the forms of its ends.

ghost use Rattle.std.specs.Prelude.{◌≡◌, ℕ, ◌+◌, ◌*◌, ◌-◌, ◌≤◌, ◌<◌, ◌^◌, ℤ, pos, ◌+ℤ◌, ◌*ℤ◌, [], ◌∷◌, ◌++◌, List, length, IfOk, OnOk, All};
ghost use Rattle.std.specs.Int.RustNames.{unsigned_abs};
ghost use Rattle.species_linear.specs.Point.{Point};
ghost use Rattle.species_linear.specs.Rising.{IsRising, IsRisingFrom};
ghost use Rattle.species_linear.specs.Value.{form_at, sum_at};
ghost use Rattle.species_merge.specs.Classes.{terms_below, terms_from};
ghost use Rattle.species_merge.specs.Bands.{bound_at, moves_of, unless_zero, IsLeastAmong, IsLeastSoFar, end_form, IsEndOf};
ghost use Rattle.species_merge.specs.Sizes.{HasTerms, HasNumbers, IsSmallBound};

use crate::classes::{terms_below, terms_from};
use species_ast::OutOfMemory;
use species_linear::{Form, Term, Terms};
use std::alloc::Global;

/// The least and the greatest value of an iterator of the band, and its step.
#[derive(Debug, Drop)]
pub struct BandBound {
    pub least: Form,
    pub greatest: Form,
    pub step: i32,
}

/// Appends terms.
fn append(out: &mut Terms, terms: &[Term]) -> Result<(), OutOfMemory>
    requires { IsRising (out.old ++ terms.now) }
    ensures { OnOk result (out.new ≡ out.old ++ terms.now) }
{
    for term in terms {
        out.push(*term)?;
    }
    Ok(())
}

/// The same terms.
pub(crate) fn copied(alloc: Global, terms: &[Term]) -> Result<Terms, OutOfMemory>
    requires { IsRising terms.now }
    ensures { IfOk result (λ out. out ≡ terms.now) }
{
    let mut out = Terms::new(alloc);
    append(&mut out, terms)?;
    Ok(out)
}

/// Appends a term, if its coefficient is not 0.
fn put(out: &mut Terms, term: Term) -> Result<(), OutOfMemory>
    requires { All (λ t. t.level < term.level) out.old }
    ensures { OnOk result (out.new ≡ out.old ++ unless_zero term) }
{
    if term.coefficient == 0 {
        return Ok(());
    }
    out.push(term)?;
    Ok(())
}

/// Two terms of one level as one.
fn joint(a: Term, b: Term) -> Term
    requires first { unsigned_abs a.coefficient ≤ 2 ^ 120 }
    requires second { unsigned_abs b.coefficient ≤ 2 ^ 80 }
    ensures level { result.level ≡ a.level }
    ensures value { result.coefficient ≡ a.coefficient +ℤ b.coefficient }
{
    Term {
        level: a.level,
        coefficient: a.coefficient + b.coefficient,
    }
}

/// Terms of which none has a lower level, with one more: the term at its level, and those behind it.
fn joined<'a>(rest: &'a [Term], added: Term) -> (Term, &'a [Term])
    requires rising { IsRisingFrom added.level rest.now }
    requires small { HasTerms (2 ^ 120) rest.now }
    requires added { unsigned_abs added.coefficient ≤ 2 ^ 80 }
    ensures level { result.0.level ≡ added.level }
    ensures value { (p : Point) → result.0.coefficient *ℤ p added.level +ℤ sum_at result.1.now p ≡ sum_at rest.now p +ℤ added.coefficient *ℤ p added.level }
    ensures rising { IsRisingFrom (added.level + 1) result.1.now }
    ensures numbers { (m : ℕ) → HasTerms m rest.now → unsigned_abs result.0.coefficient ≤ m + unsigned_abs added.coefficient }
    ensures behind { (m : ℕ) → HasTerms m rest.now → HasTerms m result.1.now }
{
    let [first, behind @ ..] = rest else {
        return (added, rest);
    };
    if first.level != added.level {
        return (added, rest);
    }
    (joint(*first, added), behind)
}

/// The terms with one more.
fn with_term(alloc: Global, terms: &[Term], added: Term) -> Result<Terms, OutOfMemory>
    requires rising { IsRising terms.now }
    requires small { HasTerms (2 ^ 120) terms.now }
    requires added { unsigned_abs added.coefficient ≤ 2 ^ 80 }
    ensures rising { IfOk result IsRising }
    ensures value { IfOk result (λ out. (p : Point) → sum_at out p ≡ sum_at terms.now p +ℤ added.coefficient *ℤ p added.level) }
    ensures numbers { IfOk result (λ out. (m : ℕ) → HasTerms m terms.now → HasTerms (m + unsigned_abs added.coefficient) out) }
{
    let level = added.level as usize;
    let (term, behind) = joined(terms_from(terms, level), added);
    let mut out = copied(alloc, terms_below(terms, level))?;
    put(&mut out, term)?;
    append(&mut out, behind)?;
    Ok(out)
}

/// A term, c times.
fn times(c: i128, term: Term) -> Term
    requires c { unsigned_abs c ≤ 2 ^ 40 }
    requires term { unsigned_abs term.coefficient ≤ 2 ^ 40 }
    ensures level { result.level ≡ term.level }
    ensures value { result.coefficient ≡ c *ℤ term.coefficient }
    ensures small { unsigned_abs result.coefficient ≤ 2 ^ 80 }
{
    Term {
        level: term.level,
        coefficient: c * term.coefficient,
    }
}

/// The terms with c times others.
fn with_multiple(
    alloc: Global,
    terms: Terms,
    c: i128,
    others: &[Term],
) -> Result<Terms, OutOfMemory>
    requires terms { IsRising terms }
    requires small { HasTerms (2 ^ 118) terms }
    requires c { unsigned_abs c ≤ 2 ^ 40 }
    requires others { HasTerms (2 ^ 40) others.now }
    requires rising { IsRising others.now }
    ensures rising { IfOk result IsRising }
    ensures value { IfOk result (λ out. (p : Point) → sum_at out p ≡ sum_at terms p +ℤ c *ℤ sum_at others.now p) }
    ensures numbers { IfOk result (λ out. (m : ℕ) → HasTerms m terms → HasTerms (m + 2 ^ 112) out) }
{
    let mut sum = terms;
    for term in others {
        sum = with_term(alloc, sum.as_slice(), times(c, *term))?;
    }
    Ok(sum)
}

/// The constant of a form with c times another.
fn constant_with(form: &Form, c: i128, other: &Form) -> i128
    requires small { unsigned_abs form.now.constant ≤ 2 ^ 118 }
    requires c { unsigned_abs c ≤ 2 ^ 40 }
    requires other { unsigned_abs other.now.constant ≤ 2 ^ 40 }
    ensures value { result ≡ form.now.constant +ℤ c *ℤ other.now.constant }
    ensures number { unsigned_abs result ≤ unsigned_abs form.now.constant + 2 ^ 80 }
{
    form.constant + c * other.constant
}

/// The form with c times another.
fn plus(alloc: Global, form: Form, c: i128, other: &Form) -> Result<Form, OutOfMemory>
    requires rising { IsRising form.terms }
    requires small { HasNumbers (2 ^ 118) form }
    requires c { unsigned_abs c ≤ 2 ^ 40 }
    requires other { HasNumbers (2 ^ 40) other.now }
    ensures rising { IfOk result (λ out. IsRising out.terms) }
    ensures value { IfOk result (λ out. (p : Point) → form_at out p ≡ form_at form p +ℤ c *ℤ form_at other.now p) }
    ensures numbers { IfOk result (λ out. (m : ℕ) → HasNumbers m form → HasNumbers (m + 2 ^ 112) out) }
{
    let constant = constant_with(&form, c, other);
    let terms = with_multiple(alloc, form.terms, c, other.terms.as_slice())?;
    Ok(Form { constant, terms })
}

/// The form of the end of a band loop at which a product with c is least, or at which it is greatest.
fn end_form(bound: &BandBound, lower: bool, c: i128) -> &Form
    ensures { result.now ≡ end_form lower c bound.now }
{
    if lower == (c < 0) {
        &bound.greatest
    } else {
        &bound.least
    }
}

/// The form with a term of the band, whose iterator is at an end of its range.
fn with_end(
    alloc: Global,
    form: Form,
    lower: bool,
    term: Term,
    bound: &BandBound,
) -> Result<Form, OutOfMemory>
    requires rising { IsRising form.terms }
    requires small { HasNumbers (2 ^ 118) form }
    requires term { unsigned_abs term.coefficient ≤ 2 ^ 40 }
    requires bound { IsSmallBound bound.now }
    ensures rising { IfOk result (λ out. IsRising out.terms) }
    ensures value { IfOk result (λ out. (p : Point) → form_at out p ≡ form_at form p +ℤ term.coefficient *ℤ form_at (end_form lower term.coefficient bound.now) p) }
    ensures numbers { IfOk result (λ out. (m : ℕ) → HasNumbers m form → HasNumbers (m + 2 ^ 112) out) }
{
    let c = term.coefficient;
    let form = plus(alloc, form, c, end_form(bound, lower, c))?;
    Ok(form)
}

/// The bounds of the loop of the band that has a term's iterator.
fn bound_for(bands: &[BandBound], outer: usize, term: Term) -> &BandBound
    requires from { outer ≤ term.level }
    requires below { term.level < outer + length bands.now }
    ensures { result.now ≡ bound_at bands.now (term.level - outer) }
{
    &bands[term.level as usize - outer]
}

/// The constant of the domain's end where no iterator adds to it.
fn offset_from(at: &Form, offset: i128) -> i128
    requires constant { unsigned_abs at.now.constant ≤ 2 ^ 70 }
    requires offset { unsigned_abs offset ≤ 2 ^ 70 }
    ensures value { result ≡ at.now.constant +ℤ offset }
    ensures number { unsigned_abs result ≤ 2 ^ 71 }
{
    at.constant + offset
}

/// The domain's end: `at` and an offset more, with each iterator of the band at the end of its range where
/// the term is least, or greatest.
pub(crate) fn end_of(
    alloc: Global,
    lower: bool,
    outer: usize,
    bands: &[BandBound],
    at: &Form,
    offset: i128,
) -> Result<Form, OutOfMemory>
    requires few { length bands.now ≤ 16 }
    requires bounds { All IsSmallBound bands.now }
    requires terms { HasTerms (2 ^ 40) at.now.terms }
    requires levels { All (λ t. t.level < outer + length bands.now) at.now.terms }
    requires constant { unsigned_abs at.now.constant ≤ 2 ^ 70 }
    requires offset { unsigned_abs offset ≤ 2 ^ 70 }
    ensures { IfOk result (IsEndOf lower outer bands.now at.now offset) }
{
    let constant = offset_from(at, offset);
    let all = at.terms.as_slice();
    let terms = copied(alloc, terms_below(all, outer))?;
    let mut form = Form { constant, terms };
    for term in terms_from(all, outer) {
        let bound = bound_for(bands, outer, *term);
        form = with_end(alloc, form, lower, *term, bound)?;
    }
    Ok(form)
}

/// How far a turn of a loop of the band moves an index.
fn move_of(term: Term, bound: &BandBound) -> u128
    requires { unsigned_abs term.coefficient ≤ 2 ^ 40 }
    ensures { result ≡ unsigned_abs term.coefficient * unsigned_abs bound.now.step }
{
    term.coefficient.unsigned_abs() * bound.step.unsigned_abs() as u128
}

/// The least number so far, with one more.
fn least_with(least: Option<u128>, other: u128) -> Option<u128>
    ensures { (ns : List ℕ) → IsLeastSoFar ns least → IsLeastSoFar (ns ++ other ∷ []) result }
{
    let Some(number) = least else {
        return Some(other);
    };
    if number <= other {
        Some(number)
    } else {
        Some(other)
    }
}

/// How far an index moves, by the iterator of the band that moves it least.
pub(crate) fn step_of(outer: usize, bands: &[BandBound], terms: &[Term]) -> u128
    requires rising { IsRising terms.now }
    requires small { HasTerms (2 ^ 40) terms.now }
    requires levels { All (λ t. t.level < outer + length bands.now) terms.now }
    ensures { IsLeastAmong (moves_of outer bands.now terms.now) result }
{
    let mut least = None;
    for term in terms_from(terms, outer) {
        let bound = bound_for(bands, outer, *term);
        least = least_with(least, move_of(*term, bound));
    }
    least.unwrap_or(0)
}
