//! What a line gives: forms of iterators, offsets, and arrays by their numbers.
ghost use Rattle.std.specs.Prelude.{◌≡◌, ◌≤◌, ◌<◌, ◌^◌, ◌++◌, ◌&&◌, Bool, ℕ, length, take, map, nat_eq, List, [], ◌∷◌, All, Some, None, OnOk, IfErr, position, bytes_eq, option_map, option_and_then, if◌then◌else◌};
ghost use Rattle.std.specs.Int.RustNames.{unsigned_abs};
ghost use Rattle.std.specs.List.{list_all};
ghost use Rattle.species_notation.specs.Spelled.{RawOffset};
ghost use Rattle.species_notation.specs.Readers.{when};
ghost use Rattle.species_notation.specs.Written.{name_at};
ghost use Rattle.species_notation.specs.Meaning.{sums_of, coefficient_in, put_term, given_form, is_known, number_of, offset_in, offset_of, each_some, is_range, offsets_of, dim_of, dims_of, dir_of, arc_with, arc_from, given_arc, given_line};
ghost use Rattle.species_notation.specs.Tables.{left_after};
ghost use Rattle.species_notation.specs.declared.refusal.NotationRefusal.TheVariants.{Memory};
ghost use Rattle.species_notation.specs.Gives.{Finds, Leaves};

use crate::given::{GivenArc, GivenDim, Names, SpeciesLine};
use crate::raw::{RawArc, RawForm, RawInt, RawLine, RawRange, RawSpan};
use crate::refusal::NotationRefusal;
use crate::sums::{Totals, is_among, signed, sums_of};
use species_arcs::{Dir, Span, Word};
use species_ast::Name;
use species_linear::{Form, Term, Terms};
use sqlite_items::Items;
use std::alloc::Global;

/// Appends a term, where its coefficient isn't 0.
fn put_term(terms: &mut Terms, level: usize, coefficient: i128) -> Result<(), NotationRefusal>
    requires { All (λ t. t.level < level) terms.old }
    ensures ok { OnOk result (terms.new ≡ terms.old ++ put_term level coefficient []) }
    ensures err { IfErr result (λ e. e ≡ Memory) }
{
    if coefficient == 0 {
        return Ok(());
    }
    match u32::try_from(level) {
        Ok(level) => {
            terms.push(Term { level, coefficient })?;
            Ok(())
        }
        Err(_) => Err(NotationRefusal::Memory),
    }
}

/// The coefficient of the iterator of a level. Of equal names the first is meant.
fn coefficient_at(iters: &[Name], level: usize, sums: &Totals<'_>) -> i128
    requires { level < length iters.now }
    ensures { result ≡ coefficient_in (name_at iters.now level) (left_after (take level iters.now) sums.now.names) }
{
    let name = iters[level].as_slice();
    if is_among(name, &iters[..level]) {
        0
    } else {
        sums.coefficient(name)
    }
}

/// The form of the iterators that the sums are those of.
fn given_form(alloc: Global, iters: &[Name], sums: &Totals<'_>) -> Result<Form, NotationRefusal>
    ensures { Finds result (Some (given_form iters.now sums.now)) }
{
    let mut terms = Terms::new(alloc);
    for level in 0..iters.len() {
        put_term(&mut terms, level, coefficient_at(iters, level, sums))?;
    }
    Ok(Form {
        constant: sums.constant(),
        terms,
    })
}

fn number_of(number: &RawInt) -> i128
    ensures value { result ≡ number_of number.now }
    ensures small { unsigned_abs result ≤ 2 ^ 70 }
{
    signed(number.negative, &number.size)
}

/// These offsets, if the first is not past the last and the stride leads from the one to the other.
fn offset_in(low: i128, high: i128, stride: u128) -> Option<Span>
    requires low { unsigned_abs low ≤ 2 ^ 70 }
    requires high { unsigned_abs high ≤ 2 ^ 70 }
    ensures { result ≡ offset_in low high stride }
{
    if low > high {
        return None;
    }
    if stride < 1 {
        return None;
    }
    if (high - low).unsigned_abs() % stride != 0 {
        return None;
    }
    Some(Span { low, high, stride })
}

fn span_in(span: &RawSpan) -> Option<Span>
    ensures { result ≡ offset_of (Some span.now) }
{
    let low = number_of(&span.low);
    let high = number_of(&span.high);
    match &span.stride {
        Some(stride) => offset_in(low, high, stride.get()),
        None => offset_in(low, high, 1),
    }
}

/// The offsets of a dimension; one place for a `-`.
fn offset_of(offset: &Option<RawSpan>) -> Option<Span>
    ensures { result ≡ offset_of offset.now }
{
    match offset {
        Some(span) => span_in(span),
        None => Some(Span {
            low: 0,
            high: 0,
            stride: 1,
        }),
    }
}

/// The offsets that stand behind a word.
fn spans_of(alloc: Global, offsets: &[Option<RawSpan>]) -> Result<Items<Span>, NotationRefusal>
    ensures { Finds result (each_some offset_of offsets.now) }
{
    let mut spans = Items::new(alloc);
    for offset in offsets {
        match offset_of(offset) {
            Some(span) => spans.push(span)?,
            None => return Err(NotationRefusal::Syntax),
        }
    }
    Ok(spans)
}

/// The offsets behind a word that asks for them.
fn spans_behind(
    alloc: Global,
    offsets: &Option<Items<Option<RawSpan>>>,
) -> Result<Items<Span>, NotationRefusal>
    ensures { Finds result (option_and_then (each_some offset_of) offsets.now) }
{
    match offsets {
        Some(offsets) => spans_of(alloc, offsets.as_slice()),
        None => Err(NotationRefusal::Syntax),
    }
}

/// One place in each dimension.
fn single_places(alloc: Global, forms: &[RawForm<'_>]) -> Result<Items<Span>, NotationRefusal>
    ensures { Finds result (each_some offset_of (map (λ f. None) forms.now)) }
{
    let mut spans = Items::new(alloc);
    for _number in 0..forms.len() {
        spans.push(Span {
            low: 0,
            high: 0,
            stride: 1,
        })?;
    }
    Ok(spans)
}

/// The offsets of an arc. With `element` none are said.
fn spans_in(alloc: Global, arc: &RawArc<'_>) -> Result<Items<Span>, NotationRefusal>
    ensures { Finds result (option_and_then (each_some offset_of) (offsets_of arc.now.word arc.now.offsets arc.now.forms)) }
{
    match arc.word {
        Word::Element => {
            if arc.offsets.is_some() {
                return Err(NotationRefusal::Syntax);
            }
            single_places(alloc, arc.forms.as_slice())
        }
        Word::Neighbourhood => spans_behind(alloc, &arc.offsets),
        Word::Chunk => spans_behind(alloc, &arc.offsets),
        Word::Full => spans_behind(alloc, &arc.offsets),
        Word::Shared => spans_behind(alloc, &arc.offsets),
    }
}

/// The sums of each form.
fn sums_of_each<'a>(
    alloc: Global,
    forms: &[RawForm<'a>],
) -> Result<Items<Totals<'a>>, NotationRefusal>
    ensures { Finds result (each_some sums_of forms.now) }
{
    let mut sums = Items::new(alloc);
    for form in forms {
        sums.push(sums_of(alloc, form)?)?;
    }
    Ok(sums)
}

/// Looks whether no sum of a range is too large.
fn check_range(alloc: Global, range: &RawRange<'_>) -> Result<(), NotationRefusal>
    ensures { Finds result (when (is_range range.now) tt) }
{
    let _ = sums_of(alloc, &range.low)?;
    let _ = sums_of(alloc, &range.high)?;
    Ok(())
}

fn check_ranges(alloc: Global, ranges: &[RawRange<'_>]) -> Result<(), NotationRefusal>
    ensures { Finds result (when (list_all is_range ranges.now) tt) }
{
    for range in ranges {
        check_range(alloc, range)?;
    }
    Ok(())
}

fn dim_of(
    alloc: Global,
    iters: &[Name],
    sums: &Totals<'_>,
    span: Span,
) -> Result<GivenDim, NotationRefusal>
    ensures { Finds result (Some (dim_of iters.now sums.now span)) }
{
    let at = given_form(alloc, iters, sums)?;
    Ok(GivenDim {
        at,
        a: span.low,
        b: span.high,
        stride: span.stride,
    })
}

/// The dimensions of an arc, which has as many forms as offsets.
fn dims_of(
    alloc: Global,
    iters: &[Name],
    sums: &[Totals<'_>],
    spans: &[Span],
) -> Result<Items<GivenDim>, NotationRefusal>
    ensures { Finds result (dims_of iters.now sums.now spans.now) }
{
    if sums.len() != spans.len() {
        return Err(NotationRefusal::Syntax);
    }
    let mut dims = Items::new(alloc);
    for number in 0..sums.len() {
        dims.push(dim_of(alloc, iters, &sums[number], spans[number])?)?;
    }
    Ok(dims)
}

/// The place of the first of the names that is this one.
fn place_of(name: &[u8], names: &[Name]) -> Option<usize>
    ensures { result ≡ position (bytes_eq name.now) names.now }
{
    for number in 0..names.len() {
        if name == names[number].as_slice() {
            return Some(number);
        }
    }
    None
}

/// The number of the array of this name, if there is one.
fn array_number(arrays: &[Name], name: &[u8]) -> Result<Option<u32>, NotationRefusal>
    ensures { Finds result (Some (position (bytes_eq name.now) arrays.now)) }
{
    match place_of(name, arrays) {
        Some(number) => match u32::try_from(number) {
            Ok(number) => Ok(Some(number)),
            Err(_) => Err(NotationRefusal::Memory),
        },
        None => Ok(None),
    }
}

fn dir_of(right: bool, word: Word) -> Dir
    ensures { result ≡ dir_of right word }
{
    if !right {
        return Dir::Read;
    }
    match word {
        Word::Element => Dir::Write,
        Word::Neighbourhood => Dir::Write,
        Word::Chunk => Dir::Write,
        Word::Full => Dir::Write,
        Word::Shared => Dir::Add,
    }
}

/// Whether each name of the sums is an iterator's.
fn are_known(iters: &[Name], sums: &[Totals<'_>]) -> bool
    ensures { result ≡ list_all (is_known iters.now) sums.now }
{
    for totals in sums {
        if !totals.is_known(iters) {
            return false;
        }
    }
    true
}

/// An arc of these dimensions.
fn arc_with(
    names: &Names,
    right: bool,
    arc: &RawArc<'_>,
    sums: &[Totals<'_>],
    dims: Items<GivenDim>,
) -> Result<GivenArc, NotationRefusal>
    ensures { Finds result (Some (arc_with names.now right arc.now sums.now dims)) }
{
    let array = array_number(names.arrays.as_slice(), arc.name.as_slice())?;
    Ok(GivenArc {
        array,
        dir: dir_of(right, arc.word),
        dims,
        exact: arc.exact,
        known: are_known(names.iters.as_slice(), sums),
    })
}

/// An arc of these sums and offsets, which has as many ranges as forms.
fn arc_from(
    alloc: Global,
    names: &Names,
    right: bool,
    arc: &RawArc<'_>,
    sums: &[Totals<'_>],
    spans: &[Span],
) -> Result<GivenArc, NotationRefusal>
    ensures { Finds result (arc_from names.now right arc.now sums.now spans.now) }
{
    check_ranges(alloc, arc.ranges.as_slice())?;
    if arc.ranges.len() != sums.len() {
        return Err(NotationRefusal::Syntax);
    }
    let dims = dims_of(alloc, names.iters.as_slice(), sums, spans)?;
    arc_with(names, right, arc, sums, dims)
}

/// An arc as it is given on the left, or on the right.
fn given_arc(
    alloc: Global,
    names: &Names,
    right: bool,
    arc: &RawArc<'_>,
) -> Result<GivenArc, NotationRefusal>
    ensures { Finds result (given_arc names.now right arc.now) }
{
    let sums = sums_of_each(alloc, arc.forms.as_slice())?;
    let spans = spans_in(alloc, arc)?;
    arc_from(alloc, names, right, arc, sums.as_slice(), spans.as_slice())
}

/// Appends the arcs of a side.
fn put_side(
    alloc: Global,
    names: &Names,
    right: bool,
    arcs: &[RawArc<'_>],
    given: &mut Items<GivenArc>,
) -> Result<(), NotationRefusal>
    ensures { Leaves result given.new (option_map (λ more. given.old ++ more) (each_some (given_arc names.now right) arcs.now)) }
{
    for arc in arcs {
        given.push(given_arc(alloc, names, right, arc)?)?;
    }
    Ok(())
}

/// What a line gives. A sequential line gives no arcs.
pub(crate) fn given_line(
    alloc: Global,
    names: &Names,
    line: &RawLine<'_>,
) -> Result<SpeciesLine, NotationRefusal>
    ensures { Finds result (given_line names.now line.now) }
{
    let mut arcs = Items::new(alloc);
    match line {
        RawLine::Carried {
            name: _,
            first: _,
            second: _,
        } => Ok(SpeciesLine { arcs }),
        RawLine::Local { name: _ } => Ok(SpeciesLine { arcs }),
        RawLine::Sides { left, right } => {
            put_side(alloc, names, false, left.as_slice(), &mut arcs)?;
            put_side(alloc, names, true, right.as_slice(), &mut arcs)?;
            Ok(SpeciesLine { arcs })
        }
    }
}
