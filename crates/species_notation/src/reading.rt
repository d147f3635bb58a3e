//! The grammar of a species line: one function for each of its phrases.
ghost use Rattle.std.specs.Prelude.{◌<◌, ◌≤◌, length, IfOk};
ghost use Rattle.species_grammar.specs.Reader.{skip, maybe, word};
ghost use Rattle.species_notation.specs.Readers.{sign, name, number, listed, leading, product, first_summand, next_summand, more_summands, form, range, int, span_from, behind_minus, offset, offsets, forms, ranges, arc, arcs, side, sequential, line_reader};
ghost use Rattle.species_notation.specs.Gives.{Gives};

use crate::cursor::Cursor;
use crate::raw::{Natural, RawArc, RawForm, RawInt, RawLine, RawRange, RawSpan, Spelling, Summand};
use crate::refusal::NotationRefusal;
use sqlite_items::Items;
use std::alloc::Global;

/// Whether there is a `-`.
#[tactic(auto, unfolding(crate::specs::Readers::leading))]
fn leading(cursor: &mut Cursor<'_, '_>) -> Result<bool, NotationRefusal>
    ensures value { Gives result cursor.new (leading cursor.old) }
    ensures within { IfOk result (λ _. length cursor.new ≤ length cursor.old) }
{
    if !cursor.is_at_sign(b'-') {
        return Ok(false);
    }
    cursor.sign(b'-')?;
    Ok(true)
}

/// The name behind a number, if it is a coefficient.
fn coefficient_of<'a>(cursor: &mut Cursor<'_, 'a>) -> Result<Option<Spelling<'a>>, NotationRefusal>
    ensures value { Gives result cursor.new (maybe (sign 42) (word name) cursor.old) }
    ensures within { IfOk result (λ _. length cursor.new ≤ length cursor.old) }
{
    if !cursor.is_at_sign(b'*') {
        return Ok(None);
    }
    cursor.sign(b'*')?;
    Ok(Some(cursor.name()?))
}

/// A number, and the name that it is a coefficient of.
#[tactic(auto, unfolding(crate::specs::Readers::product))]
fn product<'a>(
    cursor: &mut Cursor<'_, 'a>,
) -> Result<(Natural, Option<Spelling<'a>>), NotationRefusal>
    ensures value { Gives result cursor.new (product cursor.old) }
    ensures shorter { IfOk result (λ _. length cursor.new < length cursor.old) }
{
    if !cursor.is_at_number() {
        let name = cursor.name()?;
        return Ok((Natural::new(1), Some(name)));
    }
    let number = cursor.number()?;
    let name = coefficient_of(cursor)?;
    Ok((number, name))
}

/// The first summand of a form.
#[tactic(auto, unfolding(crate::specs::Readers::first_summand))]
fn first_summand<'a>(cursor: &mut Cursor<'_, 'a>) -> Result<Summand<'a>, NotationRefusal>
    ensures value { Gives result cursor.new (first_summand cursor.old) }
    ensures shorter { IfOk result (λ _. length cursor.new < length cursor.old) }
{
    let negative = leading(cursor)?;
    let (number, name) = product(cursor)?;
    Ok(Summand {
        negative,
        number,
        name,
    })
}

/// Another summand, behind its sign.
#[tactic(auto, unfolding(crate::specs::Readers::next_summand))]
fn next_summand<'a>(cursor: &mut Cursor<'_, 'a>) -> Result<Summand<'a>, NotationRefusal>
    ensures value { Gives result cursor.new (next_summand cursor.old) }
    ensures shorter { IfOk result (λ _. length cursor.new < length cursor.old) }
{
    let negative = cursor.plus_or_minus()?;
    let (number, name) = product(cursor)?;
    Ok(Summand {
        negative,
        number,
        name,
    })
}

/// The other summands of a form.
fn more_summands<'a>(
    alloc: Global,
    cursor: &mut Cursor<'_, 'a>,
) -> Result<Items<Summand<'a>>, NotationRefusal>
    ensures value { Gives result cursor.new (more_summands cursor.old) }
    ensures within { IfOk result (λ _. length cursor.new ≤ length cursor.old) }
{
    let mut found = Items::new(alloc);
    while cursor.is_at_plus_or_minus() {
        found.push(next_summand(cursor)?)?;
    }
    Ok(found)
}

/// A form.
#[tactic(auto, unfolding(crate::specs::Readers::form))]
fn form<'a>(alloc: Global, cursor: &mut Cursor<'_, 'a>) -> Result<RawForm<'a>, NotationRefusal>
    ensures value { Gives result cursor.new (form cursor.old) }
    ensures shorter { IfOk result (λ _. length cursor.new < length cursor.old) }
{
    let first = first_summand(cursor)?;
    let more = more_summands(alloc, cursor)?;
    Ok(RawForm { first, more })
}

/// A range.
#[tactic(auto, unfolding(crate::specs::Readers::range))]
fn range<'a>(alloc: Global, cursor: &mut Cursor<'_, 'a>) -> Result<RawRange<'a>, NotationRefusal>
    ensures value { Gives result cursor.new (range cursor.old) }
    ensures shorter { IfOk result (λ _. length cursor.new < length cursor.old) }
{
    let low = form(alloc, cursor)?;
    cursor.sign(b':')?;
    let high = form(alloc, cursor)?;
    Ok(RawRange { low, high })
}

/// A number with its sign.
#[tactic(auto, unfolding(crate::specs::Readers::int))]
fn int(cursor: &mut Cursor<'_, '_>) -> Result<RawInt, NotationRefusal>
    ensures value { Gives result cursor.new (int cursor.old) }
    ensures shorter { IfOk result (λ _. length cursor.new < length cursor.old) }
{
    let negative = leading(cursor)?;
    let size = cursor.number()?;
    Ok(RawInt { negative, size })
}

/// The stride behind two offsets, if it is said.
fn stride(cursor: &mut Cursor<'_, '_>) -> Result<Option<Natural>, NotationRefusal>
    ensures value { Gives result cursor.new (maybe (sign 58) (word number) cursor.old) }
    ensures within { IfOk result (λ _. length cursor.new ≤ length cursor.old) }
{
    if !cursor.is_at_sign(b':') {
        return Ok(None);
    }
    cursor.sign(b':')?;
    Ok(Some(cursor.number()?))
}

/// The offsets of a dimension, behind the sign of the first.
#[tactic(auto, unfolding(crate::specs::Readers::span_from))]
fn span_from(
    cursor: &mut Cursor<'_, '_>,
    negative: bool,
) -> Result<Option<RawSpan>, NotationRefusal>
    ensures value { Gives result cursor.new (span_from negative cursor.old) }
    ensures shorter { IfOk result (λ _. length cursor.new < length cursor.old) }
{
    let size = cursor.number()?;
    cursor.sign(b':')?;
    let high = int(cursor)?;
    let stride = stride(cursor)?;
    let low = RawInt { negative, size };
    Ok(Some(RawSpan { low, high, stride }))
}

/// The offsets of a dimension, behind a `-`.
fn behind_minus(cursor: &mut Cursor<'_, '_>) -> Result<Option<RawSpan>, NotationRefusal>
    ensures value { Gives result cursor.new (behind_minus cursor.old) }
    ensures within { IfOk result (λ _. length cursor.new ≤ length cursor.old) }
{
    if !cursor.is_at_number() {
        return Ok(None);
    }
    span_from(cursor, true)
}

/// The offsets of a dimension.
#[tactic(auto, unfolding(crate::specs::Readers::offset))]
fn offset(cursor: &mut Cursor<'_, '_>) -> Result<Option<RawSpan>, NotationRefusal>
    ensures value { Gives result cursor.new (offset cursor.old) }
    ensures shorter { IfOk result (λ _. length cursor.new < length cursor.old) }
{
    if !cursor.is_at_sign(b'-') {
        return span_from(cursor, false);
    }
    cursor.sign(b'-')?;
    behind_minus(cursor)
}

/// Offsets behind a comma.
fn next_offset(cursor: &mut Cursor<'_, '_>) -> Result<Option<RawSpan>, NotationRefusal>
    ensures value { Gives result cursor.new (skip (sign 44) offset cursor.old) }
    ensures shorter { IfOk result (λ _. length cursor.new < length cursor.old) }
{
    cursor.sign(b',')?;
    offset(cursor)
}

/// The offsets of one dimension or more.
fn offset_list(
    alloc: Global,
    cursor: &mut Cursor<'_, '_>,
) -> Result<Items<Option<RawSpan>>, NotationRefusal>
    ensures value { Gives result cursor.new (listed 44 offset cursor.old) }
    ensures shorter { IfOk result (λ _. length cursor.new < length cursor.old) }
{
    let mut found = Items::new(alloc);
    found.push(offset(cursor)?)?;
    while cursor.is_at_sign(b',') {
        found.push(next_offset(cursor)?)?;
    }
    Ok(found)
}

/// The offsets behind a word, if there are any.
#[tactic(auto, unfolding(crate::specs::Readers::offsets))]
fn offsets(
    alloc: Global,
    cursor: &mut Cursor<'_, '_>,
) -> Result<Option<Items<Option<RawSpan>>>, NotationRefusal>
    ensures value { Gives result cursor.new (offsets cursor.old) }
    ensures within { IfOk result (λ _. length cursor.new ≤ length cursor.old) }
{
    if !cursor.is_at_sign(b'(') {
        return Ok(None);
    }
    cursor.sign(b'(')?;
    let found = offset_list(alloc, cursor)?;
    cursor.sign(b')')?;
    Ok(Some(found))
}

/// A form behind a comma.
fn next_form<'a>(alloc: Global, cursor: &mut Cursor<'_, 'a>) -> Result<RawForm<'a>, NotationRefusal>
    ensures value { Gives result cursor.new (skip (sign 44) form cursor.old) }
    ensures shorter { IfOk result (λ _. length cursor.new < length cursor.old) }
{
    cursor.sign(b',')?;
    form(alloc, cursor)
}

/// One form or more.
fn form_list<'a>(
    alloc: Global,
    cursor: &mut Cursor<'_, 'a>,
) -> Result<Items<RawForm<'a>>, NotationRefusal>
    ensures value { Gives result cursor.new (listed 44 form cursor.old) }
    ensures shorter { IfOk result (λ _. length cursor.new < length cursor.old) }
{
    let mut found = Items::new(alloc);
    found.push(form(alloc, cursor)?)?;
    while cursor.is_at_sign(b',') {
        found.push(next_form(alloc, cursor)?)?;
    }
    Ok(found)
}

/// The forms of an arc in their brackets.
#[tactic(auto, unfolding(crate::specs::Readers::forms))]
fn forms<'a>(
    alloc: Global,
    cursor: &mut Cursor<'_, 'a>,
) -> Result<Items<RawForm<'a>>, NotationRefusal>
    ensures value { Gives result cursor.new (forms cursor.old) }
    ensures shorter { IfOk result (λ _. length cursor.new < length cursor.old) }
{
    cursor.sign(b'(')?;
    let found = form_list(alloc, cursor)?;
    cursor.sign(b')')?;
    Ok(found)
}

/// A range behind a comma.
fn next_range<'a>(
    alloc: Global,
    cursor: &mut Cursor<'_, 'a>,
) -> Result<RawRange<'a>, NotationRefusal>
    ensures value { Gives result cursor.new (skip (sign 44) range cursor.old) }
    ensures shorter { IfOk result (λ _. length cursor.new < length cursor.old) }
{
    cursor.sign(b',')?;
    range(alloc, cursor)
}

/// One range or more.
fn range_list<'a>(
    alloc: Global,
    cursor: &mut Cursor<'_, 'a>,
) -> Result<Items<RawRange<'a>>, NotationRefusal>
    ensures value { Gives result cursor.new (listed 44 range cursor.old) }
    ensures shorter { IfOk result (λ _. length cursor.new < length cursor.old) }
{
    let mut found = Items::new(alloc);
    found.push(range(alloc, cursor)?)?;
    while cursor.is_at_sign(b',') {
        found.push(next_range(alloc, cursor)?)?;
    }
    Ok(found)
}

/// The ranges of an arc in their brackets.
#[tactic(auto, unfolding(crate::specs::Readers::ranges))]
fn ranges<'a>(
    alloc: Global,
    cursor: &mut Cursor<'_, 'a>,
) -> Result<Items<RawRange<'a>>, NotationRefusal>
    ensures value { Gives result cursor.new (ranges cursor.old) }
    ensures shorter { IfOk result (λ _. length cursor.new < length cursor.old) }
{
    cursor.sign(b'[')?;
    let found = range_list(alloc, cursor)?;
    cursor.sign(b']')?;
    Ok(found)
}

/// An arc.
#[tactic(auto, unfolding(crate::specs::Readers::arc))]
fn arc<'a>(alloc: Global, cursor: &mut Cursor<'_, 'a>) -> Result<RawArc<'a>, NotationRefusal>
    ensures value { Gives result cursor.new (arc cursor.old) }
    ensures shorter { IfOk result (λ _. length cursor.new < length cursor.old) }
{
    let name = cursor.name()?;
    let ranges = ranges(alloc, cursor)?;
    cursor.sign(b'|')?;
    let word = cursor.arc_word()?;
    let offsets = offsets(alloc, cursor)?;
    cursor.word(b"at")?;
    let forms = forms(alloc, cursor)?;
    let exact = cursor.mark()?;
    Ok(RawArc {
        name,
        ranges,
        word,
        offsets,
        forms,
        exact,
    })
}

/// An arc behind a separator.
fn next_arc<'a>(alloc: Global, cursor: &mut Cursor<'_, 'a>) -> Result<RawArc<'a>, NotationRefusal>
    ensures value { Gives result cursor.new (skip (sign 94) arc cursor.old) }
    ensures shorter { IfOk result (λ _. length cursor.new < length cursor.old) }
{
    cursor.sign(b'^')?;
    arc(alloc, cursor)
}

/// One arc or more.
#[tactic(auto, unfolding(crate::specs::Readers::arcs))]
fn arcs<'a>(
    alloc: Global,
    cursor: &mut Cursor<'_, 'a>,
) -> Result<Items<RawArc<'a>>, NotationRefusal>
    ensures value { Gives result cursor.new (arcs cursor.old) }
    ensures shorter { IfOk result (λ _. length cursor.new < length cursor.old) }
{
    let mut found = Items::new(alloc);
    found.push(arc(alloc, cursor)?)?;
    while cursor.is_at_sign(b'^') {
        found.push(next_arc(alloc, cursor)?)?;
    }
    Ok(found)
}

/// A side of a line.
#[tactic(auto, unfolding(crate::specs::Readers::side))]
fn side<'a>(
    alloc: Global,
    cursor: &mut Cursor<'_, 'a>,
) -> Result<Items<RawArc<'a>>, NotationRefusal>
    ensures value { Gives result cursor.new (side cursor.old) }
    ensures shorter { IfOk result (λ _. length cursor.new < length cursor.old) }
{
    if !cursor.is_alone(b"none") {
        return arcs(alloc, cursor);
    }
    cursor.word(b"none")?;
    Ok(Items::new(alloc))
}

/// Why a loop is sequential.
#[tactic(auto, unfolding(crate::specs::Readers::sequential))]
fn sequential<'a>(cursor: &mut Cursor<'_, 'a>) -> Result<RawLine<'a>, NotationRefusal>
    ensures value { Gives result cursor.new (sequential cursor.old) }
    ensures shorter { IfOk result (λ _. length cursor.new < length cursor.old) }
{
    if !cursor.is_at_word(b"carried") {
        cursor.word(b"local")?;
        let name = cursor.name()?;
        return Ok(RawLine::Local { name });
    }
    cursor.word(b"carried")?;
    let name = cursor.name()?;
    let first = cursor.number()?;
    let second = cursor.number()?;
    Ok(RawLine::Carried {
        name,
        first,
        second,
    })
}

/// A line.
#[tactic(auto, unfolding(crate::specs::Readers::line_reader))]
pub(crate) fn line<'a>(
    alloc: Global,
    cursor: &mut Cursor<'_, 'a>,
) -> Result<RawLine<'a>, NotationRefusal>
    ensures value { Gives result cursor.new (line_reader cursor.old) }
    ensures shorter { IfOk result (λ _. length cursor.new < length cursor.old) }
{
    if cursor.is_alone(b"sequential") {
        cursor.word(b"sequential")?;
        return sequential(cursor);
    }
    let left = side(alloc, cursor)?;
    cursor.arrow()?;
    let right = side(alloc, cursor)?;
    Ok(RawLine::Sides { left, right })
}
