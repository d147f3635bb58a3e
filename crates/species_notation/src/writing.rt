//! Arcs and lines as text.
#![tactic(auto, using(crate::proofs::Texts::parts_append, std::proofs::Common::append_assoc))]

ghost use Rattle.std.specs.Prelude.{◌≡◌, ◌++◌, ◌<◌, List, [], ◌∷◌, Some, All, OnOk, IfOk, decimal, map, filter, pos, int_lt};
ghost use Rattle.std.specs.Int.RustNames.{unsigned_abs};
ghost use Rattle.species_arcs.specs.Sizes.{HasSmallSpan};
ghost use Rattle.species_notation.specs.Parts.{parts_text, text_of};
ghost use Rattle.species_notation.specs.Spelled.{lead_parts, product_parts, summand_parts, summands_parts, form_parts, separator, offsets_parts, arc_front, arc_forms, int_parts, stride_parts, offset_parts, range_parts, listed_parts, word_text, mark_text};
ghost use Rattle.species_notation.specs.Written.{is_negative, name_at, written_term, closing_parts, written_form, written_int, written_stride, written_offset, written_offsets, written_range, written_arc, arc_pieces, is_read, is_on, arc_after, side_pieces, line_pieces, written_sides, written_reason, arc_text, line_text};

use crate::given::Names;
use itoa::Buffer;
use species_arcs::{Arc, ArcDim, Dir, Nest, Reason, Word, word_of};
use species_ast::{Name, OutOfMemory};
use species_linear::{Form, Term};
use std::alloc::Global;

/// The name of a number; no bytes, where there is none.
pub(crate) fn name_at(names: &[Name], number: u32) -> &[u8]
    ensures { result.now ≡ name_at names.now number }
{
    match names.get(number as usize) {
        Some(name) => name.as_slice(),
        None => b"",
    }
}

fn is_negative(n: i128) -> bool
    ensures { result ≡ is_negative n }
{
    n < 0
}

/// Appends bytes.
pub(crate) fn put(out: &mut Vec<u8>, bytes: &[u8]) -> Result<(), OutOfMemory>
    ensures { OnOk result (out.new.items ≡ out.old.items ++ bytes.now) }
{
    out.extend_from_slice(bytes)?;
    Ok(())
}

/// Appends a number.
pub(crate) fn put_number(out: &mut Vec<u8>, number: u128) -> Result<(), OutOfMemory>
    ensures { OnOk result (out.new.items ≡ out.old.items ++ decimal number) }
{
    let mut buffer = Buffer::new();
    put(out, buffer.format(number).as_bytes())
}

/// Appends the sign before a summand.
fn put_lead(out: &mut Vec<u8>, is_first: bool, negative: bool) -> Result<(), OutOfMemory>
    ensures { OnOk result (out.new.items ≡ out.old.items ++ parts_text (lead_parts is_first negative)) }
{
    if negative {
        put(out, b"-")?;
    } else if !is_first {
        put(out, b"+")?;
    }
    Ok(())
}

/// Appends a name with its coefficient.
fn put_product(out: &mut Vec<u8>, number: u128, name: &[u8]) -> Result<(), OutOfMemory>
    ensures { OnOk result (out.new.items ≡ out.old.items ++ parts_text (product_parts number (Some name.now))) }
{
    if number != 1 {
        put_number(out, number)?;
        put(out, b"*")?;
    }
    put(out, name)?;
    Ok(())
}

/// Appends a term of a form.
fn put_term(
    out: &mut Vec<u8>,
    is_first: bool,
    term: Term,
    iters: &[Name],
) -> Result<(), OutOfMemory>
    ensures { OnOk result (out.new.items ≡ out.old.items ++ parts_text (summand_parts is_first (written_term iters.now term))) }
{
    put_lead(out, is_first, is_negative(term.coefficient))?;
    put_product(
        out,
        term.coefficient.unsigned_abs(),
        name_at(iters, term.level),
    )?;
    Ok(())
}

/// Appends the terms of a form.
fn put_terms(out: &mut Vec<u8>, terms: &[Term], iters: &[Name]) -> Result<(), OutOfMemory>
    ensures { OnOk result (out.new.items ≡ out.old.items ++ parts_text (summands_parts (map (written_term iters.now) terms.now))) }
{
    for (index, term) in terms.iter().enumerate() {
        put_term(out, index == 0, *term, iters)?;
    }
    Ok(())
}

/// Appends the constant of a form, which is alone where the form has no terms.
fn put_constant(out: &mut Vec<u8>, is_alone: bool, constant: i128) -> Result<(), OutOfMemory>
    ensures { OnOk result (out.new.items ≡ out.old.items ++ parts_text (closing_parts is_alone constant)) }
{
    if is_alone || constant != 0 {
        put_lead(out, is_alone, is_negative(constant))?;
        put_number(out, constant.unsigned_abs())?;
    }
    Ok(())
}

/// Appends a form.
fn put_form(out: &mut Vec<u8>, form: &Form, iters: &[Name]) -> Result<(), OutOfMemory>
    ensures { OnOk result (out.new.items ≡ out.old.items ++ parts_text (form_parts (written_form iters.now form.now))) }
{
    let terms = form.terms.as_slice();
    put_terms(out, terms, iters)?;
    put_constant(out, terms.is_empty(), form.constant)?;
    Ok(())
}

/// Appends a number with its sign.
fn put_int(out: &mut Vec<u8>, number: i128) -> Result<(), OutOfMemory>
    ensures { OnOk result (out.new.items ≡ out.old.items ++ parts_text (int_parts (written_int number))) }
{
    put_lead(out, true, is_negative(number))?;
    put_number(out, number.unsigned_abs())?;
    Ok(())
}

/// Appends the stride behind two offsets.
fn put_stride(out: &mut Vec<u8>, stride: u128) -> Result<(), OutOfMemory>
    ensures { OnOk result (out.new.items ≡ out.old.items ++ parts_text (stride_parts (written_stride stride))) }
{
    if stride > 1 {
        put(out, b":")?;
        put_number(out, stride)?;
    }
    Ok(())
}

/// Appends the offsets of a dimension.
fn put_offset(out: &mut Vec<u8>, dim: &ArcDim) -> Result<(), OutOfMemory>
    ensures { OnOk result (out.new.items ≡ out.old.items ++ parts_text (offset_parts (written_offset dim.now))) }
{
    if dim.a == dim.b {
        return put(out, b"-");
    }
    put_int(out, dim.a)?;
    put(out, b":")?;
    put_int(out, dim.b)?;
    put_stride(out, dim.stride)?;
    Ok(())
}

/// Appends the domain of a dimension.
fn put_range(out: &mut Vec<u8>, dim: &ArcDim, iters: &[Name]) -> Result<(), OutOfMemory>
    ensures { OnOk result (out.new.items ≡ out.old.items ++ parts_text (range_parts (written_range iters.now dim.now))) }
{
    put_form(out, &dim.low, iters)?;
    put(out, b":")?;
    put_form(out, &dim.high, iters)?;
    Ok(())
}

/// Appends the comma before each item of a list but the first.
pub(crate) fn put_comma(out: &mut Vec<u8>, index: usize) -> Result<(), OutOfMemory>
    ensures { OnOk result (out.new.items ≡ out.old.items ++ parts_text (separator 44 index)) }
{
    if index > 0 {
        put(out, b",")?;
    }
    Ok(())
}

/// Appends the domains of the dimensions.
pub(crate) fn put_ranges(
    out: &mut Vec<u8>,
    dims: &[ArcDim],
    iters: &[Name],
) -> Result<(), OutOfMemory>
    ensures { OnOk result (out.new.items ≡ out.old.items ++ parts_text (listed_parts 44 range_parts (map (written_range iters.now) dims.now))) }
{
    for (index, dim) in dims.iter().enumerate() {
        put_comma(out, index)?;
        put_range(out, dim, iters)?;
    }
    Ok(())
}

/// Appends the offsets of the dimensions.
fn put_offset_list(out: &mut Vec<u8>, dims: &[ArcDim]) -> Result<(), OutOfMemory>
    ensures { OnOk result (out.new.items ≡ out.old.items ++ parts_text (listed_parts 44 offset_parts (map written_offset dims.now))) }
{
    for (index, dim) in dims.iter().enumerate() {
        put_comma(out, index)?;
        put_offset(out, dim)?;
    }
    Ok(())
}

/// Appends what moves with the iterators, of each dimension.
pub(crate) fn put_forms(
    out: &mut Vec<u8>,
    dims: &[ArcDim],
    iters: &[Name],
) -> Result<(), OutOfMemory>
    ensures { OnOk result (out.new.items ≡ out.old.items ++ parts_text (listed_parts 44 form_parts (map (λ d. written_form iters.now d.at) dims.now))) }
{
    for (index, dim) in dims.iter().enumerate() {
        put_comma(out, index)?;
        put_form(out, &dim.at, iters)?;
    }
    Ok(())
}

/// The text of a word.
pub(crate) fn word_text(word: Word) -> &'static [u8]
    ensures { result.now ≡ word_text word }
{
    match word {
        Word::Element => b"element",
        Word::Neighbourhood => b"neighbourhood",
        Word::Chunk => b"chunk",
        Word::Full => b"full",
        Word::Shared => b"shared",
    }
}

/// The text of the mark at the end of an arc.
pub(crate) fn mark_text(exact: bool) -> &'static [u8]
    ensures { result.now ≡ mark_text exact }
{
    if exact { b"exact" } else { b"within" }
}

/// Appends the offsets in their brackets; `element` has none.
pub(crate) fn put_offsets(out: &mut Vec<u8>, word: Word, dims: &[ArcDim]) -> Result<(), OutOfMemory>
    ensures { OnOk result (out.new.items ≡ out.old.items ++ parts_text (offsets_parts (written_offsets word dims.now))) }
{
    match word {
        Word::Element => Ok(()),
        Word::Neighbourhood => put_brackets(out, dims),
        Word::Chunk => put_brackets(out, dims),
        Word::Full => put_brackets(out, dims),
        Word::Shared => put_brackets(out, dims),
    }
}

/// Appends the offsets in their brackets.
fn put_brackets(out: &mut Vec<u8>, dims: &[ArcDim]) -> Result<(), OutOfMemory>
    ensures { OnOk result (out.new.items ≡ out.old.items ++ parts_text (offsets_parts (Some (map written_offset dims.now)))) }
{
    put(out, b"(")?;
    put_offset_list(out, dims)?;
    put(out, b")")?;
    Ok(())
}

/// Appends an arc up to its offsets.
fn put_front(out: &mut Vec<u8>, arc: &Arc, names: &Names) -> Result<(), OutOfMemory>
    requires { All HasSmallSpan arc.now.dims }
    ensures { OnOk result (out.new.items ≡ out.old.items ++ parts_text (arc_front (written_arc names.now arc.now))) }
{
    let word = word_of(arc);
    put(out, name_at(names.arrays.as_slice(), arc.array))?;
    put(out, b"[")?;
    put_ranges(out, arc.dims.as_slice(), names.iters.as_slice())?;
    put(out, b"]|")?;
    put(out, word_text(word))?;
    put_offsets(out, word, arc.dims.as_slice())?;
    Ok(())
}

/// Appends an arc.
fn put_arc(out: &mut Vec<u8>, arc: &Arc, names: &Names) -> Result<(), OutOfMemory>
    requires { All HasSmallSpan arc.now.dims }
    ensures { OnOk result (out.new.items ≡ out.old.items ++ text_of (arc_pieces (written_arc names.now arc.now))) }
{
    put_front(out, arc, names)?;
    put(out, b" at (")?;
    put_forms(out, arc.dims.as_slice(), names.iters.as_slice())?;
    put(out, b") ")?;
    put(out, mark_text(arc.exact))?;
    Ok(())
}

/// The text of an arc. A number without a name is written as no bytes.
#[tactic(auto, unfolding(crate::specs::Written::arc_text))]
pub fn write_arc(alloc: Global, arc: &Arc, names: &Names) -> Result<Vec<u8>, OutOfMemory>
    requires { All HasSmallSpan arc.now.dims }
    ensures { IfOk result (λ text. text.items ≡ arc_text names.now arc.now) }
{
    let mut out = Vec::new(alloc);
    put_arc(&mut out, arc, names)?;
    Ok(out)
}

fn is_read(dir: Dir) -> bool
    ensures { result ≡ is_read dir }
{
    match dir {
        Dir::Read => true,
        Dir::Write => false,
        Dir::Add => false,
    }
}

/// Whether an arc stands on the left, or on the right.
fn is_on(left: bool, arc: &Arc) -> bool
    ensures { result ≡ is_on left arc.now }
{
    if left {
        is_read(arc.dir)
    } else {
        !is_read(arc.dir)
    }
}

/// Appends an arc of a side, behind a separator where it is not the first.
fn put_next_arc(
    out: &mut Vec<u8>,
    is_first: bool,
    arc: &Arc,
    names: &Names,
) -> Result<(), OutOfMemory>
    requires { All HasSmallSpan arc.now.dims }
    ensures { OnOk result (out.new.items ≡ out.old.items ++ text_of (arc_after is_first (written_arc names.now arc.now))) }
{
    if !is_first {
        put(out, b" ^ ")?;
    }
    put_arc(out, arc, names)?;
    Ok(())
}

/// Appends a side of a line.
fn put_side(out: &mut Vec<u8>, left: bool, arcs: &[Arc], names: &Names) -> Result<(), OutOfMemory>
    requires { All (λ a. All HasSmallSpan a.dims) arcs.now }
    ensures { OnOk result (out.new.items ≡ out.old.items ++ text_of (side_pieces (map (written_arc names.now) (filter (is_on left) arcs.now)))) }
{
    let mut is_empty = true;
    for arc in arcs {
        if !is_on(left, arc) {
            continue;
        }
        put_next_arc(out, is_empty, arc, names)?;
        is_empty = false;
    }
    if is_empty {
        put(out, b"none")?;
    }
    Ok(())
}

/// Appends both sides of a line.
fn put_sides(out: &mut Vec<u8>, arcs: &[Arc], names: &Names) -> Result<(), OutOfMemory>
    requires { All (λ a. All HasSmallSpan a.dims) arcs.now }
    ensures { OnOk result (out.new.items ≡ out.old.items ++ text_of (line_pieces (written_sides names.now arcs.now))) }
{
    put_side(out, true, arcs, names)?;
    put(out, b" -> ")?;
    put_side(out, false, arcs, names)?;
    Ok(())
}

/// Appends why a loop is sequential.
fn put_reason(out: &mut Vec<u8>, reason: Reason, names: &Names) -> Result<(), OutOfMemory>
    ensures { OnOk result (out.new.items ≡ out.old.items ++ text_of (line_pieces (written_reason names.now reason))) }
{
    match reason {
        Reason::Carried {
            array,
            first,
            second,
        } => {
            put(out, b"sequential carried ")?;
            put(out, name_at(names.arrays.as_slice(), array))?;
            put_spaced(out, first)?;
            put_spaced(out, second)?;
            Ok(())
        }
        Reason::Outer { local } => {
            put(out, b"sequential local ")?;
            put(out, name_at(names.locals.as_slice(), local))?;
            Ok(())
        }
    }
}

/// Appends a space and a number.
fn put_spaced(out: &mut Vec<u8>, number: u32) -> Result<(), OutOfMemory>
    ensures { OnOk result (out.new.items ≡ out.old.items ++ 32 ∷ decimal number) }
{
    put(out, b" ")?;
    put_number(out, u128::from(number))?;
    Ok(())
}

/// The text of the species line of a nest: its arcs, or why it is sequential. A number without a name is
/// written as no bytes.
#[tactic(auto, unfolding(crate::specs::Written::line_text))]
pub fn write_line(alloc: Global, nest: &Nest, names: &Names) -> Result<Vec<u8>, OutOfMemory>
    requires { All (λ a. All HasSmallSpan a.dims) nest.now.arcs }
    ensures { IfOk result (λ text. text.items ≡ line_text names.now nest.now) }
{
    let mut out = Vec::new(alloc);
    match nest.reason {
        None => put_sides(&mut out, nest.arcs.as_slice(), names)?,
        Some(reason) => put_reason(&mut out, reason, names)?,
    }
    Ok(out)
}
