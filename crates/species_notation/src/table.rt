//! A line of the table of arcs as text.
#![tactic(auto, using(crate::proofs::Texts::parts_append, std::proofs::Common::append_assoc))]

ghost use Rattle.std.specs.Prelude.{◌≡◌, ◌++◌, List, All, OnOk, IfOk, codes, map};
ghost use Rattle.species_arcs.specs.Sizes.{HasSmallSpan};
ghost use Rattle.species_notation.specs.Parts.{parts_text, text_of};
ghost use Rattle.species_notation.specs.Spelled.{listed_parts};
ghost use Rattle.species_notation.specs.Written.{written_arc, dir_text, arc_domain, arc_shape, arc_tail, number_parts, sizes_pieces, table_front, table_pieces, table_line_text};

use crate::given::Names;
use crate::writing::{
    mark_text, name_at, put, put_comma, put_forms, put_number, put_offsets, put_ranges, word_text,
};
use species_arcs::{Arc, ArcDim, Dir, word_of};
use species_ast::OutOfMemory;
use std::alloc::Global;

/// What a reference does.
fn dir_text(dir: Dir) -> &'static [u8]
    ensures { result.now ≡ dir_text dir }
{
    match dir {
        Dir::Read => b"read",
        Dir::Write => b"write",
        Dir::Add => b"add",
    }
}

/// Appends the array and its domain.
fn put_domain(out: &mut Vec<u8>, arc: &Arc, names: &Names) -> Result<(), OutOfMemory>
    ensures { OnOk result (out.new.items ≡ out.old.items ++ parts_text (arc_domain (written_arc names.now arc.now))) }
{
    put(out, name_at(names.arrays.as_slice(), arc.array))?;
    put(out, b"[")?;
    put_ranges(out, arc.dims.as_slice(), names.iters.as_slice())?;
    put(out, b"]")?;
    Ok(())
}

/// Appends a number, what its reference does, and its array and domain.
fn put_head(out: &mut Vec<u8>, number: u32, arc: &Arc, names: &Names) -> Result<(), OutOfMemory>
    ensures { OnOk result (out.new.items ≡ out.old.items ++ text_of (table_front number arc.now.dir (written_arc names.now arc.now))) }
{
    put_number(out, u128::from(number))?;
    put(out, b" ")?;
    put(out, dir_text(arc.dir))?;
    put(out, b" ")?;
    put_domain(out, arc, names)?;
    Ok(())
}

/// Appends how many places each dimension has.
fn put_elements(out: &mut Vec<u8>, dims: &[ArcDim]) -> Result<(), OutOfMemory>
    ensures { OnOk result (out.new.items ≡ out.old.items ++ parts_text (listed_parts 44 number_parts (map (λ d. d.elements) dims.now))) }
{
    for (index, dim) in dims.iter().enumerate() {
        put_comma(out, index)?;
        put_number(out, dim.elements)?;
    }
    Ok(())
}

/// Appends how far each dimension moves.
fn put_steps(out: &mut Vec<u8>, dims: &[ArcDim]) -> Result<(), OutOfMemory>
    ensures { OnOk result (out.new.items ≡ out.old.items ++ parts_text (listed_parts 44 number_parts (map (λ d. d.step) dims.now))) }
{
    for (index, dim) in dims.iter().enumerate() {
        put_comma(out, index)?;
        put_number(out, dim.step)?;
    }
    Ok(())
}

/// Appends the sizes of the dimensions.
fn put_sizes(out: &mut Vec<u8>, dims: &[ArcDim]) -> Result<(), OutOfMemory>
    ensures { OnOk result (out.new.items ≡ out.old.items ++ text_of (sizes_pieces dims.now)) }
{
    put(out, b" elements (")?;
    put_elements(out, dims)?;
    put(out, b") step (")?;
    put_steps(out, dims)?;
    put(out, b")")?;
    Ok(())
}

/// Appends the word and the offsets.
fn put_shape(out: &mut Vec<u8>, arc: &Arc, names: &Names) -> Result<(), OutOfMemory>
    requires { All HasSmallSpan arc.now.dims }
    ensures { OnOk result (out.new.items ≡ out.old.items ++ parts_text (arc_shape (written_arc names.now arc.now))) }
{
    let word = word_of(arc);
    put(out, b"|")?;
    put(out, word_text(word))?;
    put_offsets(out, word, arc.dims.as_slice())?;
    Ok(())
}

/// Appends what stands behind the sizes.
fn put_tail(out: &mut Vec<u8>, arc: &Arc, names: &Names) -> Result<(), OutOfMemory>
    requires { All HasSmallSpan arc.now.dims }
    ensures { OnOk result (out.new.items ≡ out.old.items ++ text_of (arc_tail (written_arc names.now arc.now))) }
{
    put_shape(out, arc, names)?;
    put(out, b" at (")?;
    put_forms(out, arc.dims.as_slice(), names.iters.as_slice())?;
    put(out, b") ")?;
    put(out, mark_text(arc.exact))?;
    Ok(())
}

/// Appends the line of a reference, without its line feed.
fn put_table_line(
    out: &mut Vec<u8>,
    number: u32,
    arc: &Arc,
    names: &Names,
) -> Result<(), OutOfMemory>
    requires { All HasSmallSpan arc.now.dims }
    ensures { OnOk result (out.new.items ≡ out.old.items ++ text_of (table_pieces names.now number arc.now)) }
{
    put_head(out, number, arc, names)?;
    put_sizes(out, arc.dims.as_slice())?;
    put_tail(out, arc, names)?;
    Ok(())
}

/// The line of a reference with this number and arc in the table of arcs, and a line feed. A number
/// without a name is written as no bytes.
#[tactic(auto, unfolding(crate::specs::Written::table_line_text))]
pub fn write_table_line(
    alloc: Global,
    number: u32,
    arc: &Arc,
    names: &Names,
) -> Result<Vec<u8>, OutOfMemory>
    requires { All HasSmallSpan arc.now.dims }
    ensures { IfOk result (λ text. text.items ≡ table_line_text names.now number arc.now ++ codes "\n") }
{
    let mut out = Vec::new(alloc);
    put_table_line(&mut out, number, arc, names)?;
    put(&mut out, b"\n")?;
    Ok(out)
}
