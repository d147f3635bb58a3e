//! The lines of a loop's references.

ghost use Rattle.std.specs.Prelude.{◌≡◌, ◌++◌, ◌∷◌, [], List, All, IfOk, OnOk, codes, decimal};
ghost use Rattle.species_merge.specs.Sizes.{IsMergeable, IsSmallBound};
ghost use Rattle.species_report.specs.Table.{IsLineOf, place_line};
ghost use Rattle.species_report.specs.Lines.{HaveLines};

use itoa::Buffer;
use species_ast::OutOfMemory;
use species_merge::{BandBound, merge};
use species_notation::{Names, write_table_line};
use species_references::Reference;
use std::alloc::Global;
use std::slice::from_ref;

/// The line of a reference, with the arc that it has alone.
#[tactic(auto, using(crate::proofs::PartLemmas::line_is))]
fn line_of(
    alloc: Global,
    bound: &BandBound,
    reference: &Reference,
    names: &Names,
) -> Result<Vec<u8>, OutOfMemory>
    requires bound { IsSmallBound bound.now }
    requires reference { IsMergeable reference.now }
    ensures { IfOk result (λ text. IsLineOf names.now bound.now reference.now text.items) }
{
    let arcs = merge(alloc, from_ref(reference), 0, 1, from_ref(bound))?;
    write_table_line(alloc, reference.number, &arcs[0], names)
}

/// The lines of references.
pub(crate) fn lines_of(
    alloc: Global,
    bound: &BandBound,
    references: &[Reference],
    names: &Names,
) -> Result<Vec<u8>, OutOfMemory>
    requires bound { IsSmallBound bound.now }
    requires references { All IsMergeable references.now }
    ensures { IfOk result (λ text. HaveLines names.now bound.now references.now text.items) }
{
    let mut text = Vec::new(alloc);
    for reference in references {
        let line = line_of(alloc, bound, reference, names)?;
        text.extend_from_slice(line.as_slice())?;
    }
    Ok(text)
}

/// The line of a loop's place.
pub(crate) fn place_line(alloc: Global, place: u32) -> Result<Vec<u8>, OutOfMemory>
    ensures { IfOk result (λ text. text.items ≡ place_line place) }
{
    let mut buffer = Buffer::new();
    let mut text = Vec::new(alloc);
    text.extend_from_slice(b"loop ")?;
    text.extend_from_slice(buffer.format(place).as_bytes())?;
    text.extend_from_slice(b"\n")?;
    Ok(text)
}
