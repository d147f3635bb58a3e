//! What stands before the function: headers and arrays.

ghost use Rattle.std.specs.Prelude.{◌≡◌, ◌++◌, ◌∷◌, [], map, is_none, IfOk, OnOk};
ghost use Rattle.species_ast.specs.Scope.Expressions.{reading, names_of};
ghost use Rattle.species_ast.specs.Scope.Meanings.{Declared, occurrence};
ghost use Rattle.species_ast.specs.Scope.Programs as programs;
ghost use Rattle.species_names.specs.Kept.{kept};
ghost use Rattle.species_names.specs.Noted.{noted};
ghost use Rattle.species_scope.specs.Declaring.{after_sizes, sizes_of, after_arrays, after_items};

use crate::builder::Builder;
use crate::expressions::boxed_value;
use crate::forms::constant;
use species_ast::{
    Array, Dims, Includes, Kind, Name, OutOfMemory, RawArray, RawExpr, RawItem, RawName,
};
use species_names::{Meaning, Refusal, Role};
use sqlite_items::Items;
use std::alloc::Global;

/// What is built of a program before its function.
#[derive(Drop)]
pub(crate) struct Heads<'a> {
    pub(crate) builder: Builder<'a>,
    pub(crate) includes: Includes,
    pub(crate) arrays: Items<Array>,
    /// The places of the arrays' names.
    pub(crate) places: Items<u32>,
}

fn extent(number: Option<i32>) -> u32
    ensures { result ≡ programs.extent number }
{
    match number {
        Some(n) => { if n < 0 { 0 } else { n as u32 } }
        None => 0,
    }
}

/// The size of an array.
fn size(alloc: Global, raw: &RawExpr, b: &mut Builder) -> Result<u32, OutOfMemory>
    ensures value { IfOk result (λ n. n ∷ [] ≡ sizes_of (raw.now ∷ []) b.old.place) }
    ensures state { OnOk result (b.new ≡ after_sizes b.old (raw.now ∷ [])) }
{
    let value = boxed_value(alloc, raw, &b.place, &mut b.found)?;
    let number = constant(alloc, value.get())?;
    b.forms
        .note_if(number.is_none(), Refusal::NotStatic, raw.place);
    Ok(extent(number))
}

fn sizes(alloc: Global, all: &[RawExpr], b: &mut Builder) -> Result<Vec<u32>, OutOfMemory>
    ensures value { IfOk result (λ ns. ns.items ≡ sizes_of all.now b.old.place) }
    ensures state { OnOk result (b.new ≡ after_sizes b.old all.now) }
{
    let mut values = Vec::new(alloc);
    for raw in all {
        values.push(size(alloc, raw, b)?)?;
    }
    Ok(values)
}

/// A number of 32 bits.
fn number_of(n: usize) -> Result<u32, OutOfMemory>
    ensures { IfOk result (λ m. m ≡ n) }
{
    if n > 4_294_967_295 {
        return Err(OutOfMemory);
    }
    Ok(n as u32)
}

/// An array of this kind.
fn declare_array<'a>(
    alloc: Global,
    kind: Kind,
    raw: &RawArray<'a>,
    heads: &mut Heads<'a>,
) -> Result<(), OutOfMemory>
    ensures { OnOk result (heads.new ≡ after_arrays heads.old (programs.parts_of kind raw.now ∷ [])) }
{
    let b = &mut heads.builder;
    note_declared(&raw.name, b);
    let dims = Dims::from_vec(sizes(alloc, raw.sizes.as_slice(), b)?);
    let number = number_of(heads.arrays.len())?;
    let count = number_of(raw.sizes.len())?;
    b.place.declare(&raw.name, Meaning::Array(number, count))?;
    let name = Name::new(alloc, raw.name.text)?;
    heads.arrays.push(Array { name, kind, dims })?;
    heads.places.push(raw.name.place)?;
    Ok(())
}

/// Notes what is refused of a name that is declared.
pub(crate) fn note_declared(name: &RawName, b: &mut Builder)
    ensures { b.new ≡ record b.old { found = noted b.old.place.iterators b.old.found (occurrence Declared b.old.place name.now ∷ []) } }
{
    let means = b.place.meaning(name);
    b.found
        .note_name(name, Role::Declared, &means, b.place.iterators());
}

fn declare_arrays<'a>(
    alloc: Global,
    kind: Kind,
    all: &[RawArray<'a>],
    heads: &mut Heads<'a>,
) -> Result<(), OutOfMemory>
    ensures { OnOk result (heads.new ≡ after_arrays heads.old (map (programs.parts_of kind) all.now)) }
{
    for raw in all {
        declare_array(alloc, kind, raw, heads)?;
    }
    Ok(())
}

fn read_item<'a>(alloc: Global, raw: &RawItem<'a>, heads: &mut Heads<'a>) -> Result<(), OutOfMemory>
    ensures { OnOk result (heads.new ≡ after_items heads.old (raw.now ∷ [])) }
{
    match raw {
        RawItem::Include(header) => {
            heads.includes.push(Name::new(alloc, header.text)?)?;
            Ok(())
        }
        RawItem::Global { kind, arrays } => {
            declare_arrays(alloc, *kind, arrays.as_slice(), heads)?;
            Ok(())
        }
    }
}

/// The headers and the arrays, in the order of the text.
pub(crate) fn read_items<'a>(
    alloc: Global,
    all: &[RawItem<'a>],
    heads: &mut Heads<'a>,
) -> Result<(), OutOfMemory>
    ensures { OnOk result (heads.new ≡ after_items heads.old all.now) }
{
    for raw in all {
        read_item(alloc, raw, heads)?;
    }
    Ok(())
}
