//! Declarations of arrays and of locals.
ghost use Rattle.std.specs.Prelude.{◌<◌, ◌≤◌, length, IfOk};
ghost use Rattle.species_parser.specs.Given.{Gives};
ghost use Rattle.species_parser.specs.Parsing.{array, arrays, declaration, global, initialiser, local, locals, next_array, next_local};

use crate::cursor::Cursor;
use crate::expressions::{expression, subscript, subscripts};
use crate::stop::Stop;
use crate::types::type_specifier;
use species_ast::{RawArray, RawExpr, RawItem, RawLocal, RawStmt, RawWhat};
use sqlite_items::{Boxed, Items};
use std::alloc::Global;

/// An array with its sizes, of which there is at least one.
#[tactic(auto, unfolding(crate::specs::Parsing::array))]
fn array<'a>(alloc: Global, cursor: &mut Cursor<'_, 'a>) -> Result<RawArray<'a>, Stop>
    ensures value { Gives result cursor.new (array cursor.old) }
    ensures shorter { IfOk result (λ _. length cursor.new < length cursor.old) }
{
    let name = cursor.name()?;
    let mut sizes = Items::new(alloc);
    sizes.push(subscript(alloc, cursor)?.into_inner())?;
    let more = subscripts(alloc, cursor)?;
    sizes.append(more)?;
    Ok(RawArray { name, sizes })
}

/// An array behind a comma.
#[tactic(auto, unfolding(crate::specs::Parsing::next_array))]
fn next_array<'a>(alloc: Global, cursor: &mut Cursor<'_, 'a>) -> Result<RawArray<'a>, Stop>
    ensures value { Gives result cursor.new (next_array cursor.old) }
    ensures shorter { IfOk result (λ _. length cursor.new < length cursor.old) }
{
    cursor.punctuator(b",")?;
    array(alloc, cursor)
}

/// The arrays of a declaration.
#[tactic(auto, unfolding(crate::specs::Parsing::arrays))]
fn arrays<'a>(alloc: Global, cursor: &mut Cursor<'_, 'a>) -> Result<Items<RawArray<'a>>, Stop>
    ensures value { Gives result cursor.new (arrays cursor.old) }
    ensures shorter { IfOk result (λ _. length cursor.new < length cursor.old) }
{
    let mut arrays = Items::new(alloc);
    arrays.push(array(alloc, cursor)?)?;
    while cursor.is_at_punctuator(b",") {
        arrays.push(next_array(alloc, cursor)?)?;
    }
    Ok(arrays)
}

/// A declaration of arrays, behind its `static`.
#[tactic(auto, unfolding(crate::specs::Parsing::global))]
pub(crate) fn global<'a>(alloc: Global, cursor: &mut Cursor<'_, 'a>) -> Result<RawItem<'a>, Stop>
    ensures value { Gives result cursor.new (global cursor.old) }
    ensures shorter { IfOk result (λ _. length cursor.new < length cursor.old) }
{
    let (_, kind) = type_specifier(cursor)?;
    let arrays = arrays(alloc, cursor)?;
    cursor.punctuator(b";")?;
    Ok(RawItem::Global { kind, arrays })
}

/// The initialiser of a local, if it has one.
#[tactic(auto, unfolding(crate::specs::Parsing::initialiser))]
fn initialiser<'a>(alloc: Global, cursor: &mut Cursor<'_, 'a>) -> Result<Option<RawExpr<'a>>, Stop>
    ensures value { Gives result cursor.new (initialiser cursor.old) }
    ensures within { IfOk result (λ _. length cursor.new ≤ length cursor.old) }
{
    if !cursor.is_at_punctuator(b"=") {
        return Ok(None);
    }
    cursor.punctuator(b"=")?;
    Ok(Some(expression(alloc, cursor)?))
}

/// A local with its initialiser.
#[tactic(auto, unfolding(crate::specs::Parsing::local))]
fn local<'a>(alloc: Global, cursor: &mut Cursor<'_, 'a>) -> Result<RawLocal<'a>, Stop>
    ensures value { Gives result cursor.new (local cursor.old) }
    ensures shorter { IfOk result (λ _. length cursor.new < length cursor.old) }
{
    let name = cursor.name()?;
    Ok(RawLocal {
        name,
        init: initialiser(alloc, cursor)?,
    })
}

/// A local behind a comma.
#[tactic(auto, unfolding(crate::specs::Parsing::next_local))]
fn next_local<'a>(alloc: Global, cursor: &mut Cursor<'_, 'a>) -> Result<RawLocal<'a>, Stop>
    ensures value { Gives result cursor.new (next_local cursor.old) }
    ensures shorter { IfOk result (λ _. length cursor.new < length cursor.old) }
{
    cursor.punctuator(b",")?;
    local(alloc, cursor)
}

/// The locals of a declaration.
#[tactic(auto, unfolding(crate::specs::Parsing::locals))]
fn locals<'a>(alloc: Global, cursor: &mut Cursor<'_, 'a>) -> Result<Items<RawLocal<'a>>, Stop>
    ensures value { Gives result cursor.new (locals cursor.old) }
    ensures shorter { IfOk result (λ _. length cursor.new < length cursor.old) }
{
    let mut locals = Items::new(alloc);
    locals.push(local(alloc, cursor)?)?;
    while cursor.is_at_punctuator(b",") {
        locals.push(next_local(alloc, cursor)?)?;
    }
    Ok(locals)
}

/// A declaration in a block.
#[inline(never)]
#[tactic(auto, unfolding(crate::specs::Parsing::declaration))]
pub(crate) fn declaration<'a>(
    alloc: Global,
    cursor: &mut Cursor<'_, 'a>,
) -> Result<Boxed<RawStmt<'a>>, Stop>
    ensures value { Gives result cursor.new (declaration cursor.old) }
    ensures shorter { IfOk result (λ _. length cursor.new < length cursor.old) }
{
    let (place, kind) = type_specifier(cursor)?;
    let locals = locals(alloc, cursor)?;
    cursor.punctuator(b";")?;
    let declaration = RawStmt {
        place,
        what: RawWhat::Declare { kind, locals },
    };
    Ok(Boxed::new(alloc, declaration)?)
}
