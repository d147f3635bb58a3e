//! Programs: directives and globals, and one function.
ghost use Rattle.std.specs.Prelude.{◌≡◌, ◌<◌, length, is_some, true, IfOk};
ghost use Rattle.species_parser.specs.Given.{Gives};
ghost use Rattle.species_parser.specs.Parsing.{function_behind, next_item, unit};

use crate::cursor::Cursor;
use crate::declarations::global;
use crate::statements::items;
use crate::stop::Stop;
use species_ast::{RawItem, RawUnit};
use sqlite_items::Items;
use std::alloc::Global;

/// The next item before the function, or none where the function is next. A `static` before either
/// is skipped.
#[tactic(auto, unfolding(crate::specs::Parsing::next_item))]
fn next_item<'a>(alloc: Global, cursor: &mut Cursor<'_, 'a>) -> Result<Option<RawItem<'a>>, Stop>
    ensures value { Gives result cursor.new (next_item cursor.old) }
    ensures shorter { IfOk result (λ item. is_some item ≡ true → length cursor.new < length cursor.old) }
{
    if cursor.is_at_include() {
        return Ok(Some(RawItem::Include(cursor.include()?)));
    }
    cursor.optional_keyword(b"static");
    if cursor.is_at_keyword(b"void") {
        return Ok(None);
    }
    Ok(Some(global(alloc, cursor)?))
}

/// The function, behind the items that were read.
#[tactic(auto, unfolding(crate::specs::Parsing::function_behind))]
fn function_behind<'a>(
    alloc: Global,
    cursor: &mut Cursor<'_, 'a>,
    before: Items<RawItem<'a>>,
) -> Result<RawUnit<'a>, Stop>
    ensures { Gives result cursor.new (function_behind before.entry cursor.old) }
{
    cursor.keyword(b"void")?;
    let function = cursor.name()?;
    cursor.punctuator(b"(")?;
    cursor.optional_keyword(b"void");
    cursor.punctuator(b")")?;
    cursor.punctuator(b"{")?;
    let body = items(alloc, cursor)?;
    Ok(RawUnit {
        items: before,
        function,
        body,
    })
}

/// A program, with nothing looked at behind its function.
pub(crate) fn unit<'a>(alloc: Global, cursor: &mut Cursor<'_, 'a>) -> Result<RawUnit<'a>, Stop>
    ensures { Gives result cursor.new (unit cursor.old) }
{
    let mut items = Items::new(alloc);
    while let Some(item) = next_item(alloc, cursor)? {
        items.push(item)?;
    }
    function_behind(alloc, cursor, items)
}
