//! Lines as they are read.
ghost use Rattle.std.specs.Prelude.{◌≡◌, IfOk, Err, Some, None};
ghost use Rattle.species_notation.specs.Readers.{raw_line};
ghost use Rattle.species_notation.specs.Meaning.{line_of};
ghost use Rattle.species_notation.specs.declared.refusal.NotationRefusal.TheVariants.{Syntax};
ghost use Rattle.species_notation.specs.Gives.{Finds};

use crate::cursor::Cursor;
use crate::given::{Names, SpeciesLine};
use crate::meaning::given_line;
use crate::parts::Part;
use crate::raw::RawLine;
use crate::reading::line;
use crate::refusal::NotationRefusal;
use crate::scan::parts_of;
use std::alloc::Global;

/// What the parts say, if they are those of a line.
fn raw_line<'a>(alloc: Global, parts: &[Part<'a>]) -> Result<RawLine<'a>, NotationRefusal>
    ensures { Finds result (raw_line parts.now) }
{
    let mut cursor = Cursor::new(parts);
    let said = line(alloc, &mut cursor)?;
    if !cursor.is_at_end() {
        return Err(NotationRefusal::Syntax);
    }
    Ok(said)
}

/// What the text of a species line says with these names.
#[tactic(auto, unfolding(crate::specs::Meaning::line_of))]
pub fn read_line(alloc: Global, text: &[u8], names: &Names) -> Result<SpeciesLine, NotationRefusal>
    ensures ok { IfOk result (λ line. line_of names.now text.now ≡ Some line) }
    ensures syntax { result ≡ Err Syntax → line_of names.now text.now ≡ None }
{
    let parts = parts_of(alloc, text)?;
    let said = raw_line(alloc, parts.as_slice())?;
    given_line(alloc, names, &said)
}
