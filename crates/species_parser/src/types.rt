//! Type specifiers.
ghost use Rattle.std.specs.Prelude.{◌<◌, ◌≤◌, length, IfOk};
ghost use Rattle.species_parser.specs.Given.{Gives};
ghost use Rattle.species_parser.specs.Reading.{long_words, type_reader, unsigned_tail};

use crate::cursor::Cursor;
use crate::stop::Stop;
use species_ast::Kind;

/// `long long`, with the place of the first word. `int` may stand behind it.
#[tactic(auto, unfolding(crate::specs::Reading::long_words))]
fn long_words(cursor: &mut Cursor<'_, '_>) -> Result<u32, Stop>
    ensures value { Gives result cursor.new (long_words cursor.old) }
    ensures shorter { IfOk result (λ _. length cursor.new < length cursor.old) }
{
    let place = cursor.keyword(b"long")?;
    cursor.keyword(b"long")?;
    cursor.optional_keyword(b"int");
    Ok(place)
}

/// The kind that `unsigned` and the words behind it name.
#[tactic(auto, unfolding(crate::specs::Reading::unsigned_tail))]
fn unsigned_tail(cursor: &mut Cursor<'_, '_>) -> Result<Kind, Stop>
    ensures value { Gives result cursor.new (unsigned_tail cursor.old) }
    ensures within { IfOk result (λ _. length cursor.new ≤ length cursor.old) }
{
    if cursor.is_at_keyword(b"long") {
        long_words(cursor)?;
        return Ok(Kind::UnsignedLong);
    }
    cursor.optional_keyword(b"int");
    Ok(Kind::Unsigned)
}

/// A type, with the place of its first word.
#[tactic(auto, unfolding(crate::specs::Reading::type_reader))]
pub(crate) fn type_specifier(cursor: &mut Cursor<'_, '_>) -> Result<(u32, Kind), Stop>
    ensures value { Gives result cursor.new (type_reader cursor.old) }
    ensures shorter { IfOk result (λ _. length cursor.new < length cursor.old) }
{
    if cursor.is_at_keyword(b"int") {
        let place = cursor.keyword(b"int")?;
        return Ok((place, Kind::Int));
    }
    if cursor.is_at_keyword(b"unsigned") {
        let place = cursor.keyword(b"unsigned")?;
        return Ok((place, unsigned_tail(cursor)?));
    }
    Ok((long_words(cursor)?, Kind::Long))
}
