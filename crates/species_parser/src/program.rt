//! Reading a whole program.
ghost use Rattle.std.specs.Prelude.{◌≤◌, ℕ, Ok, Err, length};
ghost use Rattle.species_ast.specs.Limits.{most_bytes};
ghost use Rattle.species_grammar.specs.Whole.{whole};
ghost use Rattle.species_ast.specs.Reading.{IsAccepted, IsRefusedByText, IsRefusedByLoad, IsRefusedByGrammar};
ghost use Rattle.species_ast.specs.declared.raw.RawUnit.{RawUnit};
ghost use Rattle.species_ast.specs.declared.token.LexRefusal.{LexRefusal};
ghost use Rattle.species_parser.specs.Finished.{GivesWhole};
ghost use Rattle.species_parser.specs.Parsed.{Answers, IsUnlessMemory};
ghost use Rattle.species_parser.specs.Parsing.{unit};

use crate::cursor::Cursor;
use crate::load::load_refusal;
use crate::refusal::{ReadRefusal, TableRefusal};
use crate::stop::Stop;
use crate::tokens::grammar_tokens;
use crate::units::unit;
use species_ast::RawUnit;
use std::alloc::Global;

/// The unit that all these tokens are, of a program of so many bytes.
pub(crate) fn whole_unit<'a>(
    alloc: Global,
    tokens: Cursor<'_, 'a>,
    size: u32,
) -> Result<RawUnit<'a>, TableRefusal>
    ensures { GivesWhole size result (whole unit tokens.entry) }
{
    let mut cursor = tokens;
    match unit(alloc, &mut cursor) {
        Ok(unit) => match cursor.place() {
            None => Ok(unit),
            Some(place) => Err(TableRefusal::Syntax(place)),
        },
        Err(Stop::Syntax) => Err(TableRefusal::Syntax(cursor.place().unwrap_or(size))),
        Err(Stop::Memory) => Err(TableRefusal::Memory),
    }
}

/// What `parse` answers.
fn read<'a>(alloc: Global, bytes: &'a [u8]) -> Result<RawUnit<'a>, ReadRefusal>
    requires { length bytes.now ≤ most_bytes }
    ensures { Answers bytes.now result }
{
    let tokens = grammar_tokens(alloc, bytes)?;
    match load_refusal(alloc, Cursor::listed(&tokens))? {
        Some(place) => Err(ReadRefusal::Load(place)),
        None => Ok(whole_unit(alloc, Cursor::listed(&tokens), bytes.len() as u32)?),
    }
}

/// The raw tree of a program, or the first refusal of it: that of its text, then of its load, then of
/// its grammar. A place is a byte offset, and that of a syntax error is the length of the program
/// where the program ends too early. The tree borrows the names from the bytes.
pub fn parse<'a>(alloc: Global, bytes: &'a [u8]) -> Result<RawUnit<'a>, ReadRefusal>
    requires { length bytes.now ≤ most_bytes }

    // Each answer is true of the text.
    ensures answers { Answers bytes.now result }

    // Where one of them is true, it is the answer, unless memory runs out.
    ensures accepted { (unit : RawUnit) → IsAccepted bytes.now unit → IsUnlessMemory result (Ok unit) }
    ensures refused_text { (refusal : LexRefusal) → IsRefusedByText bytes.now refusal
        → IsUnlessMemory result (Err (ReadRefusal.Lex refusal)) }
    ensures refused_load { (place : ℕ) → IsRefusedByLoad bytes.now place
        → IsUnlessMemory result (Err (ReadRefusal.Load place)) }
    ensures refused_syntax { (place : ℕ) → IsRefusedByGrammar bytes.now place
        → IsUnlessMemory result (Err (ReadRefusal.Syntax place)) }
{
    read(alloc, bytes)
}
