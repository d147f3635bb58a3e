//! Reading a whole program from the table of its tokens.
ghost use Rattle.std.specs.Prelude.{◌≡◌, ℕ, List, Ok, Err};
ghost use Rattle.species_ast.specs.Reading.{IsAccepted, IsRefusedByLoad, IsRefusedByGrammar};
ghost use Rattle.species_ast.specs.declared.raw.RawUnit.{RawUnit};
ghost use Rattle.species_lexer.specs.Cut.{IsTableOf};
ghost use Rattle.species_parser.specs.Parsed.{Answers, IsUnlessMemory};
ghost use Rattle.species_parser.specs.Tabled.{as_parsed};

use crate::cursor::Cursor;
use crate::load::load_refusal;
use crate::program::whole_unit;
use crate::refusal::{ReadRefusal, TableRefusal};
use species_ast::RawUnit;
use species_lexer::TokenTable;
use std::alloc::Global;

/// What `parse_table` answers.
fn read_table<'a>(alloc: Global, table: &'a TokenTable) -> Result<RawUnit<'a>, TableRefusal>
    ensures { (bytes : List ℕ) → IsTableOf table.now bytes → Answers bytes (as_parsed result) }
{
    match load_refusal(alloc, Cursor::over(table))? {
        Some(place) => Err(TableRefusal::Load(place)),
        None => whole_unit(alloc, Cursor::over(table), table.length()),
    }
}

/// The raw tree of a program, or the first refusal of it, from the table of its tokens: what `parse`
/// gives of the program's bytes, which have no refusal of their own. The tree borrows the names from
/// the table.
pub fn parse_table<'a>(alloc: Global, table: &'a TokenTable) -> Result<RawUnit<'a>, TableRefusal>
    // Each answer is true of the text.
    ensures answers { (bytes : List ℕ) → IsTableOf table.now bytes → Answers bytes (as_parsed result) }

    // Where one of them is true, it is the answer, unless memory runs out.
    ensures accepted { (bytes : List ℕ) (unit : RawUnit) → IsTableOf table.now bytes → IsAccepted bytes unit
        → IsUnlessMemory (as_parsed result) (Ok unit) }
    ensures refused_load { (bytes : List ℕ) (place : ℕ) → IsTableOf table.now bytes → IsRefusedByLoad bytes place
        → IsUnlessMemory (as_parsed result) (Err (ReadRefusal.Load place)) }
    ensures refused_syntax { (bytes : List ℕ) (place : ℕ) → IsTableOf table.now bytes → IsRefusedByGrammar bytes place
        → IsUnlessMemory (as_parsed result) (Err (ReadRefusal.Syntax place)) }
{
    read_table(alloc, table)
}
