//! Reading a program from a source, piece by piece.

ghost use Rattle.std.specs.Prelude.{◌≡◌, ◌≤◌, ◌<◌, ◌+◌, ℕ, List, Result, Some, Ok, Err, length, IfOk};
ghost use Rattle.species_ast.specs.Limits.{most_bytes};
ghost use Rattle.species_ast.specs.declared.tree.Unit.{Unit as Program};
ghost use Rattle.species_ast.specs.Scope.References.{HasReadSize};
ghost use Rattle.species_ast.specs.Scope.WellMade.{IsWellMade};
ghost use Rattle.species_io.specs.Told.{Rose, IsLonger, GaveAtMost, GaveCount};
ghost use Rattle.species_lexer.specs.Cut.{IsTableOf};
ghost use Rattle.species_lexer.specs.Fed.{IsFed};
ghost use Rattle.species_reading.specs.declared.refusal.ProgramRefusal as spec_refusal;
ghost use Rattle.species_reading.specs.Answers.{Answers};
ghost use Rattle.species_reading.specs.Input.{IsOfText, IsFedText, in_input, IsOfProgram, WasRead, InputAnswers, IsUnlessStopped};

use crate::program::resolved;
use crate::refusal::{InputRefusal, ProgramRefusal, of_cut, of_table};
use species_ast::{MOST_BYTES, Unit};
use species_io::{ReadAnswer, Source, read_each};
use species_lexer::{Cutter, TokenTable};
use species_parser::parse_table;
use std::alloc::Global;

/// What the tokens of a text become.
fn read_table(alloc: Global, table: &TokenTable) -> Result<Unit, ProgramRefusal>
    requires { IsOfText table.now }
    ensures answers { (bytes : List ℕ) → IsTableOf table.now bytes → Answers bytes result }
    ensures made { IfOk result IsWellMade }
    ensures size { IfOk result HasReadSize }
{
    match parse_table(alloc, table) {
        Ok(raw) => resolved(alloc, &raw),
        Err(refusal) => Err(of_table(refusal)),
    }
}

/// What a text that was fed to a cutter becomes.
fn read_fed(alloc: Global, cutter: Cutter) -> Result<Unit, ProgramRefusal>
    requires { IsFedText cutter }
    ensures answers { (bytes : List ℕ) → IsFed cutter bytes → Answers bytes result }
    ensures made { IfOk result IsWellMade }
    ensures size { IfOk result HasReadSize }
{
    match cutter.finish() {
        Ok(table) => read_table(alloc, &table),
        Err(refusal) => Err(of_cut(refusal)),
    }
}

/// What is answered of a program, as an answer of a source.
fn in_input(read: Result<Unit, ProgramRefusal>) -> Result<Unit, InputRefusal>
    ensures { result ≡ in_input read }
{
    match read {
        Ok(unit) => Ok(unit),
        Err(ProgramRefusal::Memory) => Err(InputRefusal::Memory),
        Err(ProgramRefusal::Read(refusal)) => {
            Err(InputRefusal::Program(ProgramRefusal::Read(refusal)))
        }
        Err(ProgramRefusal::Scope(refusal)) => {
            Err(InputRefusal::Program(ProgramRefusal::Scope(refusal)))
        }
    }
}

/// Reads a program to the end of a source, in one pass, and answers what `read_program` does of its bytes. After a refusal
/// of the text the source is still read to its end.
pub fn read_program_from<S: Source>(alloc: Global, src: &mut S) -> Result<Unit, InputRefusal>
    ensures made { IfOk result IsWellMade }
    ensures size { IfOk result HasReadSize }
    ensures read { IsOfProgram result → WasRead (S.left src.old) (S.left src.new) result }

    // Of a source that tells its bytes: each answer is true, and where one is true, it is the answer, unless a read fails or
    // memory runs out.
    ensures answers { (bytes : List ℕ) → S.left src.old ≡ Some bytes → InputAnswers bytes result }
    ensures exact { (bytes : List ℕ) (answer : Result Program spec_refusal.ProgramRefusal) → S.left src.old ≡ Some bytes → length bytes ≤ most_bytes
        → Answers bytes answer → IsUnlessStopped result answer }

    ensures long { result ≡ Err InputRefusal.TooLong → IsLonger most_bytes (S.left src.old) }
    ensures fault { result ≡ Err InputRefusal.ReadFault → Rose (S.faults src.old) (S.faults src.new) }
    ensures never_falls { S.faults src.old ≤ S.faults src.new }

    // What was taken from the source: once more bytes came than a program may have, no more is asked.
    ensures budget { GaveAtMost (most_bytes + 1) (S.left src.old) (S.left src.new) }
    ensures stopped { result ≡ Err InputRefusal.TooLong → GaveCount (most_bytes + 1) (S.left src.old) (S.left src.new) }
    ensures failed { result ≡ Err InputRefusal.ReadFault → GaveAtMost most_bytes (S.left src.old) (S.left src.new) }
{
    let mut cutter = Cutter::new(alloc);
    match read_each(src, MOST_BYTES, &mut cutter) {
        Ok(()) => in_input(read_fed(alloc, cutter)),
        Err(ReadAnswer::TooLong) => Err(InputRefusal::TooLong),
        Err(ReadAnswer::ReadFault) => Err(InputRefusal::ReadFault),
        Err(ReadAnswer::Memory) => Err(InputRefusal::Memory),
    }
}
