//! Reading a whole program.

ghost use Rattle.std.specs.Prelude.{◌≤◌, ℕ, List, Result, length, IfOk};
ghost use Rattle.species_ast.specs.Limits.{most_bytes};
ghost use Rattle.species_ast.specs.Reading.{IsAccepted};
ghost use Rattle.species_ast.specs.declared.tree.Unit.{Unit as Program};
ghost use Rattle.species_ast.specs.Scope.References.{HasReadSize};
ghost use Rattle.species_ast.specs.Scope.WellMade.{IsWellMade};
ghost use Rattle.species_ast.specs.Scope.Written.{IsWritten};
ghost use Rattle.species_reading.specs.declared.refusal.ProgramRefusal as spec_refusal;
ghost use Rattle.species_reading.specs.Answers.{Answers, IsUnlessMemory};

use crate::refusal::{ProgramRefusal, of_scope, of_text};
use species_ast::{RawUnit, Unit};
use species_parser::parse;
use species_scope::resolve;
use std::alloc::Global;

/// What a raw tree becomes.
pub(crate) fn resolved(alloc: Global, raw: &RawUnit) -> Result<Unit, ProgramRefusal>
    requires { IsWritten raw.now }
    ensures answers { (text : List ℕ) → IsAccepted text raw.now → Answers text result }
    ensures made { IfOk result IsWellMade }
    ensures size { IfOk result HasReadSize }
{
    match resolve(alloc, raw) {
        Ok(unit) => Ok(unit),
        Err(refusal) => Err(of_scope(refusal)),
    }
}

/// What `read_program` answers.
fn read(alloc: Global, bytes: &[u8]) -> Result<Unit, ProgramRefusal>
    requires { length bytes.now ≤ most_bytes }
    ensures answers { Answers bytes.now result }
    ensures made { IfOk result IsWellMade }
    ensures size { IfOk result HasReadSize }
{
    match parse(alloc, bytes) {
        Ok(raw) => resolved(alloc, &raw),
        Err(refusal) => Err(of_text(refusal)),
    }
}

/// The unit of a lawful program, or the first refusal of any other: those of its text come before those of its names.
pub fn read_program(alloc: Global, bytes: &[u8]) -> Result<Unit, ProgramRefusal>
    requires { length bytes.now ≤ most_bytes }
    ensures answers { Answers bytes.now result }
    ensures made { IfOk result IsWellMade }
    ensures size { IfOk result HasReadSize }

    // Where one of them is true, it is the answer, unless memory runs out.
    ensures exact { (answer : Result Program spec_refusal.ProgramRefusal) → Answers bytes.now answer → IsUnlessMemory result answer }
{
    read(alloc, bytes)
}
