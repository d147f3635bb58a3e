//! The commands that read a program, and what each of them writes.
ghost use Rattle.std.specs.Prelude.{◌≡◌, ℕ, List, IfOk, IfSome, MatchOption};
ghost use Rattle.species_ast.specs.Scope.WellMade.{IsWellMade};
ghost use Rattle.species_cli.specs.Commands.{command_for, IsLineOf, IsLawful};
ghost use Rattle.species_cli.specs.Texts.{IsProgram, IsTextOf};
ghost use Rattle.species_cli.specs.declared.command.ProgramCommand.TheVariants as program_command;

use species_annotate::annotate;
use species_ast::{OutOfMemory, Unit};
use species_plan_truth::law_lines;
use species_print::print;
use species_readback::law_marked_read_back;
use species_report::table;
use species_truth::law_table;
use species_words::{Command, read_words};
use std::alloc::Global;

/// A command that is built. Each reads a program.
#[derive(Clone, Copy)]
pub enum ProgramCommand {
    Arcs,
    Annotate,
}

/// The command, if it is built.
fn built(command: Command) -> Option<ProgramCommand>
    ensures { MatchOption result ((c : ProgramCommand) → command ≡ command_for c → ⊥) (λ c. command ≡ command_for c) }
{
    match command {
        Command::Arcs => Some(ProgramCommand::Arcs),
        Command::Annotate => Some(ProgramCommand::Annotate),
        Command::Compile => None,
        Command::Check => None,
        Command::Run { .. } => None,
        Command::Drill { .. } => None,
    }
}

/// The command that the words ask for, if it is built.
pub(crate) fn asked(words: &[String]) -> Option<ProgramCommand>
    ensures line { IfSome result (IsLineOf words.now) }
    ensures lawful { MatchOption result (IsLawful words.now → ⊥) (λ c. IsLawful words.now) }
{
    match read_words(words) {
        Ok(command) => built(command),
        Err(_) => None,
    }
}

/// The table of arcs, true in each run.
fn arcs_text(alloc: Global, unit: &Unit) -> Result<Vec<u8>, OutOfMemory>
    requires { IsWellMade unit.now }
    ensures { IfOk result (λ text. (bytes : List ℕ) → IsProgram bytes unit.now → IsTextOf program_command.Arcs unit.now text.items) }
{
    let text = table(alloc, unit)?;
    law_table();
    Ok(text)
}

/// The text with a species line at each planned loop, true in each run, and read back as it was written.
fn annotated_text(alloc: Global, unit: &Unit) -> Result<Vec<u8>, OutOfMemory>
    requires { IsWellMade unit.now }
    ensures { IfOk result (λ text. (bytes : List ℕ) → IsProgram bytes unit.now → IsTextOf program_command.Annotate unit.now text.items) }
{
    let lined = annotate(alloc, unit)?;
    let text = print(alloc, &lined)?;
    law_lines();
    law_marked_read_back();
    Ok(text)
}

/// What the command writes of a program.
pub(crate) fn text_of(
    alloc: Global,
    command: ProgramCommand,
    unit: &Unit,
) -> Result<Vec<u8>, OutOfMemory>
    requires { IsWellMade unit.now }
    ensures { IfOk result (λ text. (bytes : List ℕ) → IsProgram bytes unit.now → IsTextOf command unit.now text.items) }
{
    match command {
        ProgramCommand::Arcs => arcs_text(alloc, unit),
        ProgramCommand::Annotate => annotated_text(alloc, unit),
    }
}
