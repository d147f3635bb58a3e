//! The call that the program makes.
ghost use Rattle.std.specs.Prelude.{◌≡◌, ◌≢◌, ◌⊎◌, ◌≤◌, ◌+◌, ℕ, List, Some};
ghost use Rattle.species_ast.specs.Limits.{most_bytes};
ghost use Rattle.species_ast.specs.declared.tree.Unit.{Unit as Program};
ghost use Rattle.species_io.specs.Told.{Rose, then_bytes, AtEnd, GaveAtMost, GaveCount, TookPart};
ghost use Rattle.species_reading.specs.declared.refusal.InputRefusal.TheVariants as input_refusal;
ghost use Rattle.species_cli.specs.Statuses.{status_answered, status_refused, status_usage, status_undefined, status_read_fault, status_write_fault, status_memory};
ghost use Rattle.species_cli.specs.Refusals.{too_long_line};
ghost use Rattle.species_cli.specs.Commands.{IsLawful};
ghost use Rattle.species_cli.specs.Texts.{IsProgram};
ghost use Rattle.species_cli.specs.Answer.{IsAnswer, Gave, sunk, IsAnswered, IsCutText, IsCutLine, IsSaid};

use crate::command::{asked, text_of};
use crate::refusal::line_of;
use species_io::{Sink, Source, write_all};
use species_reading::{InputRefusal, read_program_from};
use std::alloc::Global;

const ANSWERED: u8 = 0;

const REFUSED: u8 = 1;

const USAGE: u8 = 2;

const READ_FAULT: u8 = 4;

const WRITE_FAULT: u8 = 5;

const MEMORY: u8 = 6;

/// The status, or that of a fault where its line could not be written.
fn say<N: Sink>(notes: &mut N, line: &[u8], status: u8) -> u8
    requires { status ≢ status_write_fault }
    ensures status { (result ≡ status) ⊎ (result ≡ status_write_fault) }
    ensures whole { result ≢ status_write_fault → N.taken notes.new ≡ then_bytes (N.taken notes.old) line.now }
    ensures part { result ≡ status_write_fault → TookPart (N.taken notes.old) (N.taken notes.new) line.now }
    ensures fault { result ≡ status_write_fault → Rose (N.faults notes.old) (N.faults notes.new) }
{
    match write_all(notes, line) {
        Ok(()) => status,
        Err(_) => WRITE_FAULT,
    }
}

/// Says why an input is not read.
fn refuse<N: Sink>(alloc: Global, notes: &mut N, refusal: InputRefusal) -> u8
    ensures statuses { (result ≡ status_refused) ⊎ ((result ≡ status_read_fault) ⊎ ((result ≡ status_write_fault) ⊎ (result ≡ status_memory))) }
    ensures said { result ≢ status_write_fault → result ≢ status_memory → (line : List ℕ) × IsSaid refusal result line × (N.taken notes.new ≡ then_bytes (N.taken notes.old) line) }
    ensures silent { result ≡ status_memory → notes.new ≡ notes.old }
    ensures memory { refusal ≡ input_refusal.Memory → result ≡ status_memory }
    ensures part { result ≡ status_write_fault → (status : ℕ) × (line : List ℕ) × IsSaid refusal status line × TookPart (N.taken notes.old) (N.taken notes.new) line }
    ensures fault { result ≡ status_write_fault → Rose (N.faults notes.old) (N.faults notes.new) }
{
    match refusal {
        InputRefusal::ReadFault => say(notes, b"read fault\n", READ_FAULT),
        InputRefusal::TooLong => say(notes, b"refused 18 TooLong at 4194304\n", REFUSED),
        InputRefusal::Program(program) => match line_of(alloc, program) {
            Ok(line) => say(notes, &line, REFUSED),
            Err(_) => MEMORY,
        },
        InputRefusal::Memory => MEMORY,
    }
}

/// Does what the words ask for, and answers the status of the program.
///
/// | Status | When |
/// |---|---|
/// | 0 | the answer was written to `output` |
/// | 1 | the input is refused, for the reason on `notes` |
/// | 2 | the words ask for no command that is built |
/// | 4 | a read failed |
/// | 5 | a write failed |
/// | 6 | memory ran out, of which no clause says when |
///
/// The answer is built whole before the first byte of it is written.
pub fn species<S: Source, K: Sink, N: Sink>(
    alloc: Global,
    words: &[String],
    input: &mut S,
    output: &mut K,
    notes: &mut N,
) -> u8
    ensures statuses { (result ≤ status_memory) × (result ≢ status_undefined) }

    // What the sinks took is the answer to the words and to the bytes that came. With status 0 this is the text that the command writes
    // of the program that was read, and each line in it is true in each run.
    ensures answered { result ≢ status_write_fault → result ≢ status_memory → (bytes : List ℕ) × Gave bytes (S.left input.old) (S.left input.new)
        × IsAnswered words.now (Rose (S.faults input.old) (S.faults input.new)) bytes result (sunk (K.taken output.old) (N.taken notes.old)) (sunk (K.taken output.new) (N.taken notes.new)) }

    // Any other status than 0 leaves the output as it was, and status 0 and want of memory the notes.
    ensures untouched { result ≢ status_answered → result ≢ status_write_fault → output.new ≡ output.old }
    ensures silent { (result ≡ status_answered) ⊎ (result ≡ status_memory) → notes.new ≡ notes.old }

    // Status 5: a write failed before the last byte of an answer, and the other sink is as it was.
    ensures cut_short { result ≡ status_write_fault → (bytes : List ℕ) × Gave bytes (S.left input.old) (S.left input.new)
        × ((IsCutText words.now (Rose (S.faults input.old) (S.faults input.new)) bytes (K.taken output.old) (K.taken output.new)
        × Rose (K.faults output.old) (K.faults output.new) × (notes.new ≡ notes.old))
        ⊎ (IsCutLine words.now (Rose (S.faults input.old) (S.faults input.new)) bytes (N.taken notes.old) (N.taken notes.new)
        × Rose (N.faults notes.old) (N.faults notes.new) × (output.new ≡ output.old))) }

    // With lawful words the input was then read to its end, is too long, or a read failed.
    ensures cut_read_all { result ≡ status_write_fault → IsLawful words.now → AtEnd (S.left input.new)
        ⊎ (GaveCount (most_bytes + 1) (S.left input.old) (S.left input.new) ⊎ Rose (S.faults input.old) (S.faults input.new)) }

    // Words that are not lawful: nothing is read, and there is memory enough.
    ensures unread { (IsLawful words.now → ⊥) → input.new ≡ input.old }
    ensures unlawful { (IsLawful words.now → ⊥) → (result ≡ status_usage) ⊎ (result ≡ status_write_fault) }

    // The input was read to its end, unless it is too long. Once more bytes than the limit came, no more is asked.
    ensures read_all { result ≡ status_answered → AtEnd (S.left input.new) }
    ensures refused_read_all { result ≡ status_refused → AtEnd (S.left input.new)
        ⊎ (GaveCount (most_bytes + 1) (S.left input.old) (S.left input.new) × (N.taken notes.new ≡ then_bytes (N.taken notes.old) too_long_line)) }
    ensures budget { GaveAtMost (most_bytes + 1) (S.left input.old) (S.left input.new) }
    ensures failed { result ≡ status_read_fault → GaveAtMost most_bytes (S.left input.old) (S.left input.new) }

    // Where no count of faults rose, an answer to the bytes is given, or there was not enough memory.
    ensures exact { (bytes : List ℕ) (status : ℕ) (text line : List ℕ) → S.left input.old ≡ Some bytes → IsAnswer words.now ⊥ bytes status text line
        → (Rose (S.faults input.old) (S.faults input.new) → ⊥) → (Rose (K.faults output.old) (K.faults output.new) → ⊥) → (Rose (N.faults notes.old) (N.faults notes.new) → ⊥)
        → (result ≡ status) ⊎ (result ≡ status_memory) }

    // So each lawful program is answered, or there was not enough memory.
    ensures complete { (bytes : List ℕ) (program : Program) → S.left input.old ≡ Some bytes → IsLawful words.now → IsProgram bytes program
        → (Rose (S.faults input.old) (S.faults input.new) → ⊥) → (Rose (K.faults output.old) (K.faults output.new) → ⊥) → (Rose (N.faults notes.old) (N.faults notes.new) → ⊥)
        → (result ≡ status_answered) ⊎ (result ≡ status_memory) }
{
    let Some(command) = asked(words) else {
        return say(
            notes,
            b"usage: species arcs|annotate|compile|check|run [--trace]|drill --nests N --from F\n",
            USAGE,
        );
    };
    let unit = match read_program_from(alloc, input) {
        Ok(unit) => unit,
        Err(refusal) => return refuse(alloc, notes, refusal),
    };
    let text = match text_of(alloc, command, &unit) {
        Ok(text) => text,
        Err(_) => return MEMORY,
    };
    match write_all(output, &text) {
        Ok(()) => ANSWERED,
        Err(_) => WRITE_FAULT,
    }
}
