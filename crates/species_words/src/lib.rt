//! The words of the command line, and the command that they ask for.
#![tactic(auto)]

ghost use Rattle.std.specs.Prelude.{◌≡◌, ◌↔◌, ℕ, Some, IfOk, IsErr};
ghost use Rattle.species_words.specs.CommandLines.{IsCommandLine, texts};
ghost use Rattle.species_words.specs.Reading.{last, run, numbered, settings, drill, command_of};

use species_decimal::read_decimal;

/// What the words ask for.
#[derive(Clone, Copy, Debug, PartialEq, Eq)]
pub enum Command {
    Arcs,
    Annotate,
    Compile,
    Check,
    Run { trace: bool },
    Drill { nests: u32, from: u32 },
}

/// The words are no lawful command line.
#[derive(Clone, Copy, Debug, PartialEq, Eq)]
pub struct Usage;

/// The command of a command line. The first word, which names the program, may be any.
pub fn read_words(words: &[String]) -> Result<Command, Usage>
    ensures command { (c : Command) → (result ≡ Ok c) ↔ IsCommandLine words.now c }
    ensures usage { IsErr result ↔ ((c : Command) → ¬ IsCommandLine words.now c) }
{
    let Some((_, words)) = words.split_first() else {
        return Err(Usage);
    };
    command_of(words).ok_or(Usage)
}

fn command_of(words: &[String]) -> Option<Command>
    ensures { result ≡ command_of (texts words.now) }
{
    let (word, words) = words.split_first()?;
    match word.as_str() {
        "arcs" => last(Command::Arcs, words),
        "annotate" => last(Command::Annotate, words),
        "compile" => last(Command::Compile, words),
        "check" => last(Command::Check, words),
        "run" => run(words),
        "drill" => drill(words),
        _ => None,
    }
}

/// The command, if no word is left.
fn last(command: Command, words: &[String]) -> Option<Command>
    ensures { result ≡ last command (texts words.now) }
{
    if words.is_empty() {
        Some(command)
    } else {
        None
    }
}

fn run(words: &[String]) -> Option<Command>
    ensures { result ≡ run (texts words.now) }
{
    match words.split_first() {
        None => Some(Command::Run { trace: false }),
        Some((word, words)) if word.as_str() == "--trace" => {
            last(Command::Run { trace: true }, words)
        }
        Some(_) => None,
    }
}

fn drill(words: &[String]) -> Option<Command>
    ensures { result ≡ drill (texts words.now) }
{
    let [first, a, second, b] = words else {
        return None;
    };
    settings(first.as_str(), a.as_str(), second.as_str(), b.as_str())
}

fn settings(first: &str, a: &str, second: &str, b: &str) -> Option<Command>
    ensures { result ≡ settings first.now a.now second.now b.now }
{
    if first == "--nests" && second == "--from" {
        numbered(a, b)
    } else if first == "--from" && second == "--nests" {
        numbered(b, a)
    } else {
        None
    }
}

fn numbered(nests: &str, from: &str) -> Option<Command>
    ensures { result ≡ numbered nests.now from.now }
{
    let nests = read_decimal(nests.as_bytes(), 10_000)? as u32;
    let from = read_decimal(from.as_bytes(), 4_294_967_295)? as u32;
    if nests > 0 {
        Some(Command::Drill { nests, from })
    } else {
        None
    }
}

#[cfg(test)]
mod tests;
