//! The program `species`: the words of the command line, standard input, standard output and standard
//! error, and the status of the top call.
#![tactic(auto)]

use species_cli::species;
use species_io::{StdSink, StdSource};
use std::alloc::{AllocError, Global};
use std::env::{Env, FillError};
use std::process::ExitCode;

/// The status where the words could not be made for want of memory.
const MEMORY: u8 = 6;

/// The longest word that is looked at. No command has a longer one.
const LONGEST_WORD: usize = 256;

/// The word that these bytes spell, or an empty one where they are no text.
fn word(alloc: Global, bytes: &[u8]) -> Result<String, AllocError> {
    String::from_str(alloc, std::str::from_utf8(bytes).unwrap_or(""))
}

/// The words of the command line. One that is too long for a word of any command is handed on as an
/// empty word, which is none of them either.
fn words<E: Env>(env: &E, alloc: Global) -> Result<Vec<String>, AllocError> {
    let mut words = Vec::new(alloc);
    let mut buffer = [0u8; LONGEST_WORD];
    for number in 0..usize::MAX {
        let length = match env.arg(number, &mut buffer) {
            Ok(length) => length,
            Err(FillError::TooLong) => 0,
            Err(FillError::NotPresent) => break,
        };
        words.push(word(alloc, &buffer[..length])?)?;
    }
    Ok(words)
}

fn main(rt: HostRuntime) -> ExitCode {
    let status = match words(&rt, rt.alloc()) {
        Ok(words) => species(
            rt.alloc(),
            &words,
            &mut StdSource::new(rt.stdin()),
            &mut StdSink::new(rt.stdout()),
            &mut StdSink::new(rt.stderr()),
        ),
        Err(_) => MEMORY,
    };
    ExitCode::from(status)
}
