//! The commands of the compiler: bytes in, bytes out, and a status.
#![tactic(auto)]

mod command;
mod refusal;
mod top;

pub use command::ProgramCommand;
pub use species_reading::{InputRefusal, ProgramRefusal, read_program, read_program_from};
pub use top::species;

#[cfg(test)]
mod tests;
