//! Reading a program: its text, then its names.
#![tactic(auto)]

mod input;
mod program;
mod refusal;

pub use input::read_program_from;
pub use program::read_program;
pub use refusal::{InputRefusal, ProgramRefusal};
pub use species_scope::{Limit, ScopeRefusal};

#[cfg(test)]
mod tests;
