//! The canonical text of a kernel: one layout for each tree, with brackets only where C needs them.
//!
//! The text of a unit that was read is the spelling of a list of tokens with fixed blanks between them.
//! A negative literal, which no program can spell, is written as the negation of its size.
#![tactic(auto)]

mod expressions;
mod statements;
mod units;
mod words;

pub use statements::{print_head, print_loop, print_stmt};
pub use units::{print, print_front};

#[cfg(test)]
mod tests;
