//! A large valid program that is made from a number, and the line that tells what became of it.
#![tactic(auto)]

mod counts;
mod nests;
mod words;

pub use counts::{Counts, summary};
pub use nests::program;

#[cfg(test)]
mod tests;
