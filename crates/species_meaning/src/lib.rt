//! The run of a kernel from given arrays.
//!
//! Statements run in the order of the text over machine words: an iterator is found by its level, a local and an array by
//! their numbers. Nothing is kept of the accesses, and no memory is taken but for the frame.
#![tactic(auto)]

mod answer;
mod arrays;
mod expressions;
mod frame;
mod kinds;
mod places;
mod quick;
mod statements;

pub use answer::RunAnswer;
pub use arrays::Arrays;
pub use statements::run_source;

#[cfg(test)]
mod tests;
