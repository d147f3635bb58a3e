//! The actions of an iteration of a parallel nest, one by one, over machine words.
//!
//! An iteration is walked from its beginning each time: so many actions are passed, whose reads are given the answers, and the
//! next is told. Nothing is kept of it in between.
#![tactic(auto)]

mod arrays;
mod expressions;
mod frame;
mod kinds;
mod laws;
mod locals;
mod next;
mod places;
mod statements;
mod tape;

pub use arrays::apply;
pub use frame::Frame;
pub use laws::law_actions;
pub use next::action_at;

#[cfg(test)]
mod tests;
