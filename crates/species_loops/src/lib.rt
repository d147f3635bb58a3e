//! Loops: the ranges of their iterators, the limits on their bounds, perfectly nested loops, and how many turns a unit takes.
//!
//! The bounds of a loop are evaluated as they are written, a level at a time, so that no form is built.
#![tactic(auto)]

mod bound;
mod front;
mod header;
mod line;
mod magnitude;
mod path;
mod weigh;

pub use front::{is_band, perfect_depth};
pub use header::{Header, bounds_fit, range_of};
pub use magnitude::passes_bound;
pub use path::Path;
pub use weigh::weight;

#[cfg(test)]
mod tests;
