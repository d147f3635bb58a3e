//! Affine forms over iterators, and their least and greatest value over a box of loop ranges.
//!
//! A form adds integer multiples of iterators to a constant. Iterators go by the level of their loop,
//! which is 0 for the outermost one and 1 more for each loop inside. Laws of forms for the crates above
//! (linearity, separate parts, levels that a form does not name) stand in `proofs/`.
#![tactic(auto)]

mod corners;
mod forms;
mod loops;

pub use corners::{greatest, least};
pub use forms::{Form, Term, Terms, value};
pub use loops::{Direction, LoopRange, Ranges};

#[cfg(test)]
mod tests;
