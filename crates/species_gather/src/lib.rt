//! What a parallel nest may gather in its arrays: joins whose order does not matter, and the arrays that take sums.
#![tactic(auto)]

mod gather;
mod summed;

pub use gather::{Gather, Greatest, Greatest64, Least, Least64, WrapAdd, WrapAdd64, join_of};
pub use species_joins::Sort;
pub use summed::sum_arrays;

#[cfg(test)]
mod tests;
