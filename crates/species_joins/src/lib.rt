//! The joins that a parallel nest may gather by: sums of unsigned kinds, least and greatest values of signed ones.
#![tactic(auto)]

mod sort;

pub use sort::Sort;
