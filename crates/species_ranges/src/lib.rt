//! The ranges of the loops of a nest, in the order of the text.
#![tactic(auto)]

mod law;
mod ranges;

pub use law::law_fits;
pub use ranges::{nest_ranges, path_of};
