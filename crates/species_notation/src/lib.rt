//! Species lines: the text of the arcs of a nest, written and read.
#![tactic(auto)]

mod cursor;
mod given;
mod law;
mod line;
mod meaning;
mod parts;
mod raw;
mod reading;
mod refusal;
mod scan;
mod sums;
mod table;
mod writing;

pub use given::{GivenArc, GivenDim, Names, SpeciesLine};
pub use law::{law_notation, law_table_lines};
pub use line::read_line;
pub use refusal::NotationRefusal;
pub use table::write_table_line;
pub use writing::{write_arc, write_line};

#[cfg(test)]
mod tests;
