//! The data of arrays as text: what is read of it, and what is written.
#![tactic(auto)]

mod element;
mod names;
mod read;
mod refusal;
mod rows;
mod words;
mod write;

pub use read::read_data;
pub use refusal::DataRefusal;
pub use write::write_data;

#[cfg(test)]
mod tests;
