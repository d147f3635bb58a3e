//! The truth of the table of arcs.
#![tactic(auto)]

mod law;

pub use law::law_table;
