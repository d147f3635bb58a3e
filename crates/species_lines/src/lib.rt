//! What arcs of references say of a nest in a run.
//!
//! Nothing here runs.
#![tactic(auto)]

mod law;

pub use law::law_lines;
