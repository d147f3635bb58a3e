//! What is true of plans and of the lines of planned nests.
#![tactic(auto)]

mod lines;
mod meetings;

pub use lines::law_lines;
pub use meetings::law_plans;
