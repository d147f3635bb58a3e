//! The plan of a loop nest: how many of its loops run in parallel, and how its arrays are added to, or why
//! its first loop is sequential.
#![tactic(auto)]

mod bands;
mod counts;
mod decide;
mod locals;
mod plan;

pub use bands::Band;
pub use decide::Decision;
pub use plan::plan_nest;

#[cfg(test)]
mod tests;
