//! Scope resolution: the unit of a lawful program, or why a program is refused.
//!
//! A first walk finds the locals that loops have as their iterators. A second builds the unit and keeps, of all that is refused
//! of names, bounds, sizes and steps, what is reported. What is built is then looked at for limits, marks and references.
#![tactic(auto)]

mod builder;
mod changes;
mod expressions;
mod forms;
mod gathers;
mod globals;
mod headers;
mod references;
mod refusal;
mod statements;
mod units;

pub use refusal::ScopeRefusal;
pub use species_names::Limit;
pub use units::resolve;
