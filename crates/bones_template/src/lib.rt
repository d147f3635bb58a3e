//! Templates: texts with holes for the indentation, the species line, the collapse clause and the loop.
#![tactic(auto)]

mod hole;
mod template;

pub use hole::{Hole, Holes};
pub use template::{Template, TemplateRefusal, fill};

#[cfg(test)]
mod tests;
