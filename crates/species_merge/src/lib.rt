//! Merging the references of a loop nest into arcs.
#![tactic(auto)]

mod arcs;
mod bands;
mod bounds;
mod classes;
mod exact;
mod hulls;
mod law;
mod stretches;

pub use arcs::merge;
pub use bands::BandBound;
pub use bounds::bound_of;
pub use hulls::hull;
pub use law::law_merge;
pub use stretches::covers;

#[cfg(test)]
mod tests;
