//! The table of the arcs of a unit: each array reference of its loops, with the elements that it touches.
#![tactic(auto)]

mod heads;
mod lines;
mod unit;

pub use unit::table;

#[cfg(test)]
mod tests;
