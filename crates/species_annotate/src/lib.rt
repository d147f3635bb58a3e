//! A unit with the species line of each planned nest.
#![tactic(auto)]

mod lines;
mod loops;
mod unit;

pub use unit::annotate;

#[cfg(test)]
mod tests;
