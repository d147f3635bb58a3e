//! The limits of programs, and the parallel marks that do not fit: what is refused of a unit that is built.
//!
//! Each call notes in `Findings` what the definitions find of the arrays and loops of a unit, whether it is lawful
//! otherwise or not.
#![tactic(auto)]

mod arrays;
mod limit;
mod walk;

pub use arrays::note_arrays;
pub use limit::first_limit;
pub use walk::note_loops;
