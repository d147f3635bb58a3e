//! Laws of runs: what holds of every access of a statement, of what it leaves of the frame and of
//! the arrays, and of the values of an iterator.
//!
//! The definitions of a run stand in `species_ast`. Nothing here runs.
#![tactic(auto)]
