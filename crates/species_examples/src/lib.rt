//! Worked examples of the definitions of `species_ast`: texts and their tokens, derivations, what
//! programs become or why they are refused, ranges of loops, operators, and runs.
//!
//! Each is a theorem by computation, with an answer that was worked out by hand. Nothing here runs.
#![tactic(auto)]
