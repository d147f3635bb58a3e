//! Lemmas on whole numbers that the crates above cite: products, sizes, divisors and bounds over a
//! range. They stand in `proofs/`, by topic, and there is nothing to run.
#![tactic(auto)]
