//! Why the iterations of a nest may run in any order: where they are apart, every interleaving ends in the arrays of the run.
#![tactic(auto)]

mod laws;
mod swap;

pub use laws::{
    law_end, law_joined, law_joined_loops, law_orders, law_plays, law_sorts, law_step, law_swap,
};
pub use swap::apply_both;
