//! Arcs: the sets of array places that the references of a loop nest may touch in one iteration.
//!
//! An arc has one set of places in each dimension: equal distances apart, and moving with the iterators
//! in force. Its word names the shape of that set, and its domain is what the whole nest may touch. The
//! plan of a nest, which holds its arcs, is a type of this crate too, so that its text needs no crate
//! above. Laws of sets and domains for the crates above stand in `proofs/`.
#![tactic(auto)]

mod places;
mod plans;
mod shapes;
mod spans;

pub use places::{Arc, ArcDim, Dir, contains};
pub use plans::{Mode, Nest, Numbers, Reason};
pub use shapes::{Word, word_of};
pub use spans::Span;
