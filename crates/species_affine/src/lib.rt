//! The affine forms of expressions: a constant plus whole coefficients times iterators.
#![tactic(auto)]

mod dense;
mod subscript;

pub use subscript::{Subscript, constant_of, form_of};
