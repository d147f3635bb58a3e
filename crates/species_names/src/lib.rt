//! What names mean where they stand, and what is refused of them.
//!
//! A `Place` says what each name means there. `Findings` keeps, of the refusals that are noted in it,
//! the one that is reported.
#![tactic(auto)]

mod finding;
mod findings;
mod iterators;
mod meaning;
mod place;
mod table;

pub use finding::{Finding, Limit, Refusal};
pub use findings::{Findings, Role};
pub use iterators::Iterators;
pub use meaning::{Local, Meaning};
pub use place::{Place, ScopeMark};
pub use table::Names;
