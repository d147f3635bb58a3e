//! Bytes in and bytes out: sources and sinks that count their faults.
//!
//! A source or a sink may tell which bytes it holds, or nothing; the calls over them promise the
//! same of both, in so far as the bytes are told.
#![tactic(auto)]

mod memory;
mod piecewise;
mod sink;
mod source;
mod standard;
#[cfg(test)]
mod tests;
mod whole;

pub use memory::{MemSink, MemSource};
pub use piecewise::Piecewise;
pub use sink::Sink;
pub use source::{Failed, Source};
pub use standard::{StdSink, StdSource};
pub use whole::{ReadAnswer, read_each, read_whole, write_all};
