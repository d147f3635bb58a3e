//! What an iteration of a nest does, one step at a time.

use crate::tree::Value;

/// What one iteration of a nest does next. An element is named by its array's number and its place
/// in row order.
#[derive(Clone, Copy, Debug, PartialEq, Eq)]
pub enum Action {
    Read { array: u32, at: u32 },
    Write { array: u32, at: u32, value: Value },
    /// An atomic addition of the value.
    Add { array: u32, at: u32, value: Value },
    /// The iteration is over.
    Done,
    /// The iteration is undefined, or does what no iteration may.
    Fault,
}
