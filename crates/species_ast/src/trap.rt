//! Why an operator has no value, and why a run is undefined.

/// Why an operator has no value (C17 6.5).
#[derive(Clone, Copy, Debug, PartialEq, Eq)]
pub enum Undefined {
    /// The exact result is no number of its signed kind.
    Overflow,
    /// The right side of `/` or `%` is 0.
    DivZero,
    /// A shift by a count outside the width, or a left shift of a negative number.
    BadShift,
}

/// Why the run of a program is undefined.
#[derive(Clone, Copy, Debug, PartialEq, Eq)]
pub enum Trap {
    Overflow,
    DivZero,
    BadShift,
    /// A subscript lies outside the size of its dimension.
    Index,
    /// A local is read that has no value.
    Unset,
}
