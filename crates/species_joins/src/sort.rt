//! The sorts of joins.

/// What is gathered in an array.
#[derive(Clone, Copy, Debug, PartialEq, Eq)]
pub enum Sort {
    /// The sum modulo 2 to the power of the width, of an unsigned kind.
    Sum,
    /// The least value, of a signed kind.
    Least,
    /// The greatest value, of a signed kind.
    Greatest,
}
