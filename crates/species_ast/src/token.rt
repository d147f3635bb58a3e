//! What tokens are, and why a text has none.

use crate::tree::{Schedule, Value};

/// What a token is. A directive that the compiler reads is one token, as an `#include` line or a
/// pragma of OpenMP, whose text is its whole line; a name that a `#define` gave a literal is the number of that literal.
#[derive(Clone, Copy, Debug, PartialEq, Eq)]
pub enum TokenKind {
    Name,
    Keyword,
    Punct,
    Number(Value),
    Include,
    Define(Value),
    Species,
    Parallel(u32, Schedule),
    Atomic,
}

/// Why a text has no tokens from some place on: the first thing in it that is no token, blank or
/// comment of the language. Each has its place.
#[derive(Clone, Copy, Debug, PartialEq, Eq)]
pub enum LexRefusal {
    /// No token begins at this byte, the directive whose `#` stands here has no form, or this is a
    /// backslash that may not stand here.
    BadByte(u32),
    /// The number that begins here is no literal of the language.
    BadNumber(u32),
    /// The comment whose `/*` stands here has no end.
    OpenComment(u32),
}
