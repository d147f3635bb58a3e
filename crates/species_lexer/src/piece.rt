//! What can stand at the front of a text.
use crate::fault::Fault;
use species_ast::{TokenKind, Value};

/// What stands at the front of some bytes; the number is how many bytes it has.
#[derive(Clone, Copy)]
pub(crate) enum Piece<'a> {
    /// A blank, a comment, or a directive that is skipped.
    Space(usize),
    /// A token, by its text and what it is, if it is no name that was defined.
    Lexeme(usize, &'a [u8], TokenKind),
    /// A `#define`, by its name, if it is the first of the name: its value, or why it is refused.
    Define(usize, &'a [u8], Result<Value, Fault>),
    Refused(Fault),
}
