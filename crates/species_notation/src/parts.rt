//! The parts of a species text.

use crate::raw::{Natural, Spelling};

/// A part of a text, between blanks and comments.
#[derive(Drop)]
pub(crate) enum Part<'a> {
    /// A name or a word.
    Name(Spelling<'a>),
    Number(Natural),
    /// A sign of one byte.
    Sign(u8),
    /// `->`
    Arrow,
}
