//! A token of a program.
use species_ast::TokenKind;

/// A token of a program. `place` is the byte offset of its first byte, for a directive that of its
/// `#`. `text` is a slice of the program: the token's own bytes; of a `#define` the name, of an
/// `#include` the header and the brackets or quotes round it, of a species line the text, and of a pragma of
/// OpenMP the whole line.
#[derive(Clone, Copy)]
pub struct Token<'a> {
    pub place: u32,
    pub text: &'a [u8],
    pub kind: TokenKind,
}
