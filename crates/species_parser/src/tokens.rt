//! The tokens of a whole text.
ghost use Rattle.std.specs.Prelude.{◌≡◌, ◌≤◌, length};
ghost use Rattle.species_ast.specs.Limits.{most_bytes};
ghost use Rattle.species_ast.specs.Text.Stream.{is_definition, stream_of};
ghost use Rattle.species_parser.specs.Listed.{GivesTokens};

use crate::refusal::ReadRefusal;
use species_lexer::{Token, TokenKind, Tokens};
use std::alloc::Global;

/// Whether the grammar does not see the token.
pub(crate) fn is_definition(kind: TokenKind) -> bool
    ensures { result ≡ is_definition kind }
{
    match kind {
        TokenKind::Define(_) => true,
        TokenKind::Name
        | TokenKind::Keyword
        | TokenKind::Punct
        | TokenKind::Number(_)
        | TokenKind::Include
        | TokenKind::Species
        | TokenKind::Parallel(_, _)
        | TokenKind::Atomic => false,
    }
}

/// The tokens that the grammar sees: all but the definitions.
pub(crate) fn grammar_tokens<'a>(
    alloc: Global,
    bytes: &'a [u8],
) -> Result<Vec<Token<'a>>, ReadRefusal>
    requires { length bytes.now ≤ most_bytes }
    ensures { GivesTokens result (stream_of bytes.now) }
{
    let mut left = Tokens::new(bytes);
    let mut tokens = Vec::new(alloc);
    while let Some(token) = left.next()? {
        if !is_definition(token.kind) {
            tokens.push(token)?;
        }
    }
    Ok(tokens)
}
