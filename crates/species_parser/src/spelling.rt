//! The spelling of a token, as the load counts it.
ghost use Rattle.std.specs.Prelude.{◌≡◌};
ghost use Rattle.species_ast.specs.Text.Load.{spelling_of, is_spelled};
ghost use Rattle.species_lexer.specs.Tokens.{seen_token};

use species_lexer::{Token, TokenKind};

/// The spelling of a keyword or punctuator, and nothing for other tokens.
fn spelling<'a>(token: &Token<'a>) -> &'a [u8]
    ensures { result.now ≡ spelling_of token.now.kind token.now.text.now }
{
    match token.kind {
        TokenKind::Keyword | TokenKind::Punct => token.text,
        TokenKind::Name
        | TokenKind::Number(_)
        | TokenKind::Include
        | TokenKind::Define(_)
        | TokenKind::Species
        | TokenKind::Parallel(_, _)
        | TokenKind::Atomic => b"",
    }
}

/// Whether a keyword or punctuator is spelled so.
pub(crate) fn is_spelled(token: &Token<'_>, text: &[u8]) -> bool
    ensures { result ≡ is_spelled (seen_token token.now) text.now }
{
    spelling(token) == text
}
