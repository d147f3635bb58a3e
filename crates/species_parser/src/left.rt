//! Where a cursor takes its tokens from.
ghost use Rattle.std.specs.Prelude.{◌≡◌};
ghost use Rattle.species_ast.specs.Text.Stream.{grammar_tokens};
ghost use Rattle.species_parser.specs.Given.{seen_tokens};
ghost use Rattle.species_parser.specs.Front.{before};

use crate::tokens::is_definition;
use species_lexer::{TableTokens, Token};

/// The tokens behind the one at hand.
#[derive(Drop)]
pub(crate) enum Left<'t, 'a> {
    /// Those of a list.
    Listed(&'t [Token<'a>]),
    /// Those of a table that the grammar sees: all but the definitions.
    Table(TableTokens<'a>),
}

/// The next token of a list.
fn next_listed<'t, 'a>(tokens: &mut &'t [Token<'a>]) -> Option<Token<'a>>
    ensures { before result (seen_tokens tokens.new.now) ≡ seen_tokens tokens.old.now }
{
    match *tokens {
        [first, rest @ ..] => {
            *tokens = rest;
            Some(*first)
        }
        [] => None,
    }
}

/// The next token of a table that is no definition.
fn next_in_table<'a>(tokens: &mut TableTokens<'a>) -> Option<Token<'a>>
    ensures { before result (grammar_tokens tokens.new) ≡ grammar_tokens tokens.old }
{
    while let Some(token) = tokens.next() {
        if !is_definition(token.kind) {
            return Some(token);
        }
    }
    None
}

impl<'t, 'a> Left<'t, 'a> {
    ghost use Rattle.species_parser.specs.Left.{seen_left};

    /// The next token, or none at the end.
    pub(crate) fn next(&mut self) -> Option<Token<'a>>
        ensures { before result (seen_left self.new) ≡ seen_left self.old }
    {
        match self {
            Left::Listed(tokens) => next_listed(tokens),
            Left::Table(tokens) => next_in_table(tokens),
        }
    }
}
