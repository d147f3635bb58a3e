//! The tokens of a text, one at a time and without memory.
ghost use Rattle.std.specs.Prelude.{◌≡◌, ◌≤◌, ◌+◌, length};
ghost use Rattle.species_ast.specs.Limits.{most_bytes};
ghost use Rattle.species_ast.specs.Text.Stream.{stream_of};

use crate::scan::next_token;
use crate::token::Token;
use species_ast::LexRefusal;
use std::marker::Model;

/// A cursor over the tokens of a program. Contracts see it as the tokens that are left, and how they
/// end: with the program, or with a refusal.
#[derive(Drop)]
pub struct Tokens<'a> {
    text: &'a [u8],
    at: usize,
    is_head: bool,
    /// The place behind the last `#define`, 0 if there is none: names are looked up only before it.
    defined: usize,
}

impl<'a> Model for Tokens<'a> {
    ghost use Rattle.std.specs.Prelude.{◌≤◌, length};
    ghost use Rattle.species_ast.specs.Text.Stream.{TokenStream};
    ghost use Rattle.species_lexer.specs.Cursor.{stream_at, IsCursor};

    ghost Value = { TokenStream };

    ghost view = { λ t. stream_at t.text.now t.at };

    ghost invariant = { λ t. IsCursor t.text.now t.at t.is_head t.defined };
}

impl<'a> Tokens<'a> {
    ghost use Rattle.species_lexer.specs.Tokens.{Gives};

    /// The tokens of a program.
    pub fn new(bytes: &'a [u8]) -> Tokens<'a>
        requires { length bytes.now ≤ most_bytes }
        ensures { result ≡ stream_of bytes.now }
    {
        Tokens {
            text: bytes,
            at: 0,
            is_head: true,
            defined: 0,
        }
    }

    /// The next token, or none at the end of the program. A refusal comes again at each later call.
    ///
    /// The definition of a name is found by going again through the text up to the last `#define`
    /// before it.
    pub fn next(&mut self) -> Result<Option<Token<'a>>, LexRefusal>
        ensures { Gives result self.old self.new }
    {
        match next_token(self.text, self.at, self.is_head, self.defined) {
            Err(refusal) => Err(refusal),
            Ok(None) => Ok(None),
            Ok(Some(step)) => {
                self.at = step.at;
                self.is_head = false;
                self.defined = step.defined;
                Ok(Some(step.token))
            }
        }
    }
}
