//! The next token as the load counts it.
ghost use Rattle.std.specs.Prelude.{◌≡◌};
ghost use Rattle.species_ast.specs.Text.Load.{is_else_next};
ghost use Rattle.species_lexer.specs.Entries.{Moves};

use super::Cursor;
use crate::spelling::is_spelled;
use species_lexer::Token;

impl<'t, 'a> Cursor<'t, 'a> {
    /// The next token, or none at the end.
    pub(crate) fn next(&mut self) -> Option<Token<'a>>
        ensures { Moves result self.old self.new }
    {
        let next = self.first;
        match next {
            Some(first) => {
                self.first = self.left.next();
                Some(first)
            }
            None => None,
        }
    }

    /// Whether an `else` stands next.
    pub(crate) fn is_at_else(&self) -> bool
        ensures { result ≡ is_else_next self.now }
    {
        match self.first {
            Some(first) => is_spelled(&first, b"else"),
            None => false,
        }
    }
}
