//! The load of a list of tokens.
ghost use Rattle.std.specs.Prelude.{◌≡◌, ◌<◌, ◌^◌, IfOk};
ghost use Rattle.species_ast.specs.Text.Load.{no_load, load_refusal};
ghost use Rattle.species_lexer.specs.Tokens.{seen_token};

use crate::cursor::Cursor;
use crate::spelling::is_spelled;
use species_ast::MOST_LOAD;
use species_lexer::Token;
use std::alloc::{AllocError, Global};
use std::marker::Model;

/// The load, what it was behind each `{` that is not closed, and how many `(` are not closed.
/// Contracts see the load behind the last `{` first.
#[derive(Drop)]
struct Load {
    load: u32,
    blocks: Vec<u32>,
    brackets: usize,
}

impl Model for Load {
    ghost use Rattle.std.specs.Prelude.{reverse};
    ghost use Rattle.species_ast.specs.Text.Load as text;

    ghost Value = { text.Load };

    ghost view = { λ l. record { load = l.load; blocks = reverse l.blocks.items; brackets = l.brackets } };
}

impl Load {
    ghost use Rattle.std.specs.Prelude.{◌+◌, OnOk};
    ghost use Rattle.species_ast.specs.Text.Load.{counted, ends_statement, settled};

    fn new(alloc: Global) -> Load
        ensures { result ≡ no_load }
    {
        Load {
            load: 0,
            blocks: Vec::new(alloc),
            brackets: 0,
        }
    }

    /// Adds a token, and what it opens or closes.
    fn count(&mut self, token: &Token<'_>) -> Result<(), AllocError>
        requires { self.old.load + 1 < 2 ^ 32 }
        ensures { OnOk result (self.new ≡ counted (seen_token token.now) self.old) }
    {
        self.load += 1;
        if is_spelled(token, b"{") {
            self.blocks.push(self.load)?;
        } else if is_spelled(token, b"}") {
            self.blocks.pop();
        } else if is_spelled(token, b"(") {
            self.brackets = self.brackets.checked_add(1).ok_or(AllocError)?;
        } else if is_spelled(token, b")") {
            self.brackets = self.brackets.saturating_sub(1);
        }
        Ok(())
    }

    fn ends_statement(&self, token: &Token<'_>) -> bool
        ensures { result ≡ ends_statement (seen_token token.now) self.now }
    {
        is_spelled(token, b"}") || (is_spelled(token, b";") && self.brackets == 0)
    }

    /// Ends what a token that was counted ends.
    fn settle(&mut self, token: &Token<'_>, rest: &Cursor<'_, '_>)
        ensures { self.new ≡ settled (seen_token token.now) rest.now self.old }
    {
        if self.ends_statement(token) && !rest.is_at_else() {
            self.load = match self.blocks.last() {
                Some(load) => *load,
                None => 0,
            };
        }
    }
}

/// The place of the first token with which the load is above its limit.
pub(crate) fn load_refusal(alloc: Global, tokens: Cursor<'_, '_>) -> Result<Option<u32>, AllocError>
    ensures { IfOk result (λ place. place ≡ load_refusal tokens.entry) }
{
    let mut load = Load::new(alloc);
    let mut left = tokens;
    while let Some(token) = left.next() {
        load.count(&token)?;
        if load.load > MOST_LOAD {
            return Ok(Some(token.place));
        }
        load.settle(&token, &left);
    }
    Ok(None)
}
