//! The names that a text has defined so far.
ghost use Rattle.std.specs.Prelude.{◌≡◌, ◌-◌, ◌++◌, ◌∷◌, [], None, length, take, OnOk, OnErr};
ghost use Rattle.species_ast.specs.Text.Stream.{look_up};
ghost use Rattle.species_lexer.specs.Found.{kind_of};

use indexmap::IndexMap;
use species_ast::{OutOfMemory, TokenKind, Value};
use std::alloc::Global;
use std::marker::Model;

/// The literals that `#define` gave names. Contracts see the definitions in their order.
#[derive(Drop)]
pub(crate) struct Names {
    alloc: Global,
    literals: IndexMap<Vec<u8>, Value>,
}

impl Model for Names {
    ghost use Rattle.std.specs.Prelude.{List, map};
    ghost use Rattle.species_ast.specs.Text.Stream.{Definition};
    ghost use Rattle.species_lexer.specs.Cut.{definition_of};

    ghost Value = { List Definition };

    ghost view = { λ n. map definition_of n.literals.entries };
}

impl Names {
    /// No names.
    pub fn new(alloc: Global) -> Names
        ensures { result ≡ [] }
    {
        Names {
            alloc,
            literals: IndexMap::new(alloc),
        }
    }

    /// The literal of a name, if it is defined.
    pub fn literal(&self, name: &[u8]) -> Option<Value>
        ensures { result ≡ look_up self.now name.now }
    {
        self.literals.get(name).copied()
    }

    /// What a token is, where a name may be defined.
    pub fn kind_of(&self, text: &[u8], kind: TokenKind) -> TokenKind
        ensures { result ≡ kind_of (look_up self.now text.now) kind }
    {
        match kind {
            TokenKind::Name => match self.literal(text) {
                Some(value) => TokenKind::Number(value),
                None => TokenKind::Name,
            },
            _ => kind,
        }
    }

    /// Defines a new name.
    pub fn define(&mut self, name: &[u8], literal: Value) -> Result<(), OutOfMemory>
        requires { look_up self.old name.now ≡ None }
        ensures ok { OnOk result (self.new ≡ self.old ++ (record { name = name.now; literal = literal } ∷ [])) }
        ensures err { OnErr result (self.new ≡ self.old) }
    {
        let key = Vec::from_slice(self.alloc, name)?;
        self.literals.insert(key, literal)?;
        Ok(())
    }

    /// Takes the last definition back.
    pub fn forget_last(&mut self)
        ensures { self.new ≡ take (length self.old - 1) self.old }
    {
        self.literals.pop();
    }
}
