//! The tokens of a text, kept tightly and with no borrow of the text.
ghost use Rattle.std.specs.Prelude.{◌≡◌, ◌≤◌, ◌<◌, ◌^◌, ◌+◌, ◌++◌, ◌∷◌, [], length, vec_len, vec_capacity, IfOk, OnOk, OnErr};
ghost use Rattle.species_lexer.specs.Tokens.{seen_token};
ghost use Rattle.species_lexer.specs.Entries.{class_of, others_of, kind_in, others_behind};

use crate::slices::{behind, front};
use crate::token::Token;
use species_ast::{OutOfMemory, TokenKind};
use std::alloc::Global;
use std::marker::Model;

/// What a token is, where that is no more than one of these.
#[derive(Clone, Copy, Debug, PartialEq, Eq)]
pub(crate) enum Class {
    Name,
    Keyword,
    Punct,
    /// What stands next in the list of the other kinds.
    Other,
}

/// A token's place, and how many bytes its text has.
#[derive(Clone, Copy)]
pub(crate) struct Entry {
    pub place: u32,
    pub size: u32,
    pub class: Class,
}

fn class_of(kind: TokenKind) -> Class
    ensures { result ≡ class_of kind }
{
    match kind {
        TokenKind::Name => Class::Name,
        TokenKind::Keyword => Class::Keyword,
        TokenKind::Punct => Class::Punct,
        _ => Class::Other,
    }
}

/// A text's size as a table keeps it. No memory is found for a larger one.
fn size_of(text: &[u8]) -> Result<u32, OutOfMemory>
    ensures { IfOk result (λ n. n ≡ length text.now) }
{
    match u32::try_from(text.len()) {
        Ok(size) => Ok(size),
        Err(_) => Err(OutOfMemory),
    }
}

/// Appends the kind of a token whose class says too little.
fn keep_other(others: &mut Vec<TokenKind>, kind: TokenKind)
    requires { vec_len others.old + 1 ≤ vec_capacity others.old }
    ensures { others.new.items ≡ others.old.items ++ others_of kind }
{
    match kind {
        TokenKind::Name | TokenKind::Keyword | TokenKind::Punct => {}
        _ => others.push(kind).unwrap(),
    }
}

/// The tokens of a text, and how many bytes the text has. Contracts see it so.
#[derive(Drop)]
pub struct TokenTable {
    entries: Vec<Entry>,
    /// The texts of the tokens, one behind the other.
    texts: Vec<u8>,
    /// The kinds of the tokens whose class says too little.
    others: Vec<TokenKind>,
    length: u32,
}

impl Model for TokenTable {
    ghost use Rattle.species_lexer.specs.Entries.{Table, tokens_in, AreFull};

    ghost Value = { Table };

    ghost view = { λ t. record { tokens = tokens_in t.entries.items t.texts.items t.others.items; length = t.length } };

    ghost invariant = { λ t. AreFull t.entries.items t.texts.items t.others.items };
}

impl TokenTable {
    ghost use Rattle.species_lexer.specs.Entries.{Table};

    /// No tokens, of a text of no bytes.
    pub(crate) fn new(alloc: Global) -> TokenTable
        ensures { result ≡ record { tokens = []; length = 0 } }
    {
        TokenTable {
            entries: Vec::new(alloc),
            texts: Vec::new(alloc),
            others: Vec::new(alloc),
            length: 0,
        }
    }

    /// How many bytes the text has.
    pub fn length(&self) -> u32
        ensures { result ≡ self.now.length }
    {
        self.length
    }

    /// The tokens, from the first on.
    pub fn cursor<'a>(&'a self) -> TableTokens<'a>
        ensures { result ≡ self.now.tokens }
    {
        TableTokens {
            entries: self.entries.as_slice(),
            texts: self.texts.as_slice(),
            others: self.others.as_slice(),
        }
    }

    /// Counts so many bytes more.
    pub(crate) fn pass(&mut self, n: u32)
        requires { self.old.length + n < 2 ^ 32 }
        ensures { self.new ≡ record self.old { length = self.old.length + n } }
    {
        self.length += n;
    }

    /// Appends a token.
    pub(crate) fn push(&mut self, token: Token<'_>) -> Result<(), OutOfMemory>
        ensures ok { OnOk result (self.new ≡ record self.old { tokens = self.old.tokens ++ (seen_token token.entry ∷ []) }) }
        ensures err { OnErr result (self.new ≡ self.old) }
    {
        let size = size_of(token.text)?;
        let class = class_of(token.kind);
        self.texts.reserve(token.text.len())?;
        self.others.reserve(1)?;
        self.entries.push(Entry {
            place: token.place,
            size,
            class,
        })?;
        self.texts.extend_from_slice(token.text).unwrap();
        keep_other(&mut self.others, token.kind);
        Ok(())
    }
}

/// A cursor over the tokens of a table. Contracts see it as the tokens that are left.
#[derive(Drop)]
pub struct TableTokens<'a> {
    entries: &'a [Entry],
    texts: &'a [u8],
    others: &'a [TokenKind],
}

impl<'a> Model for TableTokens<'a> {
    ghost use Rattle.std.specs.Prelude.{List};
    ghost use Rattle.species_ast.specs.Token as ast;
    ghost use Rattle.species_lexer.specs.Entries.{tokens_in};

    ghost Value = { List ast.Token };

    ghost view = { λ t. tokens_in t.entries.now t.texts.now t.others.now };
}

/// The kind of a token of this class, and the kinds of the tokens behind it.
fn kind_in<'a>(class: Class, others: &'a [TokenKind]) -> (TokenKind, &'a [TokenKind])
    ensures kind { result.0 ≡ kind_in class others.now }
    ensures rest { result.1.now ≡ others_behind class others.now }
{
    match class {
        Class::Name => (TokenKind::Name, others),
        Class::Keyword => (TokenKind::Keyword, others),
        Class::Punct => (TokenKind::Punct, others),
        Class::Other => match others {
            [] => (TokenKind::Name, others),
            [kind, rest @ ..] => (*kind, rest),
        },
    }
}

impl<'a> TableTokens<'a> {
    ghost use Rattle.species_lexer.specs.Entries.{Moves};

    /// The next token, or none at the end. Takes no memory.
    pub fn next(&mut self) -> Option<Token<'a>>
        ensures { Moves result self.old self.new }
    {
        match self.entries {
            [] => None,
            [entry, rest @ ..] => {
                let size = entry.size as usize;
                let (kind, others) = kind_in(entry.class, self.others);
                let token = Token {
                    place: entry.place,
                    text: front(self.texts, size),
                    kind,
                };
                self.entries = rest;
                self.texts = behind(self.texts, size);
                self.others = others;
                Some(token)
            }
        }
    }
}
