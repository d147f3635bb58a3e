//! Cutting a text piece by piece, with a table of the names that it defines.
ghost use Rattle.std.specs.Prelude.{◌≡◌, ◌≤◌, ◌+◌, ◌++◌, ◌∷◌, [], None, List, ℕ, length, drop, OnOk, OnErr, Some, false, true};
ghost use Rattle.species_ast.specs.Limits.{most_bytes};
ghost use Rattle.species_ast.specs.Text.Stream.{in_scope, look_up};
ghost use Rattle.species_ast.specs.declared.token.TokenKind.TheVariants as kind;
ghost use Rattle.species_lexer.specs.Pieces.{seen_piece, piece_at, Fits};
ghost use Rattle.species_lexer.specs.Fed.{CutPart, with_rest};
ghost use Rattle.species_lexer.specs.Cut.{Adds, CutsAll};
ghost use Rattle.species_lexer.specs.SeenCut.{seen_cut};

use crate::names::Names;
use crate::piece::Piece;
use crate::pieces::piece_at;
use crate::refusal::CutRefusal;
use crate::scan::{head_behind, length_in};
use crate::slices::{behind, front};
use crate::table::TokenTable;
use crate::token::Token;
use species_ast::{LexRefusal, OutOfMemory, TokenKind, Value};
use std::alloc::Global;

/// What was cut of a text, and what has to be known of that to go on.
#[derive(Drop)]
pub(crate) struct Cut {
    /// Its length is that of what was cut.
    pub table: TokenTable,
    pub names: Names,
    /// Only blanks and comments stand on the line behind the last line feed.
    pub is_head: bool,
}

impl Cut {
    pub fn new(alloc: Global) -> Cut
        ensures { seen_cut result ≡ record { tokens = []; definitions = []; place = 0; is_head = true } }
    {
        Cut {
            table: TokenTable::new(alloc),
            names: Names::new(alloc),
            is_head: true,
        }
    }

    /// Counts the bytes of a token.
    fn behind_token(&mut self, n: usize)
        requires { self.old.table.length + n ≤ most_bytes }
        ensures { self.new ≡ record self.old { table = record self.old.table { length = self.old.table.length + n }; is_head = false } }
    {
        self.table.pass(n as u32);
        self.is_head = false;
    }

    /// Appends the token of a definition of a new name.
    fn define(&mut self, name: &[u8], literal: Value) -> Result<(), OutOfMemory>
        requires { look_up self.old.names name.now ≡ None }
        ensures ok { OnOk result (self.new ≡ record self.old {
          table = record self.old.table { tokens = self.old.table.tokens ++ (record { place = self.old.table.length; text = name.now; kind = kind.Define literal } ∷ []) };
          names = self.old.names ++ (record { name = name.now; literal = literal } ∷ []);
        }) }
        ensures err { OnErr result (self.new ≡ self.old) }
    {
        self.names.define(name, literal)?;
        let token = Token {
            place: self.table.length(),
            text: name,
            kind: TokenKind::Define(literal),
        };
        match self.table.push(token) {
            Ok(()) => Ok(()),
            Err(_) => {
                self.names.forget_last();
                Err(OutOfMemory)
            }
        }
    }

    /// Cuts the piece at the front of these bytes.
    fn add(&mut self, piece: Piece<'_>, rest: &[u8]) -> Result<usize, CutRefusal>
        requires short { self.old.table.length + length rest.now ≤ most_bytes }
        requires piece { Some (seen_piece piece) ≡ piece_at self.old.is_head rest.now }
        requires fits { Fits piece rest.now }
        ensures { Adds result (seen_cut self.old) (seen_cut self.new) rest.now (in_scope self.old.names (seen_piece piece.entry)) }
    {
        let place = self.table.length();
        match piece {
            Piece::Refused(fault) => Err(CutRefusal::Lex(fault.at(place))),
            Piece::Space(n) => {
                self.is_head = head_behind(self.is_head, front(rest, n));
                self.table.pass(n as u32);
                Ok(n)
            }
            Piece::Lexeme(n, text, kind) => {
                let kind = self.names.kind_of(text, kind);
                self.table.push(Token { place, text, kind })?;
                self.behind_token(n);
                Ok(n)
            }
            Piece::Define(n, name, value) => {
                if self.names.literal(name).is_some() {
                    return Err(CutRefusal::Lex(LexRefusal::BadByte(place)));
                }
                match value {
                    Err(fault) => Err(CutRefusal::Lex(fault.at(place))),
                    Ok(literal) => {
                        self.define(name, literal)?;
                        self.behind_token(n);
                        Ok(n)
                    }
                }
            }
        }
    }

    /// Cuts the pieces that end before the last of these bytes, and so end there whatever comes
    /// behind. How many bytes they have. It stops before a refusal, and where memory runs out.
    pub fn add_ended(&mut self, bytes: &[u8]) -> usize
        requires { self.old.table.length + length bytes.now ≤ most_bytes }
        ensures within { result ≤ length bytes.now }
        ensures counted { self.new.table.length ≡ self.old.table.length + result }
        ensures same { (more : List ℕ) → with_rest (seen_cut self.old) (bytes.now ++ more) ≡ with_rest (seen_cut self.new) (drop result bytes.now ++ more) }
    {
        let mut at = 0;
        loop {
            let rest = behind(bytes, at);
            match piece_at(self.is_head, rest) {
                None => return at,
                Some(piece) => {
                    if length_in(Some(piece)) >= rest.len() {
                        return at;
                    }
                    match self.add(piece, rest) {
                        Ok(n) => at += n,
                        Err(_) => return at,
                    }
                }
            }
        }
    }

    /// Cuts all of these bytes, which nothing follows.
    pub fn add_all(&mut self, bytes: &[u8]) -> Result<(), CutRefusal>
        requires { self.old.table.length + length bytes.now ≤ most_bytes }
        ensures { CutsAll result (seen_cut self.old) (seen_cut self.new) bytes.now }
    {
        let mut at = 0;
        loop {
            let rest = behind(bytes, at);
            match piece_at(self.is_head, rest) {
                None => return Ok(()),
                Some(piece) => at += self.add(piece, rest)?,
            }
        }
    }
}
