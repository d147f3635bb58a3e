//! A text that comes in pieces, cut as it comes.
ghost use Rattle.std.specs.Prelude.{◌≡◌, ◌≤◌, ◌-◌, ◌+◌, ◌++◌, [], List, ℕ, length, take, drop, OnOk, OnErr};
ghost use Rattle.species_ast.specs.Limits.{most_bytes};
ghost use Rattle.species_io.specs.Piecewise.{AppendedPart};
ghost use Rattle.species_lexer.specs.Fed.{IsFed, room};
ghost use Rattle.species_lexer.specs.Cut.{GivesTable};

use crate::cut::Cut;
use crate::refusal::CutRefusal;
use crate::table::TokenTable;
use species_ast::OutOfMemory;
use species_io::Piecewise;
use std::alloc::Global;
use std::marker::Model;

/// Cuts a text that comes in pieces, and keeps its tokens and the bytes that may be the front of one
/// more. Contracts see what was cut and these bytes.
#[derive(Drop)]
pub struct Cutter {
    cut: Cut,
    left: Vec<u8>,
    /// With so many bytes left they are cut: twice as many as were left the last time, so that a
    /// long piece of the text is not looked through at each byte that comes.
    enough: usize,
}

impl Model for Cutter {
    ghost use Rattle.std.specs.Prelude.{◌≤◌, ◌+◌, length};
    ghost use Rattle.species_ast.specs.Limits.{most_bytes};
    ghost use Rattle.species_lexer.specs.Fed.{Fed};
    ghost use Rattle.species_lexer.specs.SeenCut.{seen_cut};

    ghost Value = { Fed };

    ghost view = { λ c. record { cut = seen_cut c.cut; left = c.left.items } };

    ghost invariant = { λ c. c.cut.table.length + length c.left.items ≤ most_bytes };
}

/// Takes the first `n` bytes away.
fn drop_front(bytes: &mut Vec<u8>, n: usize)
    requires { n ≤ length bytes.old.items }
    ensures { bytes.new.items ≡ drop n bytes.old.items }
{
    let rest = bytes.len() - n;
    bytes.as_mut_slice().rotate_left(n);
    bytes.truncate(rest);
}

impl Cutter {
    /// A cutter of a text of which nothing has come. Takes no memory.
    pub fn new(alloc: Global) -> Cutter
        ensures empty { IsFed result [] }
        ensures room { room result ≡ most_bytes }
    {
        Cutter {
            cut: Cut::new(alloc),
            left: Vec::new(alloc),
            enough: 0,
        }
    }

    /// Appends a piece of the text, of which at most 4,194,304 bytes come. It does not matter where
    /// the pieces end.
    pub fn feed(&mut self, piece: &[u8]) -> Result<(), OutOfMemory>
        requires { length piece.now ≤ room self.old }
        ensures appended { (bytes : List ℕ) → IsFed self.old bytes → OnOk result (IsFed self.new (bytes ++ piece.now)) }
        ensures room { OnOk result (room self.new ≡ room self.old - length piece.now) }
        ensures unchanged { OnErr result (self.new ≡ self.old) }
    {
        self.left.extend_from_slice(piece)?;
        if self.left.len() >= self.enough {
            let n = self.cut.add_ended(self.left.as_slice());
            drop_front(&mut self.left, n);
            self.enough = self.left.len().saturating_mul(2);
        }
        Ok(())
    }

    /// The tokens of the text, which has come whole.
    pub fn finish(self) -> Result<TokenTable, CutRefusal>
        ensures { (bytes : List ℕ) → IsFed self bytes → GivesTable result bytes }
    {
        let Cutter { cut, left, .. } = self;
        let mut cut = cut;
        cut.add_all(left.as_slice())?;
        let Cut { table, .. } = cut;
        Ok(table)
    }
}

impl Piecewise for Cutter {
    ghost use Rattle.species_lexer.specs.Fed.{IsFed, room};

    ghost Means = { λ c bytes. IsFed c bytes };

    ghost room = { λ c. room c };

    fn take(&mut self, piece: &[u8]) -> Result<(), OutOfMemory> {
        self.feed(piece)
    }
}
