//! The words of a line of data.

ghost use Rattle.std.specs.Prelude.{◌≡◌, ◌≤◌, ◌+◌, [], ◌∷◌, length, MatchOption};
ghost use Rattle.std.specs.List.{prefix_len};
ghost use Rattle.species_ast.specs.Limits.{most_bytes};
ghost use Rattle.species_decimal.specs.Words.{is_solid, words_at};
ghost use Rattle.species_data.specs.Lines.{is_gap, is_in_line};
ghost use Rattle.species_data.specs.Seen.{seen};

use std::marker::Model;

/// A word, and the place of its first byte.
#[derive(Clone, Copy)]
pub(crate) struct Word<'a> {
    pub text: &'a [u8],
    pub place: u32,
}

/// The words of a line that are left.
#[derive(Drop)]
pub(crate) struct Words<'a> {
    line: &'a [u8],
    place: u32,
}

impl<'a> Model for Words<'a> {
    ghost use Rattle.std.specs.Prelude.{◌≤◌, ◌+◌, List, length};
    ghost use Rattle.species_ast.specs.Limits.{most_bytes};
    ghost use Rattle.species_decimal.specs.Words.{Word as Piece, words_at};
    ghost use Rattle.species_data.specs.Lines.{is_gap};

    ghost Value = { List Piece };

    ghost view = { λ w. words_at is_gap w.place w.line.now };

    ghost invariant = { λ w. w.place + length w.line.now ≤ most_bytes };
}

impl<'a> Words<'a> {
    /// The words of a line that stands at this place.
    pub fn new(line: &'a [u8], place: u32) -> Words<'a>
        requires { place + length line.now ≤ most_bytes }
        ensures { result ≡ words_at is_gap place line.now }
    {
        Words { line, place }
    }

    pub fn next(&mut self) -> Option<Word<'a>>
        ensures { MatchOption result (self.old ≡ []) (λ w. self.old ≡ seen w ∷ self.new) }
    {
        let gap = gap_len(self.line);
        let rest = &self.line[gap..];
        let len = word_len(rest);
        if len == 0 {
            return None;
        }
        let place = self.place + gap as u32;
        self.line = &rest[len..];
        self.place = place + len as u32;
        Some(Word {
            text: &rest[..len],
            place,
        })
    }
}

/// How many bytes that part words stand at the front.
fn gap_len(bytes: &[u8]) -> usize
    ensures value { result ≡ prefix_len is_gap bytes.now }
    ensures within { result ≤ length bytes.now }
{
    bytes.iter().take_while(|b| is_gap(**b)).count()
}

/// How many bytes of a word stand at the front.
fn word_len(bytes: &[u8]) -> usize
    ensures value { result ≡ prefix_len (is_solid is_gap) bytes.now }
    ensures within { result ≤ length bytes.now }
{
    bytes.iter().take_while(|b| !is_gap(**b)).count()
}

/// How many bytes stand before the first line feed.
pub(crate) fn line_len(bytes: &[u8]) -> usize
    ensures value { result ≡ prefix_len is_in_line bytes.now }
    ensures within { result ≤ length bytes.now }
{
    bytes.iter().take_while(|b| **b != b'\n').count()
}

/// Space, tab and carriage return.
fn is_gap(b: u8) -> bool
    ensures { result ≡ is_gap b }
{
    b == b' ' || b == b'\t' || b == b'\r'
}
