//! The words, numbers and other bytes of a directive.
ghost use Rattle.std.specs.Prelude.{◌≡◌, ◌∷◌, [], ◌<◌, ◌≤◌, ◌^◌, ◌+◌, suc, length, option_map};
ghost use Rattle.species_ast.specs.Text.Parts.{part_len, parts_of, after_words, is, is_nothing};

use crate::comments::gap_len;
use crate::numbers::run_more;
use crate::slices::{behind, front};
use species_ast::{is_digit, is_letter, word_len};

/// A word, a number or another byte of a directive, with its offset from the `#`.
#[derive(Clone, Copy)]
pub(crate) struct Part<'a> {
    pub at: u32,
    pub text: &'a [u8],
    ghost near: { at + length text.now < 2 ^ 24 },
}

/// The parts of some bytes of a directive, of which the first stands at `at`.
#[derive(Clone, Copy)]
pub(crate) struct Parts<'a> {
    at: u32,
    rest: &'a [u8],
    ghost near: { at + length rest.now < 2 ^ 24 },
}

impl<'a> Part<'a> {
    ghost use Rattle.species_lexer.specs.Seen.{seen_part};

    pub fn is(self, text: &[u8]) -> bool
        ensures { result ≡ is (seen_part self.entry) text.now }
    {
        self.text == text
    }
}

fn part_len(b: u8, bytes: &[u8]) -> usize
    requires { length bytes.now < 2 ^ 24 }
    ensures value { result ≡ part_len b bytes.now }
    ensures some { 1 ≤ result }
    ensures within { result ≤ suc (length bytes.now) }
{
    if is_letter(b) {
        1 + word_len(bytes)
    } else if is_digit(b) {
        1 + run_more(b, bytes)
    } else {
        1
    }
}

impl<'a> Parts<'a> {
    ghost use Rattle.species_lexer.specs.Parts.{parts_left, Splits};

    pub fn new(at: u32, rest: &'a [u8]) -> Parts<'a>
        requires { at + length rest.now < 2 ^ 24 }
        ensures { parts_left result ≡ parts_of at rest.now }
    {
        Parts { at, rest }
    }

    /// The first part, and those behind it.
    pub fn split_first(self) -> Option<(Part<'a>, Parts<'a>)>
        ensures { Splits (parts_left self.entry) result }
    {
        let gap = gap_len(self.rest);
        let rest = behind(self.rest, gap);
        if rest.is_empty() {
            return None;
        }
        let at = self.at + gap as u32;
        let n = part_len(rest[0], behind(rest, 1));
        let part = Part {
            at,
            text: front(rest, n),
        };
        let others = Parts {
            at: at + n as u32,
            rest: behind(rest, n),
        };
        Some((part, others))
    }

    /// The parts behind this word, if it is the first.
    pub fn after_word(self, word: &[u8]) -> Option<Parts<'a>>
        ensures { option_map parts_left result ≡ after_words (word.now ∷ []) (parts_left self.entry) }
    {
        match self.split_first() {
            None => None,
            Some((part, others)) => { if part.is(word) { Some(others) } else { None } }
        }
    }

    pub fn after_two(self, first: &[u8], second: &[u8]) -> Option<Parts<'a>>
        ensures { option_map parts_left result ≡ after_words (first.now ∷ second.now ∷ []) (parts_left self.entry) }
    {
        match self.after_word(first) {
            None => None,
            Some(others) => others.after_word(second),
        }
    }

    pub fn is_empty(self) -> bool
        ensures { result ≡ is_nothing (parts_left self.entry) }
    {
        match self.split_first() {
            None => true,
            Some(_) => false,
        }
    }
}
