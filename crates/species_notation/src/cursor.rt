//! A cursor over the parts of a text, and the words of the grammar at its front.
ghost use Rattle.std.specs.Prelude.{◌≡◌, ◌<◌, length, nat_eq, IfOk};
ghost use Rattle.species_grammar.specs.Reader.{is_of, starts, word};
ghost use Rattle.species_notation.specs.Readers.{is_the_sign, is_arrow, is_the_word, sign, arrow, the_word, says_name, name, says_number, number, says_plus_minus, plus_or_minus, word_in, says_arc_word, arc_words, mark_in, says_mark, marks, stands_alone};
ghost use Rattle.species_notation.specs.Gives.{Gives};

use crate::parts::Part;
use crate::raw::{Natural, Spelling};
use crate::refusal::NotationRefusal;
use species_arcs::Word;
use std::marker::Model;

/// The parts that are left. Contracts see them as a list.
#[derive(Drop)]
pub(crate) struct Cursor<'t, 'a> {
    parts: &'t [Part<'a>],
}

impl<'t, 'a> Model for Cursor<'t, 'a> {
    ghost use Rattle.std.specs.Prelude.{List};
    ghost use Rattle.species_notation.specs.declared.parts.Part.{Part};

    ghost Value = { List Part };

    ghost view = { λ c. c.parts.now };
}

fn is_the_sign(part: &Part<'_>, sign: u8) -> bool
    ensures { result ≡ is_the_sign sign part.now }
{
    match part {
        Part::Name(_) => false,
        Part::Number(_) => false,
        Part::Sign(other) => *other == sign,
        Part::Arrow => false,
    }
}

fn is_arrow(part: &Part<'_>) -> bool
    ensures { result ≡ is_arrow part.now }
{
    match part {
        Part::Name(_) => false,
        Part::Number(_) => false,
        Part::Sign(_) => false,
        Part::Arrow => true,
    }
}

fn is_the_word(part: &Part<'_>, word: &[u8]) -> bool
    ensures { result ≡ is_the_word word.now part.now }
{
    match part {
        Part::Name(spelling) => spelling.as_slice() == word,
        Part::Number(_) => false,
        Part::Sign(_) => false,
        Part::Arrow => false,
    }
}

fn name_of<'a>(part: &Part<'a>) -> Option<Spelling<'a>>
    ensures { result ≡ says_name part.now }
{
    match part {
        Part::Name(spelling) => Some(spelling.copy()),
        Part::Number(_) => None,
        Part::Sign(_) => None,
        Part::Arrow => None,
    }
}

fn number_of(part: &Part<'_>) -> Option<Natural>
    ensures { result ≡ says_number part.now }
{
    match part {
        Part::Name(_) => None,
        Part::Number(number) => Some(number.copy()),
        Part::Sign(_) => None,
        Part::Arrow => None,
    }
}

/// Whether `+` or `-` stands there, and then whether it is `-`.
fn plus_minus_of(part: &Part<'_>) -> Option<bool>
    ensures { result ≡ says_plus_minus part.now }
{
    match part {
        Part::Name(_) => None,
        Part::Number(_) => None,
        Part::Sign(sign) => {
            if *sign == b'-' {
                Some(true)
            } else if *sign == b'+' {
                Some(false)
            } else {
                None
            }
        }
        Part::Arrow => None,
    }
}

/// The word of an arc that is spelled so.
fn word_in(spelling: &[u8]) -> Option<Word>
    ensures { result ≡ word_in spelling.now }
{
    if spelling == b"element".as_slice() {
        Some(Word::Element)
    } else if spelling == b"neighbourhood".as_slice() {
        Some(Word::Neighbourhood)
    } else if spelling == b"chunk".as_slice() {
        Some(Word::Chunk)
    } else if spelling == b"full".as_slice() {
        Some(Word::Full)
    } else if spelling == b"shared".as_slice() {
        Some(Word::Shared)
    } else {
        None
    }
}

fn arc_word_of(part: &Part<'_>) -> Option<Word>
    ensures { result ≡ says_arc_word part.now }
{
    match part {
        Part::Name(spelling) => word_in(spelling.as_slice()),
        Part::Number(_) => None,
        Part::Sign(_) => None,
        Part::Arrow => None,
    }
}

/// Whether a mark that is spelled so is `exact`.
fn mark_in(spelling: &[u8]) -> Option<bool>
    ensures { result ≡ mark_in spelling.now }
{
    if spelling == b"exact".as_slice() {
        Some(true)
    } else if spelling == b"within".as_slice() {
        Some(false)
    } else {
        None
    }
}

fn mark_of(part: &Part<'_>) -> Option<bool>
    ensures { result ≡ says_mark part.now }
{
    match part {
        Part::Name(spelling) => mark_in(spelling.as_slice()),
        Part::Number(_) => None,
        Part::Sign(_) => None,
        Part::Arrow => None,
    }
}

fn begins_with_bracket(parts: &[Part<'_>]) -> bool
    ensures { result ≡ starts (is_of (sign 91)) parts.now }
{
    match parts {
        [first, ..] => is_the_sign(first, b'['),
        [] => false,
    }
}

impl<'t, 'a> Cursor<'t, 'a> {
    /// A cursor before the first of these.
    pub(crate) fn new(parts: &'t [Part<'a>]) -> Cursor<'t, 'a>
        ensures { result ≡ parts.now }
    {
        Cursor { parts }
    }

    /// Whether nothing is left.
    pub(crate) fn is_at_end(&self) -> bool
        ensures { result ≡ nat_eq (length self.now) 0 }
    {
        self.parts.is_empty()
    }

    /// Whether this sign stands next.
    pub(crate) fn is_at_sign(&self, expected: u8) -> bool
        ensures { result ≡ starts (is_of (sign expected)) self.now }
    {
        match self.parts {
            [first, ..] => is_the_sign(first, expected),
            [] => false,
        }
    }

    /// This sign, which has to stand next.
    pub(crate) fn sign(&mut self, expected: u8) -> Result<(), NotationRefusal>
        ensures value { Gives result self.new (word (sign expected) self.old) }
        ensures shorter { IfOk result (λ _. length self.new < length self.old) }
    {
        match self.parts {
            [first, rest @ ..] if is_the_sign(first, expected) => {
                self.parts = rest;
                Ok(())
            }
            _ => Err(NotationRefusal::Syntax),
        }
    }

    /// `->`, which has to stand next.
    pub(crate) fn arrow(&mut self) -> Result<(), NotationRefusal>
        ensures value { Gives result self.new (word arrow self.old) }
        ensures shorter { IfOk result (λ _. length self.new < length self.old) }
    {
        match self.parts {
            [first, rest @ ..] if is_arrow(first) => {
                self.parts = rest;
                Ok(())
            }
            _ => Err(NotationRefusal::Syntax),
        }
    }

    /// Whether this word stands next.
    pub(crate) fn is_at_word(&self, expected: &[u8]) -> bool
        ensures { result ≡ starts (is_of (the_word expected.now)) self.now }
    {
        match self.parts {
            [first, ..] => is_the_word(first, expected),
            [] => false,
        }
    }

    /// Whether this word stands next, and no `[` behind it.
    pub(crate) fn is_alone(&self, expected: &[u8]) -> bool
        ensures { result ≡ stands_alone expected.now self.now }
    {
        match self.parts {
            [first, rest @ ..] => is_the_word(first, expected) && !begins_with_bracket(rest),
            [] => false,
        }
    }

    /// This word, which has to stand next.
    pub(crate) fn word(&mut self, expected: &[u8]) -> Result<(), NotationRefusal>
        ensures value { Gives result self.new (word (the_word expected.now) self.old) }
        ensures shorter { IfOk result (λ _. length self.new < length self.old) }
    {
        match self.parts {
            [first, rest @ ..] if is_the_word(first, expected) => {
                self.parts = rest;
                Ok(())
            }
            _ => Err(NotationRefusal::Syntax),
        }
    }

    /// The name or the word that has to stand next.
    pub(crate) fn name(&mut self) -> Result<Spelling<'a>, NotationRefusal>
        ensures value { Gives result self.new (word name self.old) }
        ensures shorter { IfOk result (λ _. length self.new < length self.old) }
    {
        match self.parts {
            [first, rest @ ..] => match name_of(first) {
                Some(spelling) => {
                    self.parts = rest;
                    Ok(spelling)
                }
                None => Err(NotationRefusal::Syntax),
            },
            [] => Err(NotationRefusal::Syntax),
        }
    }

    /// Whether a number stands next.
    pub(crate) fn is_at_number(&self) -> bool
        ensures { result ≡ starts (is_of number) self.now }
    {
        match self.parts {
            [first, ..] => number_of(first).is_some(),
            [] => false,
        }
    }

    /// The number that has to stand next.
    pub(crate) fn number(&mut self) -> Result<Natural, NotationRefusal>
        ensures value { Gives result self.new (word number self.old) }
        ensures shorter { IfOk result (λ _. length self.new < length self.old) }
    {
        match self.parts {
            [first, rest @ ..] => match number_of(first) {
                Some(number) => {
                    self.parts = rest;
                    Ok(number)
                }
                None => Err(NotationRefusal::Syntax),
            },
            [] => Err(NotationRefusal::Syntax),
        }
    }

    /// Whether `+` or `-` stands next.
    pub(crate) fn is_at_plus_or_minus(&self) -> bool
        ensures { result ≡ starts (is_of plus_or_minus) self.now }
    {
        match self.parts {
            [first, ..] => plus_minus_of(first).is_some(),
            [] => false,
        }
    }

    /// `+` or `-`, which has to stand next: whether it is `-`.
    pub(crate) fn plus_or_minus(&mut self) -> Result<bool, NotationRefusal>
        ensures value { Gives result self.new (word plus_or_minus self.old) }
        ensures shorter { IfOk result (λ _. length self.new < length self.old) }
    {
        match self.parts {
            [first, rest @ ..] => match plus_minus_of(first) {
                Some(negative) => {
                    self.parts = rest;
                    Ok(negative)
                }
                None => Err(NotationRefusal::Syntax),
            },
            [] => Err(NotationRefusal::Syntax),
        }
    }

    /// The word of an arc, which has to stand next.
    pub(crate) fn arc_word(&mut self) -> Result<Word, NotationRefusal>
        ensures value { Gives result self.new (word arc_words self.old) }
        ensures shorter { IfOk result (λ _. length self.new < length self.old) }
    {
        match self.parts {
            [first, rest @ ..] => match arc_word_of(first) {
                Some(found) => {
                    self.parts = rest;
                    Ok(found)
                }
                None => Err(NotationRefusal::Syntax),
            },
            [] => Err(NotationRefusal::Syntax),
        }
    }

    /// The mark of an arc, which has to stand next: whether it is `exact`.
    pub(crate) fn mark(&mut self) -> Result<bool, NotationRefusal>
        ensures value { Gives result self.new (word marks self.old) }
        ensures shorter { IfOk result (λ _. length self.new < length self.old) }
    {
        match self.parts {
            [first, rest @ ..] => match mark_of(first) {
                Some(exact) => {
                    self.parts = rest;
                    Ok(exact)
                }
                None => Err(NotationRefusal::Syntax),
            },
            [] => Err(NotationRefusal::Syntax),
        }
    }
}
