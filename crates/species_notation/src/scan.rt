//! The cutting of a text into its parts.
ghost use Rattle.std.specs.Prelude.{◌≡◌, ◌<◌, ◌≤◌, ◌++◌, length, nat_le, decimal, bytes_eq, [], IfSome, OnOk, Some, None, if◌then◌else◌};
ghost use Rattle.std.specs.Char.{digit_value};
ghost use Rattle.std.specs.Str.Parse.{digits_value};
ghost use Rattle.species_ast.specs.Text.Comments.{closing_len, closed_len};
ghost use Rattle.species_notation.specs.Parts.{most, gap_at, is_sign, word_of_run, number_of_run, taken_from, with_part, parts_of};
ghost use Rattle.species_notation.specs.Gives.{Finds};

use crate::parts::Part;
use crate::raw::{MOST, Natural, Spelling};
use crate::refusal::NotationRefusal;
use itoa::Buffer;
use species_ast::{is_blank, is_digit, is_keyword, is_letter, line_len, word_len};
use sqlite_items::Items;
use std::alloc::{AllocError, Global};

/// How many bytes there are up to the first `*/`, with it.
fn closing_len(bytes: &[u8]) -> Option<usize>
    ensures value { result ≡ closing_len bytes.now }
    ensures within { IfSome result (λ n. n ≤ length bytes.now) }
{
    for at in 0..bytes.len() {
        if bytes[at..].starts_with(b"*/") {
            return Some(at + 2);
        }
    }
    None
}

/// The length of a closed comment at the front, or 0.
fn closed_len(bytes: &[u8]) -> usize
    ensures value { result ≡ closed_len bytes.now }
    ensures within { result ≤ length bytes.now }
{
    if !bytes.starts_with(b"/*") {
        return 0;
    }
    match closing_len(&bytes[2..]) {
        Some(n) => n + 2,
        None => 0,
    }
}

/// The length of the blank or comment at the front, or 0.
fn gap_len(text: &[u8]) -> usize
    ensures value { result ≡ gap_at text.now }
    ensures within { result ≤ length text.now }
{
    match text {
        [] => 0,
        [first, rest @ ..] => {
            if is_blank(*first) {
                1
            } else if text.starts_with(b"//") {
                1 + line_len(rest)
            } else {
                closed_len(text)
            }
        }
    }
}

/// Whether the byte is a sign of its own.
fn is_sign(byte: u8) -> bool
    ensures { result ≡ is_sign byte }
{
    b"()*+,-:[]^|".contains(&byte)
}

/// A word, which is no keyword.
fn word_in<'a>(run: &'a [u8]) -> Option<(usize, Option<Part<'a>>)>
    ensures value { result ≡ word_of_run run.now }
    ensures within { IfSome result (λ t. t.0 ≡ length run.now) }
{
    if is_keyword(run) {
        return None;
    }
    Some((run.len(), Some(Part::Name(Spelling::new(run)))))
}

fn digit_value(byte: u8) -> u128
    ensures value { result ≡ digit_value byte }
    ensures small { result ≤ 36 }
{
    if byte < b'0' {
        36
    } else if byte <= b'9' {
        byte as u128 - 48
    } else if byte < b'A' {
        36
    } else if byte <= b'Z' {
        byte as u128 - 55
    } else if byte < b'a' {
        36
    } else if byte <= b'z' {
        byte as u128 - 87
    } else {
        36
    }
}

/// The number that the digits write, unless it is too large.
fn value_of(digits: &[u8]) -> Option<Natural>
    ensures { result ≡ (if nat_le (digits_value 10 digits.now) most then Some (digits_value 10 digits.now) else None) }
{
    let mut number: u128 = 0;
    for digit in digits {
        number = number * 10 + digit_value(*digit);
        if number > MOST {
            return None;
        }
    }
    Some(Natural::new(number))
}

/// Whether the number is written as these bytes.
fn is_written(number: &Natural, bytes: &[u8]) -> bool
    ensures { result ≡ bytes_eq (decimal number.now) bytes.now }
{
    let mut buffer = Buffer::new();
    buffer.format(number.get()).as_bytes() == bytes
}

/// A number, which has no leading zero and isn't too large.
fn number_in<'a>(run: &'a [u8]) -> Option<(usize, Option<Part<'a>>)>
    ensures value { result ≡ number_of_run run.now }
    ensures within { IfSome result (λ t. t.0 ≡ length run.now) }
{
    match value_of(run) {
        Some(number) => {
            if !is_written(&number, run) {
                return None;
            }
            Some((run.len(), Some(Part::Number(number))))
        }
        None => None,
    }
}

/// The blank, comment or part at the front of a text: how many bytes it has, and the part that it is, if
/// it is one.
#[tactic(auto, unfolding(crate::specs::Parts::taken_at))]
fn taken<'a>(text: &'a [u8]) -> Option<(usize, Option<Part<'a>>)>
    ensures value { result ≡ taken_from text.now }
    ensures some { IfSome result (λ t. 0 < t.0) }
    ensures within { IfSome result (λ t. t.0 ≤ length text.now) }
{
    match text {
        [] => None,
        [first, rest @ ..] => {
            let gap = gap_len(text);
            if gap > 0 {
                Some((gap, None))
            } else if is_letter(*first) {
                word_in(&text[..1 + word_len(rest)])
            } else if is_digit(*first) {
                number_in(&text[..1 + word_len(rest)])
            } else if text.starts_with(b"->") {
                Some((2, Some(Part::Arrow)))
            } else if is_sign(*first) {
                Some((1, Some(Part::Sign(*first))))
            } else {
                None
            }
        }
    }
}

fn put_part<'a>(parts: &mut Items<Part<'a>>, part: Option<Part<'a>>) -> Result<(), AllocError>
    ensures { OnOk result (parts.new ≡ parts.old ++ with_part part.entry []) }
{
    match part {
        Some(part) => parts.push(part),
        None => Ok(()),
    }
}

/// The parts of a text, if it is made of parts, blanks and comments.
pub(crate) fn parts_of<'a>(
    alloc: Global,
    text: &'a [u8],
) -> Result<Items<Part<'a>>, NotationRefusal>
    ensures { Finds result (parts_of text.now) }
{
    let mut parts = Items::new(alloc);
    let mut at = 0;
    while at < text.len() {
        let Some((size, part)) = taken(&text[at..]) else {
            return Err(NotationRefusal::Syntax);
        };
        put_part(&mut parts, part)?;
        at += size;
    }
    Ok(parts)
}
