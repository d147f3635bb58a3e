//! OpenMP's pragmas of loops and additions.
ghost use Rattle.std.specs.Prelude.{◌≡◌, codes, option_map, [], ◌∷◌};
ghost use Rattle.species_ast.specs.Text.Numbers.{literal_of};
ghost use Rattle.species_ast.specs.Text.Parts.{after_words};
ghost use Rattle.species_ast.specs.Text.Pragmas.{int_of, schedule_by, plain_schedule, is_closed, chunk_of, in_brackets, schedule_of, deep, depth_in, depth_of, parallel_of, atomic_of, openmp_of};
ghost use Rattle.species_lexer.specs.Seen.{seen_part};
ghost use Rattle.species_lexer.specs.Parts.{parts_left, depth_left};

use crate::numbers::literal;
use crate::parts::{Part, Parts};
use species_ast::{Schedule, TokenKind, Value};

/// The number of an `int` literal, or 0.
fn int_of(text: &[u8]) -> u32
    ensures { result ≡ int_of (literal_of text.now) }
{
    match literal(text) {
        Some(Value::Int(n)) => { if n < 0 { 0 } else { n as u32 } }
        _ => 0,
    }
}

fn plain_schedule(word: Part) -> Option<Schedule>
    ensures { result ≡ plain_schedule (seen_part word.entry) }
{
    if word.is(b"static") {
        Some(Schedule::Static)
    } else if word.is(b"guided") {
        Some(Schedule::Guided)
    } else {
        None
    }
}

fn schedule_by(word: Part, n: u32) -> Option<Schedule>
    ensures { result ≡ schedule_by (seen_part word.entry) n }
{
    if n < 1 {
        None
    } else if word.is(b"static") {
        Some(Schedule::StaticBy(n))
    } else if word.is(b"dynamic") {
        Some(Schedule::DynamicBy(n))
    } else {
        None
    }
}

/// Only a `)` is left.
fn is_closed(parts: Parts) -> bool
    ensures { result ≡ is_closed (parts_left parts.entry) }
{
    match parts.split_first() {
        None => false,
        Some((part, others)) => {
            if part.is(b")") {
                others.is_empty()
            } else {
                false
            }
        }
    }
}

fn chunk_of<'a>(word: Part<'a>, parts: Parts<'a>) -> Option<Schedule>
    ensures { result ≡ chunk_of (seen_part word.entry) (parts_left parts.entry) }
{
    match parts.split_first() {
        None => None,
        Some((n, others)) => {
            if is_closed(others) {
                schedule_by(word, int_of(n.text))
            } else {
                None
            }
        }
    }
}

fn in_brackets(parts: Parts) -> Option<Schedule>
    ensures { result ≡ in_brackets (parts_left parts.entry) }
{
    match parts.split_first() {
        None => None,
        Some((word, others)) => {
            if is_closed(others) {
                plain_schedule(word)
            } else {
                match others.after_word(b",") {
                    None => None,
                    Some(chunk) => chunk_of(word, chunk),
                }
            }
        }
    }
}

fn schedule_of(parts: Parts) -> Option<Schedule>
    ensures { result ≡ schedule_of (parts_left parts.entry) }
{
    if parts.is_empty() {
        Some(Schedule::Static)
    } else {
        match parts.after_two(b"schedule", b"(") {
            None => None,
            Some(others) => in_brackets(others),
        }
    }
}

fn depth_in<'a>(parts: Parts<'a>) -> Option<(u32, Parts<'a>)>
    ensures { option_map depth_left result ≡ depth_in (parts_left parts.entry) }
{
    match parts.split_first() {
        None => None,
        Some((n, others)) => {
            let depth = int_of(n.text);
            match others.after_word(b")") {
                None => None,
                Some(behind) => {
                    if 2 <= depth && depth <= 8 {
                        Some((depth, behind))
                    } else {
                        None
                    }
                }
            }
        }
    }
}

fn depth_of<'a>(parts: Parts<'a>) -> Option<(u32, Parts<'a>)>
    ensures { option_map depth_left result ≡ depth_of (parts_left parts.entry) }
{
    match parts.after_two(b"collapse", b"(") {
        None => Some((1, parts)),
        Some(others) => depth_in(others),
    }
}

fn parallel_of(parts: Parts) -> Option<TokenKind>
    ensures { result ≡ parallel_of (parts_left parts.entry) }
{
    match depth_of(parts) {
        None => None,
        Some((depth, others)) => match schedule_of(others) {
            None => None,
            Some(schedule) => Some(TokenKind::Parallel(depth, schedule)),
        },
    }
}

fn atomic_of(parts: Parts) -> Option<TokenKind>
    ensures { result ≡ atomic_of (parts_left parts.entry) }
{
    if parts.is_empty() {
        Some(TokenKind::Atomic)
    } else {
        None
    }
}

fn after_parallel_for<'a>(parts: Parts<'a>) -> Option<Parts<'a>>
    ensures { option_map parts_left result ≡ after_words (codes "omp" ∷ codes "parallel" ∷ codes "for" ∷ []) (parts_left parts.entry) }
{
    match parts.after_two(b"omp", b"parallel") {
        None => None,
        Some(others) => others.after_word(b"for"),
    }
}

fn after_atomic_update<'a>(parts: Parts<'a>) -> Option<Parts<'a>>
    ensures { option_map parts_left result ≡ after_words (codes "omp" ∷ codes "atomic" ∷ codes "update" ∷ []) (parts_left parts.entry) }
{
    match parts.after_two(b"omp", b"atomic") {
        None => None,
        Some(others) => others.after_word(b"update"),
    }
}

/// A pragma of OpenMP that is read, by its parts behind the word `pragma`.
#[tactic(auto, unfolding(species_ast::specs::Text::Pragmas::openmp_of))]
pub(crate) fn openmp_of(parts: Parts) -> Option<TokenKind>
    ensures { result ≡ openmp_of (parts_left parts.entry) }
{
    match after_parallel_for(parts) {
        Some(others) => parallel_of(others),
        None => match after_atomic_update(parts) {
            Some(others) => atomic_of(others),
            None => None,
        },
    }
}
