//! Directives: the form of the one on a line.
ghost use Rattle.std.specs.Prelude.{◌≡◌, ◌≤◌, ◌<◌, ◌^◌, ◌+◌, codes, length, option_map, IfSome, position, nat_eq};
ghost use Rattle.species_ast.specs.Limits.{most_bytes};
ghost use Rattle.species_ast.specs.Text.Characters.{is_letter, is_digit};
ghost use Rattle.species_ast.specs.Text.Parts.{parts_end, offset_of};
ghost use Rattle.species_ast.specs.Text.Directives.{closed_by, header_len, is_gap, include_of, is_first_in, is_macro_name, define_as, define_of, is_end_of_kernel, species_of, pragma_with, pragma_of, parts_form, content_form, is_include, form_of};
ghost use Rattle.species_lexer.specs.Seen.{seen_part};
ghost use Rattle.species_lexer.specs.Parts.{parts_left};
ghost use Rattle.species_lexer.specs.Forms.{seen_form};

use crate::comments::{content_len, gap_len};
use crate::fault::Fault;
use crate::form::Form;
use crate::parts::{Part, Parts};
use crate::pragmas::openmp_of;
use crate::slices::{behind, front};
use species_ast::{TokenKind, is_digit, is_keyword, is_letter, word_len};

fn place_of(byte: u8, bytes: &[u8]) -> Option<usize>
    ensures { result ≡ position (nat_eq byte) bytes.now }
{
    bytes.iter().position(|b| byte == *b)
}

/// The length of a header that this byte ends, and that goes on with these bytes behind its first.
fn closed_by(quote: u8, bytes: &[u8]) -> Option<usize>
    ensures { result ≡ closed_by quote bytes.now }
{
    match place_of(quote, bytes) {
        None => None,
        Some(n) => Some(n + 2),
    }
}

/// The length of the header at the front.
fn header_len(bytes: &[u8]) -> Option<usize>
    ensures { result ≡ header_len bytes.now }
{
    if bytes.is_empty() {
        None
    } else if bytes[0] == b'<' {
        closed_by(b'>', behind(bytes, 1))
    } else if bytes[0] == b'"' {
        closed_by(b'"', behind(bytes, 1))
    } else {
        None
    }
}

/// Only blanks and comments.
fn is_gap(bytes: &[u8]) -> bool
    ensures { result ≡ is_gap bytes.now }
{
    let rest = behind(bytes, gap_len(bytes));
    rest.len() == 0 || rest.starts_with(b"//")
}

fn include_of<'a>(bytes: &'a [u8]) -> Form<'a>
    ensures { seen_form result ≡ include_of bytes.now }
{
    let header = behind(bytes, gap_len(bytes));
    match header_len(header) {
        None => Form::formless(),
        Some(n) => {
            if is_gap(behind(header, n)) {
                Form::Read(front(header, n), TokenKind::Include)
            } else {
                Form::formless()
            }
        }
    }
}

fn begins_with_letter(text: &[u8]) -> bool
    ensures { result ≡ is_first_in is_letter text.now }
{
    match text {
        [] => false,
        [b, ..] => is_letter(*b),
    }
}

fn begins_with_digit(text: &[u8]) -> bool
    ensures { result ≡ is_first_in is_digit text.now }
{
    match text {
        [] => false,
        [b, ..] => is_digit(*b),
    }
}

fn is_macro_name(part: Part) -> bool
    ensures { result ≡ is_macro_name (seen_part part.entry) }
{
    if begins_with_letter(part.text) {
        !is_keyword(part.text)
    } else {
        false
    }
}

fn define_as<'a>(name: Part<'a>, parts: Parts<'a>) -> Form<'a>
    ensures { seen_form result ≡ define_as (seen_part name.entry) (parts_left parts.entry) }
{
    match parts.split_first() {
        None => Form::formless(),
        Some((run, others)) => {
            if is_macro_name(name) && begins_with_digit(run.text) && others.is_empty() {
                Form::Macro(name.text, run)
            } else {
                Form::formless()
            }
        }
    }
}

fn define_of<'a>(parts: Parts<'a>) -> Form<'a>
    ensures { seen_form result ≡ define_of (parts_left parts.entry) }
{
    match parts.split_first() {
        None => Form::formless(),
        Some((name, others)) => define_as(name, others),
    }
}

/// The word `endkernel`, which no array has for a name here.
fn is_end_of_kernel(word: Part, parts: Parts) -> bool
    ensures { result ≡ is_end_of_kernel (seen_part word.entry) (parts_left parts.entry) }
{
    match parts.split_first() {
        None => word.is(b"endkernel"),
        Some((part, _)) => {
            if word.is(b"endkernel") {
                !part.is(b"[")
            } else {
                false
            }
        }
    }
}

/// The offset behind the last part, or `before` where there is none.
fn parts_end(before: u32, parts: Parts) -> u32
    ensures { result ≡ parts_end before (parts_left parts.entry) }
{
    let mut end = before;
    let mut rest = parts;
    while let Some((part, others)) = rest.split_first() {
        end = part.at + part.text.len() as u32;
        rest = others;
    }
    end
}

/// The offset of the first backslash.
fn backslash_in(parts: Parts) -> Option<u32>
    ensures value { result ≡ offset_of (codes "\\") (parts_left parts.entry) }
    ensures within { IfSome result (λ at. at < 2 ^ 24) }
{
    let mut rest = parts;
    while let Some((part, others)) = rest.split_first() {
        if part.is(b"\\") {
            return Some(part.at);
        }
        rest = others;
    }
    None
}

fn species_of<'a>(line: &'a [u8], parts: Parts<'a>) -> Form<'a>
    ensures { seen_form result ≡ species_of line.now (parts_left parts.entry) }
{
    match parts.split_first() {
        None => Form::Skipped,
        Some((word, others)) => {
            if is_end_of_kernel(word, others) {
                Form::Skipped
            } else {
                let size = parts_end(word.at, parts).saturating_sub(word.at);
                let text = front(behind(line, word.at as usize), size as usize);
                Form::Read(text, TokenKind::Species)
            }
        }
    }
}

fn pragma_with<'a>(line: &'a [u8], parts: Parts<'a>) -> Form<'a>
    ensures { seen_form result ≡ pragma_with line.now (parts_left parts.entry) }
{
    match parts.split_first() {
        None => Form::Skipped,
        Some((word, others)) => {
            if word.is(b"species") {
                species_of(line, others)
            } else {
                match openmp_of(parts) {
                    None => Form::Skipped,
                    Some(kind) => Form::Read(line, kind),
                }
            }
        }
    }
}

fn pragma_of<'a>(line: &'a [u8], parts: Parts<'a>) -> Form<'a>
    ensures { seen_form result ≡ pragma_of line.now (parts_left parts.entry) }
{
    match backslash_in(parts) {
        None => pragma_with(line, parts),
        Some(at) => Form::Wrong(Fault::bad_byte(at)),
    }
}

fn parts_form<'a>(line: &'a [u8], parts: Parts<'a>) -> Form<'a>
    ensures { seen_form result ≡ parts_form line.now (parts_left parts.entry) }
{
    match parts.split_first() {
        None => Form::Skipped,
        Some((word, others)) => {
            if word.is(b"define") {
                define_of(others)
            } else if word.is(b"pragma") {
                pragma_of(line, others)
            } else {
                Form::formless()
            }
        }
    }
}

fn content_form<'a>(line: &'a [u8], n: usize) -> Form<'a>
    requires short { length line.now ≤ most_bytes }
    requires within { n ≤ length line.now }
    ensures { seen_form result ≡ content_form line.now n }
{
    let body = behind(line, 1);
    if behind(body, n).starts_with(b"/*") {
        Form::Wrong(Fault::open_comment(n as u32 + 1))
    } else {
        parts_form(line, Parts::new(1, front(body, n)))
    }
}

/// What the directive on a line is. The line has its `#`, and no line feed.
#[tactic(auto, unfolding(species_ast::specs::Text::Directives::form_of))]
pub(crate) fn form_of<'a>(line: &'a [u8]) -> Form<'a>
    requires { length line.now ≤ most_bytes }
    ensures { seen_form result ≡ form_of line.now }
{
    let body = behind(line, 1);
    let word = behind(body, gap_len(body));
    if front(word, word_len(word)) == b"include".as_slice() {
        include_of(behind(word, 7))
    } else {
        content_form(line, content_len(body))
    }
}
