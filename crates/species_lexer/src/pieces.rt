//! The piece at the front of a text: a token, a blank, a comment or a directive.
ghost use Rattle.std.specs.Prelude.{◌≡◌, ◌≤◌, ◌<◌, ◌^◌, if◌then◌else◌, length, option_map, IfSome, Some, None, take, IsTrue, codes};
ghost use Rattle.species_ast.specs.Limits.{most_bytes};
ghost use Rattle.species_ast.specs.Text.Characters.{begins};
ghost use Rattle.species_ast.specs.Text.Comments.{comment_len, splice_at};
ghost use Rattle.species_ast.specs.Text.Numbers.{literal_of};
ghost use Rattle.species_ast.specs.Text.Words.{punctuator_len};
ghost use Rattle.species_ast.specs.Text.Directives.{form_of};
ghost use Rattle.species_ast.specs.declared.token.LexRefusal.TheVariants.{BadByte};
ghost use Rattle.species_ast.specs.Text.Pieces as text;
ghost use Rattle.species_lexer.specs.Seen.{seen_part};
ghost use Rattle.species_lexer.specs.Pieces.{seen_piece, seen_value, piece_at, Fits};

use crate::comments::{comment_len, splice_at};
use crate::directives::form_of;
use crate::fault::Fault;
use crate::form::Form;
use crate::numbers::{literal, run_more};
use crate::parts::Part;
use crate::piece::Piece;
use crate::slices::{behind, front};
use species_ast::{
    TokenKind, Value, is_blank, is_digit, is_keyword, is_letter, line_len, punctuator_len, word_len,
};

/// A `//` comment of `n` bytes.
fn line_comment<'a>(n: usize, bytes: &'a [u8]) -> Piece<'a>
    requires short { length bytes.now ≤ most_bytes }
    requires some { 0 < n }
    requires within { n ≤ length bytes.now }
    ensures value { seen_piece result ≡ text.line_comment n (splice_at bytes.now) }
    ensures fits { Fits result bytes.now }
{
    match splice_at(bytes) {
        None => Piece::Space(n),
        Some(at) => Piece::Refused(Fault::bad_byte(at as u32)),
    }
}

fn block_comment<'a>(bytes: &'a [u8]) -> Piece<'a>
    requires { IsTrue (begins (codes "/*") bytes.now) }
    ensures value { seen_piece result ≡ text.block_comment (comment_len bytes.now) }
    ensures fits { Fits result bytes.now }
{
    match comment_len(bytes) {
        None => Piece::Refused(Fault::open_comment(0)),
        Some(n) => Piece::Space(n),
    }
}

/// A word of `n` bytes: a keyword or a name.
fn word<'a>(n: usize, bytes: &'a [u8]) -> Piece<'a>
    requires some { 0 < n }
    requires within { n ≤ length bytes.now }
    ensures value { seen_piece result ≡ text.word n bytes.now }
    ensures fits { Fits result bytes.now }
{
    let word = front(bytes, n);
    if is_keyword(word) {
        Piece::Lexeme(n, word, TokenKind::Keyword)
    } else {
        Piece::Lexeme(n, word, TokenKind::Name)
    }
}

/// A number of `n` bytes.
fn number<'a>(n: usize, bytes: &'a [u8]) -> Piece<'a>
    requires some { 0 < n }
    requires within { n ≤ length bytes.now }
    ensures value { seen_piece result ≡ text.number n bytes.now (literal_of (take n bytes.now)) }
    ensures fits { Fits result bytes.now }
{
    let run = front(bytes, n);
    match literal(run) {
        None => Piece::Refused(Fault::bad_number(0)),
        Some(value) => Piece::Lexeme(n, run, TokenKind::Number(value)),
    }
}

fn punctuator<'a>(bytes: &'a [u8]) -> Piece<'a>
    ensures value { seen_piece result ≡ text.punctuator (punctuator_len bytes.now) bytes.now }
    ensures fits { Fits result bytes.now }
{
    let n = punctuator_len(bytes);
    if n == 0 {
        Piece::Refused(Fault::bad_byte(0))
    } else {
        Piece::Lexeme(n, front(bytes, n), TokenKind::Punct)
    }
}

fn defined_as(run: Part, splice: Option<usize>) -> Result<Value, Fault>
    requires { IfSome splice (λ at. at < 2 ^ 24) }
    ensures { seen_value result ≡ text.defined_as (seen_part run.entry) splice (literal_of run.entry.text.now) }
{
    match literal(run.text) {
        None => Err(Fault::bad_number(run.at)),
        Some(value) => match splice {
            None => Ok(value),
            Some(at) => Err(Fault::bad_byte(at as u32)),
        },
    }
}

/// A directive, whose line has `n` bytes.
fn directive<'a>(n: usize, bytes: &'a [u8]) -> Piece<'a>
    requires short { length bytes.now ≤ most_bytes }
    requires some { 0 < n }
    requires within { n ≤ length bytes.now }
    ensures value { seen_piece result ≡ text.directive n (splice_at bytes.now) (form_of (take n bytes.now)) }
    ensures fits { Fits result bytes.now }
{
    let splice = splice_at(bytes);
    match form_of(front(bytes, n)) {
        Form::Skipped => match splice {
            None => Piece::Space(n),
            Some(at) => Piece::Refused(Fault::bad_byte(at as u32)),
        },
        Form::Read(text, kind) => match splice {
            None => Piece::Lexeme(n, text, kind),
            Some(at) => Piece::Refused(Fault::bad_byte(at as u32)),
        },
        Form::Macro(name, run) => Piece::Define(n, name, defined_as(run, splice)),
        Form::Wrong(fault) => Piece::Refused(fault),
    }
}

/// What begins with `#`: a directive, if only blanks and comments stand before it on its line.
fn hash<'a>(is_head: bool, n: usize, bytes: &'a [u8]) -> Piece<'a>
    requires short { length bytes.now ≤ most_bytes }
    requires some { 0 < n }
    requires within { n ≤ length bytes.now }
    ensures value { seen_piece result ≡ (if is_head then text.directive n (splice_at bytes.now) (form_of (take n bytes.now)) else text.Refused (BadByte 0)) }
    ensures fits { Fits result bytes.now }
{
    if is_head {
        directive(n, bytes)
    } else {
        Piece::Refused(Fault::bad_byte(0))
    }
}

/// The piece at the front of the bytes.
#[tactic(auto, unfolding(species_ast::specs::Text::Pieces::piece_of))]
pub(crate) fn piece_at<'a>(is_head: bool, bytes: &'a [u8]) -> Option<Piece<'a>>
    requires { length bytes.now ≤ most_bytes }
    ensures value { option_map seen_piece result ≡ piece_at is_head bytes.now }
    ensures fits { IfSome result (λ p. Fits p bytes.now) }
{
    if bytes.is_empty() {
        return None;
    }
    let b = bytes[0];
    let more = behind(bytes, 1);
    if is_blank(b) {
        Some(Piece::Space(1))
    } else if bytes.starts_with(b"//") {
        Some(line_comment(1 + line_len(more), bytes))
    } else if bytes.starts_with(b"/*") {
        Some(block_comment(bytes))
    } else if is_letter(b) {
        Some(word(1 + word_len(more), bytes))
    } else if is_digit(b) {
        Some(number(1 + run_more(b, more), bytes))
    } else if b == b'#' {
        Some(hash(is_head, 1 + line_len(more), bytes))
    } else {
        Some(punctuator(bytes))
    }
}
