//! The next token of a text, with names looked up in the text before it.
ghost use Rattle.std.specs.Prelude.{true, ◌≡◌, ◌≤◌, ◌<◌, ◌+◌, length, drop, option_map, IfSome, Option, Some, None};
ghost use Rattle.species_ast.specs.Limits.{most_bytes};
ghost use Rattle.std.specs.List.{list_any};
ghost use Rattle.species_ast.specs.Text.Characters.{is_line_feed};
ghost use Rattle.species_ast.specs.Text.Stream.{look_up, head_behind};
ghost use Rattle.species_lexer.specs.Pieces.{seen_piece, piece_at, Fits};
ghost use Rattle.species_lexer.specs.Cursor.{over, before_at, stream_at, IsAt, DefinedBefore};
ghost use Rattle.species_lexer.specs.Found.{space_in, length_in, definition_in, head_after, kind_of, IsSolid, StopsAt, AnswersAt};

use crate::piece::Piece;
use crate::pieces::piece_at;
use crate::slices::{behind, front};
use crate::token::Token;
use species_ast::{LexRefusal, TokenKind, Value};

fn has_line_feed(bytes: &[u8]) -> bool
    ensures { result ≡ list_any is_line_feed bytes.now }
{
    bytes.iter().any(|b| *b == b'\n')
}

/// Whether only blanks and comments stand on the line behind these, which are one.
pub(crate) fn head_behind(is_head: bool, space: &[u8]) -> bool
    ensures { result ≡ head_behind is_head space.now }
{
    if is_head { true } else { has_line_feed(space) }
}

/// A place in a program at which a piece begins, or its end.
#[derive(Clone, Copy)]
pub(crate) struct Stop<'a> {
    pub at: usize,
    pub is_head: bool,
    pub piece: Option<Piece<'a>>,
}

/// A token, the place behind it, and the place behind the last `#define` up to there, 0 if there is none.
#[derive(Clone, Copy)]
pub(crate) struct Step<'a> {
    pub token: Token<'a>,
    pub at: usize,
    pub defined: usize,
}

/// How many bytes a blank, a comment or a skipped directive has, and 0 for everything else.
fn space_in(piece: Option<Piece>) -> usize
    ensures { result ≡ space_in piece.entry }
{
    match piece {
        Some(Piece::Space(n)) => n,
        _ => 0,
    }
}

/// The next place at which something else than a blank, a comment or a skipped directive stands.
fn past_spaces<'a>(text: &'a [u8], start: usize, starts_line: bool) -> Stop<'a>
    requires short { length text.now ≤ most_bytes }
    requires within { start ≤ length text.now }
    requires reached { IsAt text.now start starts_line }
    ensures { StopsAt text.now start result }
{
    let mut at = start;
    let mut is_head = starts_line;
    loop {
        let rest = behind(text, at);
        let piece = piece_at(is_head, rest);
        let n = space_in(piece);
        if n == 0 {
            return Stop { at, is_head, piece };
        }
        is_head = head_behind(is_head, front(rest, n));
        at += n;
    }
}

/// The length of a piece, and 0 for a refusal and the end.
pub(crate) fn length_in(piece: Option<Piece>) -> usize
    ensures { result ≡ length_in piece.entry }
{
    match piece {
        Some(Piece::Space(n)) => n,
        Some(Piece::Lexeme(n, _, _)) => n,
        Some(Piece::Define(n, _, _)) => n,
        _ => 0,
    }
}

/// The literal that the piece gives this name.
fn definition_in(piece: Option<Piece>, name: &[u8]) -> Option<Value>
    ensures { result ≡ definition_in piece.entry name.now }
{
    match piece {
        Some(Piece::Define(_, defined, Ok(value))) => {
            if defined == name { Some(value) } else { None }
        }
        _ => None,
    }
}

/// Whether only blanks and comments stand on the line behind a piece, which has these bytes.
fn head_after(piece: Option<Piece>, is_head: bool, bytes: &[u8]) -> bool
    ensures { result ≡ head_after piece.entry is_head bytes.now }
{
    match piece {
        Some(Piece::Space(_)) => head_behind(is_head, bytes),
        _ => false,
    }
}

/// The literal that a name was given before a place. It goes through the pieces before that place
/// again, so that no table is kept.
fn literal_before(text: &[u8], at: usize, name: &[u8]) -> Option<Value>
    requires short { length text.now ≤ most_bytes }
    requires within { at ≤ length text.now }
    requires reached { over text.now 0 at true ≡ Some (before_at text.now at) }
    ensures { result ≡ look_up (before_at text.now at).definitions name.now }
{
    let mut from = 0;
    let mut is_head = true;
    while from < at {
        let rest = behind(text, from);
        let piece = piece_at(is_head, rest);
        let found = definition_in(piece, name);
        if found.is_some() {
            return found;
        }
        let n = length_in(piece);
        if n == 0 {
            return None;
        }
        is_head = head_after(piece, is_head, front(rest, n));
        from += n;
    }
    None
}

/// What a token is, where a name may be defined before its place.
fn kind_before(text: &[u8], at: usize, word: &[u8], kind: TokenKind) -> TokenKind
    requires short { length text.now ≤ most_bytes }
    requires within { at ≤ length text.now }
    requires reached { over text.now 0 at true ≡ Some (before_at text.now at) }
    ensures { result ≡ kind_of (look_up (before_at text.now at).definitions word.now) kind }
{
    match kind {
        TokenKind::Name => match literal_before(text, at, word) {
            Some(value) => TokenKind::Number(value),
            None => TokenKind::Name,
        },
        _ => kind,
    }
}

/// The token that is a piece at a place. Names are looked up only before `defined`, the place behind
/// the last definition.
fn token_at<'a>(
    text: &'a [u8],
    at: usize,
    defined: usize,
    piece: Piece<'a>,
) -> Result<Option<Step<'a>>, LexRefusal>
    requires short { length text.now ≤ most_bytes }
    requires within { at ≤ length text.now }
    requires piece { Some (seen_piece piece) ≡ piece_at (before_at text.now at).is_head (drop at text.now) }
    requires fits { Fits piece (drop at text.now) }
    requires solid { IsSolid (Some piece) }
    requires reached { over text.now 0 at true ≡ Some (before_at text.now at) }
    requires definitions { DefinedBefore text.now defined at }
    ensures { AnswersAt text.entry.now at result }
{
    let place = at as u32;
    match piece {
        Piece::Space(_) => Ok(None),
        Piece::Refused(fault) => Err(fault.at(place)),
        Piece::Lexeme(n, word, kind) => {
            let token = Token {
                place,
                text: word,
                kind: kind_before(text, defined, word, kind),
            };
            Ok(Some(Step {
                token,
                at: at + n,
                defined,
            }))
        }
        Piece::Define(n, name, value) => {
            if literal_before(text, defined, name).is_some() {
                return Err(LexRefusal::BadByte(place));
            }
            match value {
                Err(fault) => Err(fault.at(place)),
                Ok(literal) => {
                    let token = Token {
                        place,
                        text: name,
                        kind: TokenKind::Define(literal),
                    };
                    Ok(Some(Step {
                        token,
                        at: at + n,
                        defined: at + n,
                    }))
                }
            }
        }
    }
}

/// The next token from a place on, where `defined` is the place behind the last definition.
pub(crate) fn next_token<'a>(
    text: &'a [u8],
    at: usize,
    is_head: bool,
    defined: usize,
) -> Result<Option<Step<'a>>, LexRefusal>
    requires short { length text.now ≤ most_bytes }
    requires within { at ≤ length text.now }
    requires reached { IsAt text.now at is_head }
    requires definitions { DefinedBefore text.now defined at }
    ensures { AnswersAt text.entry.now at result }
{
    let stop = past_spaces(text, at, is_head);
    match stop.piece {
        None => Ok(None),
        Some(piece) => token_at(text, stop.at, defined, piece),
    }
}
