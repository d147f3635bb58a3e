//! Blanks and comments, and how far they go.
ghost use Rattle.std.specs.Prelude.{◌≡◌, ◌≤◌, ◌<◌, ◌+◌, length, IfSome, codes, IsTrue};
ghost use Rattle.species_ast.specs.Text.Characters.{begins};
ghost use Rattle.species_ast.specs.Text.Comments.{closing_len, comment_len, last_backslash, splice_at, closed_len, blank_len, gap_len, plain_len, content_len};

use species_ast::{is_blank, line_len};

/// How many bytes there are up to the first `*/`, with it.
fn closing_len(bytes: &[u8]) -> Option<usize>
    ensures value { result ≡ closing_len bytes.now }
    ensures within { IfSome result (λ n. n ≤ length bytes.now) }
{
    for at in 0..bytes.len() {
        if bytes[at..].starts_with(b"*/") {
            return Some(at + 2);
        }
    }
    None
}

/// The length of the comment whose `/*` stands at the front, if it is closed.
pub(crate) fn comment_len(bytes: &[u8]) -> Option<usize>
    requires { IsTrue (begins (codes "/*") bytes.now) }
    ensures value { result ≡ comment_len bytes.now }
    ensures within { IfSome result (λ n. n ≤ length bytes.now) }
{
    closing_len(&bytes[2..]).map(|n| n + 2)
}

fn last_backslash(line: &[u8]) -> Option<usize>
    ensures value { result ≡ last_backslash line.now }
    ensures within { IfSome result (λ at. at < length line.now) }
{
    if line.ends_with(b"\\") {
        Some(line.len() - 1)
    } else if line.ends_with(b"\\\r") {
        Some(line.len() - 2)
    } else {
        None
    }
}

/// The backslash with which the first line goes on behind its line feed.
pub(crate) fn splice_at(bytes: &[u8]) -> Option<usize>
    ensures value { result ≡ splice_at bytes.now }
    ensures within { IfSome result (λ at. at < length bytes.now) }
{
    let n = line_len(bytes);
    if n < bytes.len() {
        last_backslash(&bytes[..n])
    } else {
        None
    }
}

/// The length of a closed comment at the front, or 0.
fn closed_len(bytes: &[u8]) -> usize
    ensures value { result ≡ closed_len bytes.now }
    ensures within { result ≤ length bytes.now }
{
    if bytes.starts_with(b"/*") {
        comment_len(bytes).unwrap_or(0)
    } else {
        0
    }
}

fn blank_len(bytes: &[u8]) -> usize
    ensures value { result ≡ blank_len bytes.now }
    ensures within { result ≤ length bytes.now }
{
    match bytes {
        [] => 0,
        [b, ..] => { if is_blank(*b) { 1 } else { closed_len(bytes) } }
    }
}

/// How many bytes the blanks and comments at the front of a line have.
pub(crate) fn gap_len(line: &[u8]) -> usize
    ensures value { result ≡ gap_len line.now }
    ensures within { result ≤ length line.now }
{
    let mut at = 0;
    loop {
        let n = blank_len(&line[at..]);
        if n == 0 {
            return at;
        }
        at += n;
    }
}

fn plain_len(bytes: &[u8]) -> usize
    ensures value { result ≡ plain_len bytes.now }
    ensures within { result ≤ length bytes.now }
{
    if bytes.is_empty() || bytes.starts_with(b"//") {
        0
    } else if bytes.starts_with(b"/*") {
        closed_len(bytes)
    } else {
        1
    }
}

/// How many bytes of a directive's line are read: those before a `//`, or before a `/*` that is not
/// closed on the line.
pub(crate) fn content_len(line: &[u8]) -> usize
    ensures value { result ≡ content_len line.now }
    ensures within { result ≤ length line.now }
{
    let mut at = 0;
    loop {
        let n = plain_len(&line[at..]);
        if n == 0 {
            return at;
        }
        at += n;
    }
}
