//! Texts with their tokens, read whole and in pieces.
use crate::{CutRefusal, Cutter, LexRefusal, Token, TokenTable, Tokens};
use species_io::{MemSource, read_each};
use std::alloc::{AllocError, Global};
use std::process::Abort;
use std::test::Fail;

/// Texts, and their tokens as they were worked out by hand: place, kind and bytes of each, and the
/// refusal that ends them.
static NUMBERS: [(&str, &str); 14] = [
    ("0xE+1", "BadNumber(0)"),
    (
        "0xE + 1",
        "0 Number(Int(14)) 0xE | 4 Punct + | 6 Number(Int(1)) 1",
    ),
    ("x=0xp-1", "0 Name x | 1 Punct = | BadNumber(2)"),
    (
        "5u-1",
        "0 Number(Unsigned(5)) 5u | 2 Punct - | 3 Number(Int(1)) 1",
    ),
    ("017", "BadNumber(0)"),
    ("00", "BadNumber(0)"),
    ("0u", "0 Number(Unsigned(0)) 0u"),
    ("2147483647", "0 Number(Int(2147483647)) 2147483647"),
    ("2147483648", "BadNumber(0)"),
    ("4294967295u", "0 Number(Unsigned(4294967295)) 4294967295u"),
    ("4294967296U", "BadNumber(0)"),
    ("0x80000000", "0 Number(Unsigned(2147483648)) 0x80000000"),
    ("0XFFFFFFFF", "0 Number(Unsigned(4294967295)) 0XFFFFFFFF"),
    ("0x100000000", "BadNumber(0)"),
];

static LONG_NUMBERS: [(&str, &str); 16] = [
    (
        "2147483647ll+2147483648ll",
        "0 Number(Long(2147483647)) 2147483647ll | 12 Punct + | 13 Number(Long(2147483648)) 2147483648ll",
    ),
    (
        "9223372036854775807LL",
        "0 Number(Long(9223372036854775807)) 9223372036854775807LL",
    ),
    ("9223372036854775808ll", "BadNumber(0)"),
    (
        "9223372036854775808ull",
        "0 Number(UnsignedLong(9223372036854775808)) 9223372036854775808ull",
    ),
    (
        "18446744073709551615LLU",
        "0 Number(UnsignedLong(18446744073709551615)) 18446744073709551615LLU",
    ),
    ("18446744073709551616ULL", "BadNumber(0)"),
    ("0x80000000ll", "0 Number(Long(2147483648)) 0x80000000ll"),
    ("0x100000000LL", "0 Number(Long(4294967296)) 0x100000000LL"),
    (
        "0x7fffffffffffffffll",
        "0 Number(Long(9223372036854775807)) 0x7fffffffffffffffll",
    ),
    (
        "0x8000000000000000ll",
        "0 Number(UnsignedLong(9223372036854775808)) 0x8000000000000000ll",
    ),
    (
        "0XFFFFFFFFFFFFFFFFuLL",
        "0 Number(UnsignedLong(18446744073709551615)) 0XFFFFFFFFFFFFFFFFuLL",
    ),
    ("0x10000000000000000ull", "BadNumber(0)"),
    ("1lL", "BadNumber(0)"),
    ("1lul", "BadNumber(0)"),
    ("5ll-1l", "0 Number(Long(5)) 5ll | 3 Punct - | BadNumber(4)"),
    (
        "#define N 5llU\nN",
        "0 Define(UnsignedLong(5)) N | 15 Number(UnsignedLong(5)) N",
    ),
];

static WORDS: [(&str, &str); 12] = [
    ("a <<= b", "0 Name a | 2 Punct <<= | 6 Name b"),
    (
        "a < < = b",
        "0 Name a | 2 Punct < | 4 Punct < | 6 Punct = | 8 Name b",
    ),
    ("a<<<=b", "0 Name a | 1 Punct << | 3 Punct <= | 5 Name b"),
    ("a+++b", "0 Name a | 1 Punct ++ | 3 Punct + | 4 Name b"),
    ("a---b", "0 Name a | 1 Punct -- | 3 Punct - | 4 Name b"),
    ("a->b", "0 Name a | 1 Punct - | 2 Punct > | 3 Name b"),
    ("a|||=b", "0 Name a | 1 Punct || | 3 Punct |= | 5 Name b"),
    ("a!==b", "0 Name a | 1 Punct != | 3 Punct = | 4 Name b"),
    ("a.b", "0 Name a | BadByte(1)"),
    ("@", "BadByte(0)"),
    (
        "int intx Int _Bool _bool _Static_assert static_assert",
        "0 Keyword int | 4 Name intx | 9 Name Int | 13 Keyword _Bool | 19 Name _bool | 25 Keyword _Static_assert | 40 Name static_assert",
    ),
    (
        "int A[4]; void k(void) { A[0] = 1.5; }",
        "0 Keyword int | 4 Name A | 5 Punct [ | 6 Number(Int(4)) 4 | 7 Punct ] | 8 Punct ; | 10 Keyword void | 15 Name k | 16 Punct ( | 17 Keyword void | 21 Punct ) | 23 Punct { | 25 Name A | 26 Punct [ | 27 Number(Int(0)) 0 | 28 Punct ] | 30 Punct = | BadNumber(32)",
    ),
];

static COMMENTS: [(&str, &str); 14] = [
    (
        "int A[4]; /* x",
        "0 Keyword int | 4 Name A | 5 Punct [ | 6 Number(Int(4)) 4 | 7 Punct ] | 8 Punct ; | OpenComment(10)",
    ),
    ("/*/", "OpenComment(0)"),
    ("/**/", ""),
    ("a/* x */b", "0 Name a | 8 Name b"),
    ("/* a /* b */ c", "13 Name c"),
    ("a//b\nc", "0 Name a | 5 Name c"),
    ("a\\\nb", "0 Name a | BadByte(1)"),
    ("a \\ b", "0 Name a | BadByte(2)"),
    ("/* \\\n */a", "8 Name a"),
    ("// x \\\na", "BadByte(5)"),
    ("// x \\\r\na", "BadByte(5)"),
    ("// \\ x\na", "7 Name a"),
    ("// x\\", ""),
    ("// x\\\r", ""),
];

static DEFINITIONS: [(&str, &str); 14] = [
    (
        "N\n#define N 8\nint A[N];",
        "0 Name N | 2 Define(Int(8)) N | 14 Keyword int | 18 Name A | 19 Punct [ | 20 Number(Int(8)) N | 21 Punct ] | 22 Punct ;",
    ),
    (
        "#define N 1\nN1 N",
        "0 Define(Int(1)) N | 12 Name N1 | 15 Number(Int(1)) N",
    ),
    (
        "# /* a */ define/**/N /* b */ 0x10 // c",
        "0 Define(Int(16)) N",
    ),
    ("#define N 017", "BadNumber(10)"),
    ("#define N 0xE+1", "BadNumber(10)"),
    (
        "#define N 1\n#define N 2",
        "0 Define(Int(1)) N | BadByte(12)",
    ),
    (
        "#define N 1\n#define N 017",
        "0 Define(Int(1)) N | BadByte(12)",
    ),
    ("#define int 1", "BadByte(0)"),
    (
        "#define M 1\n#define N M",
        "0 Define(Int(1)) M | BadByte(12)",
    ),
    ("#define N 017 2", "BadByte(0)"),
    ("#define N(x) 1", "BadByte(0)"),
    ("#define N /* x", "OpenComment(10)"),
    ("#define N 1 // \\\n", "BadByte(15)"),
    ("#define N 017 // \\\n", "BadNumber(10)"),
];

static DIRECTIVES: [(&str, &str); 15] = [
    ("#\na", "2 Name a"),
    ("# // \\\n", "BadByte(5)"),
    ("a #define N 1", "0 Name a | BadByte(2)"),
    (
        "x /* a\n b */ #define N 1",
        "0 Name x | 13 Define(Int(1)) N",
    ),
    ("x /* a */ #define N 1", "0 Name x | BadByte(10)"),
    ("#error x", "BadByte(0)"),
    ("#error /* x", "OpenComment(7)"),
    ("#include \"a//b\" // c", "0 Include \"a//b\""),
    ("#include <a\\b>", "0 Include <a\\b>"),
    ("#include<>", "0 Include <>"),
    ("# /* a */ include /* b */ <c> /* d */ ", "0 Include <c>"),
    ("#include <a> x", "BadByte(0)"),
    ("#include <a> /* x", "BadByte(0)"),
    ("# /* include <a>", "OpenComment(2)"),
    ("#include <a> // x \\\n", "BadByte(18)"),
];

static PRAGMAS: [(&str, &str); 16] = [
    ("#pragma scop\na", "13 Name a"),
    (
        "#pragma omp parallel for collapse(2) schedule(static, 64)",
        "0 Parallel(2, StaticBy(64)) #pragma omp parallel for collapse(2) schedule(static, 64)",
    ),
    (
        "#pragma omp parallel for collapse(2)schedule(static)",
        "0 Parallel(2, Static) #pragma omp parallel for collapse(2)schedule(static)",
    ),
    (
        "#pragma omp parallel for  collapse ( 0x8 )/**/schedule\t(dynamic /* x */ ,4)// y",
        "0 Parallel(8, DynamicBy(4)) #pragma omp parallel for  collapse ( 0x8 )/**/schedule\t(dynamic /* x */ ,4)// y",
    ),
    ("#pragma omp parallelfor", ""),
    ("#pragma omp parallel for collapse(1)", ""),
    ("#pragma omp parallel for collapse(2), schedule(static)", ""),
    (
        "#pragma omp atomic update",
        "0 Atomic #pragma omp atomic update",
    ),
    ("#pragma omp parallel for // \\\n", "BadByte(28)"),
    ("#pragma x \\ y", "BadByte(10)"),
    (
        "#pragma species /* u */ a /* v */ b /* w */ // x",
        "0 Species a /* v */ b",
    ),
    ("#pragma species|A", "0 Species |A"),
    ("#pragma species endkernel", ""),
    (
        "#pragma species endkernel /* x */ [0]",
        "0 Species endkernel /* x */ [0]",
    ),
    ("#pragma species A \\ B", "BadByte(18)"),
    (
        "#include <stdint.h>\n/* blur */\n#define N 6\nstatic int a[N];\n#pragma scop\n  N\n",
        "0 Include <stdint.h> | 31 Define(Int(6)) N | 43 Keyword static | 50 Keyword int | 54 Name a | 55 Punct [ | 56 Number(Int(6)) N | 57 Punct ] | 58 Punct ; | 75 Number(Int(6)) N",
    ),
];

/// Tokens in the words of the tables. Where memory runs out the text is too short, so that no test
/// finds it right.
#[derive(Drop)]
struct Shown {
    alloc: Global,
    text: String,
}

impl Shown {
    fn new(alloc: Global) -> Shown {
        Shown {
            alloc,
            text: String::new(alloc),
        }
    }

    fn add(&mut self, part: Result<String, AllocError>) {
        if !self.text.is_empty() {
            let _ = self.text.push_str(" | ");
        }
        if let Ok(part) = part {
            let _ = self.text.push_str(part.as_str());
        }
    }

    fn token(&mut self, token: &Token<'_>) {
        let place = token.place;
        let kind = token.kind;
        let bytes = str::from_utf8(token.text).unwrap_or("?");
        self.add(format!(in self.alloc; "{place} {kind:?} {bytes}"));
    }

    fn refusal(&mut self, refusal: LexRefusal) {
        self.add(format!(in self.alloc; "{refusal:?}"));
    }
}

/// The tokens of a text, and the refusal that ends them.
fn shown_text(alloc: Global, text: &str) -> Shown {
    let mut out = Shown::new(alloc);
    if text.len() > 4194304 {
        return out;
    }
    let mut tokens = Tokens::new(text.as_bytes());
    for _ in 0..1000 {
        match tokens.next() {
            Ok(Some(token)) => out.token(&token),
            Ok(None) => return out,
            Err(refusal) => {
                out.refusal(refusal);
                return out;
            }
        }
    }
    out
}

fn compare(rt: &impl Abort, alloc: Global, cases: &[(&str, &str)]) {
    for (text, want) in cases {
        assert_eq!(rt; shown_text(alloc, text).text.as_str(), *want, "at {text}");
    }
}

fn shown_table(alloc: Global, table: &TokenTable) -> Shown {
    let mut out = Shown::new(alloc);
    let mut tokens = table.cursor();
    for _ in 0..1000 {
        match tokens.next() {
            None => return out,
            Some(token) => out.token(&token),
        }
    }
    out
}

/// The tokens of a table, or the refusal that stands in its place.
fn shown_cut(alloc: Global, found: Result<TokenTable, CutRefusal>) -> Shown {
    match found {
        Ok(table) => shown_table(alloc, &table),
        Err(CutRefusal::Lex(refusal)) => {
            let mut out = Shown::new(alloc);
            out.refusal(refusal);
            out
        }
        Err(CutRefusal::Memory) => {
            let mut out = Shown::new(alloc);
            let _ = out.text.push_str("Memory");
            out
        }
    }
}

/// What a table shows where these things are wanted: all of them, or the refusal that ends them.
fn of_table(want: &str) -> &str {
    for refusal in ["BadByte(", "BadNumber(", "OpenComment("] {
        if let Some(at) = want.find(refusal) {
            return &want[at..];
        }
    }
    want
}

fn in_two(alloc: Global, first: &[u8], second: &[u8]) -> Result<TokenTable, CutRefusal> {
    if first.len() > 1000 || second.len() > 1000 {
        return Err(CutRefusal::Memory);
    }
    let mut cutter = Cutter::new(alloc);
    cutter.feed(first)?;
    cutter.feed(second)?;
    cutter.finish()
}

fn in_pieces(alloc: Global, text: &[u8], piece: usize) -> Result<TokenTable, CutRefusal> {
    let mut bytes = Vec::new(alloc);
    bytes.extend_from_slice(text)?;
    let mut cutter = Cutter::new(alloc);
    let mut input = MemSource::new(bytes, piece.max(1), Vec::new(alloc));
    match read_each(&mut input, 4194304, &mut cutter) {
        Ok(()) => cutter.finish(),
        Err(_) => Err(CutRefusal::Memory),
    }
}

/// A text in two pieces that meet at each place.
fn compare_in_two(rt: &impl Abort, alloc: Global, text: &str, want: &str) {
    let bytes = text.as_bytes();
    for at in 0..bytes.len() {
        let found = shown_cut(alloc, in_two(alloc, &bytes[..at], &bytes[at..]));
        assert_eq!(rt; found.text.as_str(), want, "at {text} in two at {at}");
    }
}

/// A text in pieces of some sizes.
fn compare_in_pieces(rt: &impl Abort, alloc: Global, text: &str, want: &str) {
    for piece in [1, 2, 3, 7, 4096] {
        let found = shown_cut(alloc, in_pieces(alloc, text.as_bytes(), piece));
        assert_eq!(rt; found.text.as_str(), want, "at {text} in pieces of {piece}");
    }
}

/// Each text whole, and however it is cut.
fn compare_all(rt: &impl Abort, alloc: Global, cases: &[(&str, &str)]) {
    compare(rt, alloc, cases);
    for (text, want) in cases {
        let want = of_table(want);
        compare_in_two(rt, alloc, text, want);
        compare_in_pieces(rt, alloc, text, want);
    }
}

#[test]
fn numbers_have_the_tokens_of_the_table(rt: HostRuntime) {
    compare_all(&rt, rt.alloc(), &NUMBERS);
    compare_all(&rt, rt.alloc(), &LONG_NUMBERS);
}

#[test]
fn words_and_comments_have_the_tokens_of_the_table(rt: HostRuntime) {
    compare_all(&rt, rt.alloc(), &WORDS);
    compare_all(&rt, rt.alloc(), &COMMENTS);
}

#[test]
fn directives_have_the_tokens_of_the_table(rt: HostRuntime) {
    compare_all(&rt, rt.alloc(), &DEFINITIONS);
    compare_all(&rt, rt.alloc(), &DIRECTIVES);
}

#[test]
fn pragmas_have_the_tokens_of_the_table(rt: HostRuntime) {
    compare_all(&rt, rt.alloc(), &PRAGMAS);
}

#[test]
fn the_end_and_a_refusal_come_again(rt: HostRuntime) {
    let mut ended = Tokens::new(b"a");
    assert!(rt; matches!(ended.next(), Ok(Some(_))));
    assert!(rt; matches!(ended.next(), Ok(None)));
    assert!(rt; matches!(ended.next(), Ok(None)));
    let mut refused = Tokens::new(b"a @");
    assert!(rt; matches!(refused.next(), Ok(Some(_))));
    let first = refused.next().err();
    assert!(rt; first.is_some());
    assert_eq!(rt; refused.next().err(), first);
}

/// 64 bytes with 7 tokens, of which the first is the only definition.
static HEAD: &str = "#define N 64\nint A[N]; /* there is no other definition below */\n";

/// 64 bytes with 20 tokens.
static BODY: &str = "A[i] = A[i] + N * 3; // next\nx = y - 0x1F; /* N is not in it */\n";

/// How many tokens a text has, if none is refused.
fn count(text: &[u8]) -> Option<usize> {
    if text.len() > 4194304 {
        return None;
    }
    let mut tokens = Tokens::new(text);
    for before in 0..4194304 {
        match tokens.next() {
            Ok(Some(_)) => {}
            Ok(None) => return Some(before),
            Err(_) => return None,
        }
    }
    None
}

/// The time that this takes grows with the length of the text: names are looked up only in its first
/// line.
#[test]
fn a_text_of_four_mebibytes_is_cut_at_once(rt: HostRuntime) -> Result<(), Fail> {
    let mut text = String::new(rt.alloc());
    text.push_str(HEAD)?;
    for _ in 0..65535 {
        text.push_str(BODY)?;
    }
    assert_eq!(rt; text.len(), 4194304);
    assert_eq!(rt; count(text.as_bytes()), Some(7 + 65535 * 20));
    Ok(())
}
