//! The keywords (C17 6.4.1), the punctuators (C17 6.4.6), and the limits on a text.
ghost use Rattle.std.specs.Prelude.{◌≡◌, ◌≤◌, length, map, bytes_eq};
ghost use Rattle.std.specs.List.{list_any};
ghost use Rattle.species_ast.specs.Text.Words.{is_keyword, first_len, punctuator_len};

/// The greatest size of a program, in bytes.
pub const MOST_BYTES: u32 = 4_194_304;

/// The greatest load of a program's tokens.
pub const MOST_LOAD: u32 = 2_000;

const KEYWORDS: [&str; 44] = [
    "auto",
    "break",
    "case",
    "char",
    "const",
    "continue",
    "default",
    "do",
    "double",
    "else",
    "enum",
    "extern",
    "float",
    "for",
    "goto",
    "if",
    "inline",
    "int",
    "long",
    "register",
    "restrict",
    "return",
    "short",
    "signed",
    "sizeof",
    "static",
    "struct",
    "switch",
    "typedef",
    "union",
    "unsigned",
    "void",
    "volatile",
    "while",
    "_Alignas",
    "_Alignof",
    "_Atomic",
    "_Bool",
    "_Complex",
    "_Generic",
    "_Imaginary",
    "_Noreturn",
    "_Static_assert",
    "_Thread_local",
];

/// Each before those that it begins with.
const PUNCTUATORS: [&str; 43] = [
    "<<=", ">>=", "+=", "-=", "*=", "/=", "%=", "&=", "|=", "^=", "<<", ">>", "<=", ">=", "==",
    "!=", "&&", "||", "++", "--", "(", ")", "[", "]", "{", "}", ";", ",", "?", ":", "=", "+", "-",
    "*", "/", "%", "<", ">", "!", "~", "&", "|", "^",
];

/// Whether a word is one of these.
pub fn is_one_of(words: &[&str], word: &[u8]) -> bool
    ensures { result ≡ list_any (bytes_eq word.now) (map (λ w. w.now) words.now) }
{
    for other in words {
        if word == other.as_bytes() {
            return true;
        }
    }
    false
}

/// The length of the first of the words with which the bytes begin, or 0.
fn first_len(words: &[&str], bytes: &[u8]) -> usize
    ensures value { result ≡ first_len (map (λ w. w.now) words.now) bytes.now }
    ensures within { result ≤ length bytes.now }
{
    for word in words {
        if bytes.starts_with(word.as_bytes()) {
            return word.len();
        }
    }
    0
}

/// Whether these bytes are a keyword, which is never a name.
pub fn is_keyword(word: &[u8]) -> bool
    ensures { result ≡ is_keyword word.now }
{
    is_one_of(&KEYWORDS, word)
}

/// The length of the longest punctuator at the front, or 0.
#[tactic(auto, unfolding(crate::specs::Text::Words::punctuators))]
pub fn punctuator_len(bytes: &[u8]) -> usize
    ensures value { result ≡ punctuator_len bytes.now }
    ensures within { result ≤ length bytes.now }
{
    first_len(&PUNCTUATORS, bytes)
}
