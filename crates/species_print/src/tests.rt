//! Trees with their texts.
mod calls;
mod copies;
mod kernels;
mod trees;

use crate::print;
use species_ast::{OutOfMemory, Unit, strip};
use std::alloc::Global;
use std::process::Abort;
use std::test::Fail;
use trees::{arrays, set, unit};

fn printed(alloc: Global, made: &Unit) -> Result<Vec<u8>, OutOfMemory> {
    let plain = strip(alloc, made, true)?;
    print(alloc, &plain)
}

fn value_text(alloc: Global, codes: &str) -> Result<Vec<u8>, OutOfMemory> {
    let made = unit(alloc, arrays(alloc, &[]), set(alloc, codes)?);
    printed(alloc, &made)
}

static BRACKETS: [(&str, &str); 11] = [
    ("ab-c-", "a - b - c"),
    ("abc--", "a - (b - c)"),
    ("a1n-", "a - -1"),
    ("1nn", "-(-1)"),
    ("mn", "-(-1)"),
    ("an~", "~-a"),
    ("ab&c=", "(a & b) == c"),
    ("abc=&", "a & b == c"),
    ("abc?12?", "(a ? b : c) ? 1 : 2"),
    ("0abc?2?", "0 ? a ? b : c : 2"),
    ("01abc??", "0 ? 1 : a ? b : c"),
];

static KINDS: [(&str, &str); 6] = [
    ("a1+u", "(unsigned)(a + 1)"),
    ("aun", "-(unsigned)a"),
    ("lx+", "9223372036854775807ll + 18446744073709551615ull"),
    ("kn", "-(-1ll)"),
    ("aLn", "-(long long)a"),
    ("a1+U", "(unsigned long long)(a + 1)"),
];

fn compare_values(rt: &impl Abort, alloc: Global, cases: &[(&str, &str)]) -> Result<(), Fail> {
    for (codes, want) in cases {
        let found = String::from_utf8(value_text(alloc, codes)?)?;
        let wanted = format!(in alloc; "void k(void) {{\n    a = {want};\n}}\n")?;
        assert_eq!(rt; found.as_str(), wanted.as_str());
    }
    Ok(())
}

#[test]
fn brackets_stand_where_they_are_needed(rt: HostRuntime) -> Result<(), Fail> {
    compare_values(&rt, rt.alloc(), &BRACKETS)?;
    compare_values(&rt, rt.alloc(), &KINDS)
}
