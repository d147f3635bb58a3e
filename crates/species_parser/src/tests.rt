//! Programs with the trees, places or refusals that they are read as.
mod depth;
mod examples;
mod expressions;
mod loops;
mod places;
mod shown;
mod statements;
mod tables;
mod types;
mod units;

use crate::{RawUnit, parse};
use shown::{Shown, put_unit};
use species_ast::MOST_BYTES;
use std::alloc::Global;
use std::process::Abort;
use std::test::Fail;

/// A program with a gap, and what is shown around that which stands in the gap.
struct Setting {
    before: &'static str,
    behind: &'static str,
    shown_before: &'static str,
    shown_behind: &'static str,
    places: bool,
}

static VALUE: Setting = Setting {
    before: "void k(void) { x =  ",
    behind: "; }",
    shown_before: "(void k (= x ",
    shown_behind: "))",
    places: false,
};

static STATEMENT: Setting = Setting {
    before: "void k() {",
    behind: "}",
    shown_before: "(void k",
    shown_behind: ")",
    places: false,
};

static PROGRAM: Setting = Setting {
    before: "",
    behind: "",
    shown_before: "",
    shown_behind: "",
    places: false,
};

static PROGRAM_WITH_PLACES: Setting = Setting {
    before: "",
    behind: "",
    shown_before: "",
    shown_behind: "",
    places: true,
};

/// A tree as a text.
fn tree_text(alloc: Global, unit: &RawUnit<'_>, places: bool) -> Result<String, Fail> {
    let mut out = Shown::new(alloc, places);
    put_unit(unit, &mut out);
    Ok(String::from_utf8(out.into_text())?)
}

/// What is answered of a text.
fn answer(alloc: Global, text: &[u8], places: bool) -> Result<String, Fail> {
    if text.len() > MOST_BYTES as usize {
        return Ok(String::new(alloc));
    }
    match parse(alloc, text) {
        Ok(unit) => tree_text(alloc, &unit, places),
        Err(refusal) => Ok(format!(in alloc; "{refusal:?}")?),
    }
}

/// A text between two others.
fn joined(alloc: Global, before: &str, text: &str, behind: &str) -> Result<String, Fail> {
    Ok(format!(in alloc; "{before}{text}{behind}")?)
}

fn is_refusal(want: &str) -> bool {
    want.starts_with("Syntax(") || want.starts_with("Load(") || want.starts_with("Lex(")
}

/// The answer that is wanted of a program with a gap: a refusal, or a tree.
fn wanted(alloc: Global, setting: &Setting, want: &str) -> Result<String, Fail> {
    if is_refusal(want) {
        Ok(want.to_string(alloc)?)
    } else {
        joined(alloc, setting.shown_before, want, setting.shown_behind)
    }
}

/// The answer to a program with this text in its gap.
fn found(alloc: Global, setting: &Setting, text: &str) -> Result<String, Fail> {
    let program = joined(alloc, setting.before, text, setting.behind)?;
    answer(alloc, program.as_bytes(), setting.places)
}

fn compare(
    rt: &impl Abort,
    alloc: Global,
    setting: &Setting,
    cases: &[(&str, &str)],
) -> Result<(), Fail> {
    for (text, want) in cases {
        let found = found(alloc, setting, text)?;
        let wanted = wanted(alloc, setting, want)?;
        assert_eq!(rt; found.as_str(), wanted.as_str(), "at {text}");
    }
    Ok(())
}

fn compare_values(rt: &impl Abort, alloc: Global, cases: &[(&str, &str)]) -> Result<(), Fail> {
    compare(rt, alloc, &VALUE, cases)
}

fn compare_statements(rt: &impl Abort, alloc: Global, cases: &[(&str, &str)]) -> Result<(), Fail> {
    compare(rt, alloc, &STATEMENT, cases)
}

fn compare_programs(rt: &impl Abort, alloc: Global, cases: &[(&str, &str)]) -> Result<(), Fail> {
    compare(rt, alloc, &PROGRAM, cases)
}

fn compare_places(rt: &impl Abort, alloc: Global, cases: &[(&str, &str)]) -> Result<(), Fail> {
    compare(rt, alloc, &PROGRAM_WITH_PLACES, cases)
}
