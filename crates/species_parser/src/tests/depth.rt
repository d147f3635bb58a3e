//! The load, trees that are as deep as it lets them be, and a program of the greatest size.

use super::answer;
use std::alloc::Global;
use std::process::Abort;
use std::test::Fail;

/// A program that has parts in it over and over.
struct Frame {
    start: &'static str,
    middle: &'static str,
    end: &'static str,
}

static VALUE: Frame = Frame {
    start: "void k() { x = ",
    middle: "a",
    end: "; }",
};

static STATEMENT: Frame = Frame {
    start: "void k() {",
    middle: ";",
    end: "}",
};

static ONES: Frame = Frame {
    start: "int A[4]; void k(void) { A[0] = ",
    middle: "1",
    end: "; }",
};

static BAD_BYTE: Frame = Frame {
    start: ";",
    middle: "@",
    end: "",
};

static OPEN: Frame = Frame {
    start: ";",
    middle: "",
    end: "",
};

static GREATEST: Frame = Frame {
    start: "void k() {",
    middle: "",
    end: " }",
};

/// Where memory runs out the text is too short, so that no test finds it right.
fn add(text: &mut Vec<u8>, part: &str, count: usize) {
    for _ in 0..count {
        let _ = text.extend_from_slice(part.as_bytes());
    }
}

/// The program in which the first part stands so often before the middle, and the second behind it.
fn text_of(alloc: Global, frame: &Frame, open: &str, close: &str, count: usize) -> Vec<u8> {
    let mut text = Vec::new(alloc);
    add(&mut text, frame.start, 1);
    add(&mut text, open, count);
    add(&mut text, frame.middle, 1);
    add(&mut text, close, count);
    add(&mut text, frame.end, 1);
    text
}

/// How many brackets are open at once.
fn depth_of(shown: &str) -> u32 {
    let mut open: u32 = 0;
    let mut most = 0;
    for byte in shown.bytes() {
        match byte {
            b'(' => open = open.saturating_add(1),
            b')' => open = open.saturating_sub(1),
            _ => {}
        }
        most = open.max(most);
    }
    most
}

fn compare_depths(
    rt: &impl Abort,
    alloc: Global,
    frame: &Frame,
    cases: &[(&str, &str, usize, u32)],
) -> Result<(), Fail> {
    for (open, close, count, want) in cases {
        let text = text_of(alloc, frame, open, close, *count);
        let found = answer(alloc, &text, false)?;
        assert_eq!(rt; depth_of(&found), *want, "at {open}");
    }
    Ok(())
}

fn compare_refusals(
    rt: &impl Abort,
    alloc: Global,
    frame: &Frame,
    cases: &[(&str, &str, usize, &str)],
) -> Result<(), Fail> {
    for (open, close, count, want) in cases {
        let text = text_of(alloc, frame, open, close, *count);
        let found = answer(alloc, &text, false)?;
        assert_eq!(rt; found.as_str(), *want, "at {open}");
    }
    Ok(())
}

/// Two brackets stand around each value.
#[test]
fn values_nest_as_deep_as_the_load_allows(rt: HostRuntime) -> Result<(), Fail> {
    let cases = [
        ("(", ")", 995, 997),
        ("~", "", 1991, 1993),
        ("- ", "", 1991, 1993),
        ("(int)", "", 663, 665),
        ("A[", "]", 663, 665),
        ("a ? a : ", "", 497, 499),
        ("a ? ", " : a", 497, 499),
        (
            "a || a && a | a ^ a & a == a < a << a + a * (",
            ")",
            90,
            992,
        ),
        ("a + ", "", 995, 997),
        ("A[(int)-(a || (", "))]", 153, 920),
    ];
    compare_depths(&rt, rt.alloc(), &VALUE, &cases)
}

/// One bracket stands around each statement, and the innermost is one.
#[test]
fn statements_nest_as_deep_as_the_load_allows(rt: HostRuntime) -> Result<(), Fail> {
    let cases = [
        ("{", "}", 1994, 1996),
        ("if (a) ", "", 498, 500),
        ("if (a) ; else ", "", 332, 334),
        ("if (a) {", "}", 398, 798),
        ("for (i = 0; i < 4; i++) ", "", 153, 155),
        ("for (i = 0; i < 4; i++) {", "}", 142, 286),
    ];
    compare_depths(&rt, rt.alloc(), &STATEMENT, &cases)
}

#[test]
fn values_that_are_deeper_or_left_open_are_refused(rt: HostRuntime) -> Result<(), Fail> {
    let cases = [
        ("(", ")", 996, "Load(2008)"),
        ("~", "", 1992, "Load(2008)"),
        ("(", "", 1993, "Load(2008)"),
        ("(", "", 1990, "Syntax(2006)"),
        ("A[", "", 995, "Syntax(2006)"),
        ("A[(", "", 663, "Syntax(2005)"),
        ("a ? ", "", 995, "Syntax(3996)"),
        ("a || (", "", 663, "Syntax(3994)"),
    ];
    compare_refusals(&rt, rt.alloc(), &VALUE, &cases)
}

#[test]
fn statements_that_are_deeper_or_left_open_are_refused(rt: HostRuntime) -> Result<(), Fail> {
    let cases = [
        ("{", "}", 1995, "Load(2005)"),
        ("if (a) ", "", 499, "Load(3501)"),
        ("{", "", 1994, "Syntax(2006)"),
    ];
    compare_refusals(&rt, rt.alloc(), &STATEMENT, &cases)
}

/// `A[0] = 1 + 1 + .. + 1`, with one more one than there are signs.
#[test]
fn a_sum_of_994_ones_is_read(rt: HostRuntime) -> Result<(), Fail> {
    let alloc = rt.alloc();
    compare_depths(&rt, alloc, &ONES, &[("1 + ", "", 993, 995)])?;
    compare_refusals(&rt, alloc, &ONES, &[("1 + ", "", 994, "Load(4009)")])
}

#[test]
fn tokens_are_refused_before_the_load(rt: HostRuntime) -> Result<(), Fail> {
    let alloc = rt.alloc();
    compare_refusals(
        &rt,
        alloc,
        &BAD_BYTE,
        &[("(", "", 2001, "Lex(BadByte(2002))")],
    )?;
    let cases = [("(", "", 2001, "Load(2001)"), ("(", "", 2000, "Syntax(0)")];
    compare_refusals(&rt, alloc, &OPEN, &cases)
}

/// Eight bytes are shown of each of the statements, and eight around all of them.
#[test]
fn a_program_of_the_greatest_size_is_read(rt: HostRuntime) -> Result<(), Fail> {
    let alloc = rt.alloc();
    let text = text_of(alloc, &GREATEST, "x=1;", "", 1048573);
    assert_eq!(rt; text.len(), 4194304);
    assert_eq!(rt; answer(alloc, &text, false)?.len(), 8 * 1048573 + 8);
    Ok(())
}
