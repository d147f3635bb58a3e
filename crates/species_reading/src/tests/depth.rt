//! Programs that nest as deep as the load allows.
use super::read;
use std::alloc::Global;
use std::process::Abort;
use std::test::Fail;

/// A program in which `front` and `back` stand so many times around a `1` or a `;`.
fn text_of(
    alloc: Global,
    value: bool,
    front: &str,
    back: &str,
    count: usize,
) -> Result<Vec<u8>, Fail> {
    let mut text = Vec::from_slice(alloc, b"int A[4]; void k(void) { ")?;
    text.extend_from_slice(if value { b"A[0] = " } else { b"" })?;
    for _ in 0..count {
        text.extend_from_slice(front.as_bytes())?;
    }
    text.extend_from_slice(if value { b"1" } else { b";" })?;
    for _ in 0..count {
        text.extend_from_slice(back.as_bytes())?;
    }
    text.extend_from_slice(if value { b"; }" } else { b" }" })?;
    Ok(text)
}

fn compare(
    rt: &impl Abort,
    alloc: Global,
    value: bool,
    rows: &[(&str, &str, usize)],
) -> Result<(), Fail> {
    for (front, back, count) in rows {
        let text = text_of(alloc, value, front, back, *count)?;
        assert!(rt; read(alloc, text.as_slice()).is_ok(), "at {front}");
    }
    Ok(())
}

#[test]
fn deep_values_are_read(rt: HostRuntime) -> Result<(), Fail> {
    let rows = [
        ("(", ")", 990),
        ("~", "", 1985),
        ("(int)", "", 660),
        ("A[", "]", 660),
        ("1 ? 1 : ", "", 495),
        ("1 ? ", " : 1", 495),
        ("1 + ", "", 990),
        ("A[(int)-(1 || (", "))]", 152),
    ];
    compare(&rt, rt.alloc(), true, &rows)
}

#[test]
fn deep_statements_are_read(rt: HostRuntime) -> Result<(), Fail> {
    let rows = [
        ("{", "}", 1980),
        ("if (1) ", "", 495),
        ("if (1) ; else ", "", 330),
        ("if (1) {", "}", 396),
    ];
    compare(&rt, rt.alloc(), false, &rows)
}
