//! Texts that are refused: each number and place is worked out by hand.
use super::read;
use crate::{Limit, ProgramRefusal, ScopeRefusal};
use std::alloc::{AllocError, Global};
use std::process::Abort;
use std::test::Fail;

fn compare(rt: &impl Abort, alloc: Global, rows: &[(&str, ScopeRefusal)]) -> Result<(), Fail> {
    for (text, refusal) in rows {
        let found = read(alloc, text.as_bytes()).err();
        assert_eq!(rt; found, Some(ProgramRefusal::Scope(*refusal)), "{text}");
    }
    Ok(())
}

#[test]
fn refuses_unknown(rt: HostRuntime) -> Result<(), Fail> {
    let rows: [(&str, ScopeRefusal); 14] = [
        (
            "int a[8]; void f(void) { u = 1; }",
            ScopeRefusal::Unknown(25),
        ),
        (
            "int a[8]; void f(void) { a[u] = 1; }",
            ScopeRefusal::Unknown(27),
        ),
        (
            "int a[8]; void f(void) { a[0] = u[1]; }",
            ScopeRefusal::Unknown(32),
        ),
        (
            "int a[8]; void f(void) { a[0] = f; }",
            ScopeRefusal::Unknown(32),
        ),
        (
            "int a[8]; void f(void) { f = 1; }",
            ScopeRefusal::Unknown(25),
        ),
        (
            "int a[8]; void f(void) { { int t = 1; } a[0] = t; }",
            ScopeRefusal::Unknown(47),
        ),
        (
            "int a[8]; void f(void) { if (a[0]) { int t = 1; } else a[0] = t; }",
            ScopeRefusal::Unknown(62),
        ),
        (
            "int a[8]; void f(void) { for (int i = 0; i < 8; i++) a[i] = 1; a[i] = 2; }",
            ScopeRefusal::Unknown(65),
        ),
        (
            "int a[8]; void f(void) { for (int i = i; i < 8; i++) a[i] = 1; }",
            ScopeRefusal::Unknown(38),
        ),
        (
            "int a[8]; void f(void) { for (t = 0; t < 8; t++) a[t] = 1; }",
            ScopeRefusal::Unknown(30),
        ),
        (
            "int a[8]; void f(void) { for (int i = 0; j < 8; i++) a[i] = 1; }",
            ScopeRefusal::Unknown(41),
        ),
        (
            "int a[8]; void f(void) { for (int i = 0; i < 8; j++) a[i] = 1; }",
            ScopeRefusal::Unknown(48),
        ),
        (
            "int a[n]; int n[2]; void f(void) { }",
            ScopeRefusal::Unknown(6),
        ),
        (
            "int a[8]; void f(void) { int t = u, u = 1; }",
            ScopeRefusal::Unknown(33),
        ),
    ];
    compare(&rt, rt.alloc(), &rows)
}

#[test]
fn refuses_duplicate(rt: HostRuntime) -> Result<(), Fail> {
    let rows: [(&str, ScopeRefusal); 12] = [
        (
            "int a[8], a[4]; void f(void) { }",
            ScopeRefusal::Duplicate(10),
        ),
        (
            "int a[8]; unsigned b[2], a[8]; void f(void) { }",
            ScopeRefusal::Duplicate(25),
        ),
        ("int a[8]; void a(void) { }", ScopeRefusal::Duplicate(15)),
        (
            "int a[8]; void f(void) { int a; }",
            ScopeRefusal::Duplicate(29),
        ),
        (
            "int a[8]; void f(void) { int f; }",
            ScopeRefusal::Duplicate(29),
        ),
        (
            "int a[8]; void f(void) { int t, t; }",
            ScopeRefusal::Duplicate(32),
        ),
        (
            "int a[8]; void f(void) { int t; { unsigned t; } }",
            ScopeRefusal::Duplicate(43),
        ),
        (
            "int a[8]; void f(void) { int t; if (t) { int t; } }",
            ScopeRefusal::Duplicate(45),
        ),
        (
            "int a[8]; void f(void) { for (int a = 0; a < 8; a++) ; }",
            ScopeRefusal::Duplicate(34),
        ),
        (
            "int a[8]; void f(void) { for (int i = 0; i < 8; i++) for (int i = 0; i < 8; i++) ; }",
            ScopeRefusal::Duplicate(62),
        ),
        (
            "int a[8]; void f(void) { for (int i = 0; i < 8; i++) { int i; } }",
            ScopeRefusal::Duplicate(59),
        ),
        (
            "int a[8]; void f(void) { int t; for (int t = 0; t < 8; t++) ; }",
            ScopeRefusal::Duplicate(41),
        ),
    ];
    compare(&rt, rt.alloc(), &rows)
}

#[test]
fn refuses_counts(rt: HostRuntime) -> Result<(), Fail> {
    let rows: [(&str, ScopeRefusal); 14] = [
        (
            "int a[8]; void f(void) { a = 1; }",
            ScopeRefusal::DimensionCount(25),
        ),
        (
            "int a[8]; void f(void) { a[0][1] = 1; }",
            ScopeRefusal::DimensionCount(25),
        ),
        (
            "int a[8]; int m[4][6]; void f(void) { m[0] = 1; }",
            ScopeRefusal::DimensionCount(38),
        ),
        (
            "int a[8]; int m[4][6]; void f(void) { a[0] = m; }",
            ScopeRefusal::DimensionCount(45),
        ),
        (
            "int a[8]; void f(void) { int t; t[0] = 1; }",
            ScopeRefusal::DimensionCount(32),
        ),
        (
            "int a[8]; void f(void) { for (int i = 0; i < 8; i++) a[0] = i[0]; }",
            ScopeRefusal::DimensionCount(60),
        ),
        (
            "int a[8]; void f(void) { a[a] = 1; }",
            ScopeRefusal::DimensionCount(27),
        ),
        (
            "int a[8]; void f(void) { a[0] += a[0] + a; }",
            ScopeRefusal::DimensionCount(40),
        ),
        (
            "int a[8]; void f(void) { for (int i = 0; i < 8; i++) i = 2; }",
            ScopeRefusal::IteratorAssigned(53),
        ),
        (
            "int a[8]; void f(void) { for (int i = 0; i < 8; i++) i++; }",
            ScopeRefusal::IteratorAssigned(53),
        ),
        (
            "int a[8]; void f(void) { for (int i = 0; i < 8; i++) { { i += 1; } } }",
            ScopeRefusal::IteratorAssigned(57),
        ),
        (
            "int a[8]; void f(void) { int t; for (t = 0; t < 8; t++) t = 1; }",
            ScopeRefusal::IteratorAssigned(56),
        ),
        (
            "int a[8]; void f(void) { unsigned t; for (t = 0; t < 8; t++) ; }",
            ScopeRefusal::IteratorAssigned(42),
        ),
        (
            "int a[8]; void f(void) { int t = 1; for (t = 0; t < 8; t++) ; }",
            ScopeRefusal::IteratorAssigned(41),
        ),
    ];
    compare(&rt, rt.alloc(), &rows)
}

#[test]
fn refuses_outside(rt: HostRuntime) -> Result<(), Fail> {
    let rows: [(&str, ScopeRefusal); 10] = [
        (
            "int a[8]; void f(void) { for (a = 0; a < 8; a++) ; }",
            ScopeRefusal::IteratorAssigned(30),
        ),
        (
            "int a[8]; void f(void) { for (int i = 0; i < 8; i++) for (i = 0; i < 8; i++) ; }",
            ScopeRefusal::IteratorAssigned(58),
        ),
        (
            "int a[8]; void f(void) { int t; for (t = 0; t < 8; t++) ; a[0] = t; }",
            ScopeRefusal::IteratorOutside(65),
        ),
        (
            "int a[8]; void f(void) { int t; a[t] = 1; for (t = 0; t < 8; t++) ; }",
            ScopeRefusal::IteratorOutside(34),
        ),
        (
            "int a[8]; void f(void) { int t; for (t = t; t < 8; t++) ; }",
            ScopeRefusal::IteratorOutside(41),
        ),
        (
            "int a[8]; void f(void) { int t; t = 1; for (t = 0; t < 8; t++) ; }",
            ScopeRefusal::IteratorOutside(32),
        ),
        (
            "int a[8]; void f(void) { int t; for (int i = 0; t < 8; i++) ; for (t = 0; t < 8; t++) ; }",
            ScopeRefusal::IteratorOutside(48),
        ),
        (
            "int a[8]; void f(void) { int t, u = t; for (t = 0; t < 8; t++) ; }",
            ScopeRefusal::IteratorOutside(36),
        ),
        (
            "int a[8]; void f(void) { if (a[0]) { int t; for (t = 0; t < 8; t++) ; t++; } }",
            ScopeRefusal::IteratorOutside(70),
        ),
        (
            "int a[8]; void f(void) { long long t; for (t = 0; t < 8; t++) ; }",
            ScopeRefusal::IteratorAssigned(43),
        ),
    ];
    compare(&rt, rt.alloc(), &rows)
}

#[test]
fn refuses_static(rt: HostRuntime) -> Result<(), Fail> {
    let rows: [(&str, ScopeRefusal); 13] = [
        (
            "int a[8]; void f(void) { int t = 4; for (int i = t; i < 8; i++) ; }",
            ScopeRefusal::NotStatic(49),
        ),
        (
            "int a[8]; void f(void) { int t = 4; for (int i = 0; i < t; i++) ; }",
            ScopeRefusal::NotStatic(56),
        ),
        (
            "int a[8]; void f(void) { for (int i = 0; i < a[0]; i++) ; }",
            ScopeRefusal::NotStatic(45),
        ),
        (
            "int a[8]; void f(void) { for (int i = 0; i < i + 8; i++) ; }",
            ScopeRefusal::NotStatic(45),
        ),
        (
            "int a[8]; void f(void) { for (int i = 0; i < i - i + 8; i++) ; }",
            ScopeRefusal::NotStatic(45),
        ),
        (
            "int a[8]; void f(void) { for (int i = 0; i < 8u; i++) ; }",
            ScopeRefusal::NotStatic(45),
        ),
        (
            "int a[8]; void f(void) { for (int i = 8 / 2; i < 8; i++) ; }",
            ScopeRefusal::NotStatic(38),
        ),
        (
            "int a[8]; void f(void) { for (int i = (int) 1; i < 8; i++) ; }",
            ScopeRefusal::NotStatic(38),
        ),
        (
            "int a[8]; void f(void) { for (int i = 0; i < 8; i++) for (int j = i * i; j < 8; j++) ; }",
            ScopeRefusal::NotStatic(66),
        ),
        ("int a[8u]; void f(void) { }", ScopeRefusal::NotStatic(6)),
        (
            "int a[2][4 / 2]; void f(void) { }",
            ScopeRefusal::NotStatic(9),
        ),
        (
            "int a[2]; int b[a[0]]; void f(void) { }",
            ScopeRefusal::NotStatic(16),
        ),
        (
            "int a[8]; void f(void) { for (int i = 2147483647 + 1; i < 8; i++) ; }",
            ScopeRefusal::NotStatic(38),
        ),
    ];
    compare(&rt, rt.alloc(), &rows)
}

#[test]
fn refuses_step(rt: HostRuntime) -> Result<(), Fail> {
    let rows: [(&str, ScopeRefusal); 11] = [
        (
            "int a[8]; void f(void) { for (int i = 0; i < 8; i--) ; }",
            ScopeRefusal::BadStep(25),
        ),
        (
            "int a[8]; void f(void) { for (int i = 8; i > 0; i++) ; }",
            ScopeRefusal::BadStep(25),
        ),
        (
            "int a[8]; void f(void) { for (int i = 0; i <= 8; i += 0) ; }",
            ScopeRefusal::BadStep(25),
        ),
        (
            "int a[8]; void f(void) { for (int i = 0; i < 8; i -= 1) ; }",
            ScopeRefusal::BadStep(25),
        ),
        (
            "int a[8]; void f(void) { for (int i = 0; i < 8; i += 4 / 2) ; }",
            ScopeRefusal::BadStep(25),
        ),
        (
            "int a[8]; void f(void) { for (int i = 0; i < 8; i = i - 1) ; }",
            ScopeRefusal::BadStep(25),
        ),
        (
            "int a[8]; void f(void) { int t = 2; for (int i = 0; i < 8; i += t) ; }",
            ScopeRefusal::BadStep(36),
        ),
        (
            "int a[8]; void f(void) { for (int i = 0; i < 8; i++) for (int j = 0; i < 8; j++) ; }",
            ScopeRefusal::BadStep(53),
        ),
        (
            "int a[8]; void f(void) { for (int i = 0; i < 8; i++) for (int j = 0; j < 8; i++) ; }",
            ScopeRefusal::BadStep(53),
        ),
        (
            "int a[8]; void f(void) { for (int i = 0; i < 8; i++) for (int j = 0; j < 8; j = i + 1) ; }",
            ScopeRefusal::BadStep(53),
        ),
        (
            "int a[8]; void f(void) { for (int i = 0; i < 8; i++) for (int j = 0; j < 8; j += i) ; }",
            ScopeRefusal::BadStep(53),
        ),
    ];
    compare(&rt, rt.alloc(), &rows)
}

#[test]
fn refuses_limits(rt: HostRuntime) -> Result<(), Fail> {
    let rows: [(&str, ScopeRefusal); 10] = [
        (
            "int a[1][1][1][1][1]; void f(void) { }",
            ScopeRefusal::Limit(Limit::Dims, 4),
        ),
        (
            "int a[0]; void f(void) { }",
            ScopeRefusal::Limit(Limit::Elements, 4),
        ),
        (
            "int a[2], b[4096][4097]; void f(void) { }",
            ScopeRefusal::Limit(Limit::Elements, 10),
        ),
        (
            "int a[0 - 1]; void f(void) { }",
            ScopeRefusal::Limit(Limit::Elements, 4),
        ),
        (
            "int a[8]; void f(void) { for (int i = 0; i <= 1073741825; i++) ; }",
            ScopeRefusal::Limit(Limit::Hull, 25),
        ),
        (
            "int a[8]; void f(void) { for (int i = 0 - 1073741825; i < 0; i++) ; }",
            ScopeRefusal::Limit(Limit::Hull, 25),
        ),
        (
            "int a[8]; void f(void) { for (int i = 0; i < 100000; i += 65537) ; }",
            ScopeRefusal::Limit(Limit::Step, 25),
        ),
        (
            "int a[8]; void f(void) { for (int i = 8; i > 0; i -= 65537) ; }",
            ScopeRefusal::Limit(Limit::Step, 25),
        ),
        (
            "int a[8]; void f(void) { for (int i = 0; i < 1000000000; i++) for (int j = 3 * i - 2 * i - i; j < 8; j++) ; }",
            ScopeRefusal::Limit(Limit::Bound, 62),
        ),
        (
            "int a[8]; void f(void) { for (int b = 0; b < 2; b++) for (int c = 0; c < 2; c++) for (int d = 0; d < 2; d++) for (int e = 0; e < 2; e++) for (int g = 0; g < 2; g++) for (int h = 0; h < 2; h++) for (int i = 0; i < 2; i++) for (int j = 0; j < 2; j++) for (int k = 0; k < 2; k++) ; }",
            ScopeRefusal::Limit(Limit::Loops, 249),
        ),
    ];
    compare(&rt, rt.alloc(), &rows)
}

#[test]
fn refuses_marks(rt: HostRuntime) -> Result<(), Fail> {
    let rows: [(&str, ScopeRefusal); 12] = [
        (
            "int a[8]; void f(void) { \n#pragma omp parallel for collapse(2)\nfor (int i = 0; i < 8; i++) a[i] = 1; }",
            ScopeRefusal::BadMark(63),
        ),
        (
            "int a[8]; void f(void) { \n#pragma omp parallel for\nfor (int i = 0; i < 8; i++) {\n#pragma omp parallel for\nfor (int j = 0; j < 8; j++) ; } }",
            ScopeRefusal::BadMark(106),
        ),
        (
            "int a[8]; void f(void) { \n#pragma omp parallel for collapse(2)\nfor (int i = 0; i < 8; i++) for (int j = i; j < 8; j++) ; }",
            ScopeRefusal::BadMark(63),
        ),
        (
            "int a[8]; void f(void) { \n#pragma omp parallel for collapse(2)\nfor (int i = 0; i < 8; i++) { for (int j = 0; j < 8; j++) ; a[0] = 1; } }",
            ScopeRefusal::BadMark(63),
        ),
        (
            "int a[8]; void f(void) { \n#pragma omp parallel for collapse(3)\nfor (int i = 0; i < 8; i++) for (int j = 0; j < 8; j++) ; }",
            ScopeRefusal::BadMark(63),
        ),
        (
            "int a[8]; void f(void) { u = v; int a; }",
            ScopeRefusal::Unknown(25),
        ),
        (
            "int a[8]; void f(void) { int a; u = 1; }",
            ScopeRefusal::Duplicate(29),
        ),
        (
            "int a[8]; void f(void) { for (int i = 0; i < 8u; i--) u = 1; }",
            ScopeRefusal::Unknown(54),
        ),
        (
            "int a[8]; void f(void) { for (int i = 0; i < 8u; i--) ; }",
            ScopeRefusal::BadStep(25),
        ),
        (
            "int a[0]; void f(void) { for (int i = 0; i < 8u; i++) ; }",
            ScopeRefusal::NotStatic(45),
        ),
        (
            "int a[0][1][1][1][1]; void f(void) { }",
            ScopeRefusal::Limit(Limit::Dims, 4),
        ),
        (
            "int a[8]; void f(void) { for (int i = 0; i < 2000000000; i += 65537) ; }",
            ScopeRefusal::Limit(Limit::Hull, 25),
        ),
    ];
    compare(&rt, rt.alloc(), &rows)
}

/// A loop of so many additions, each of which is a read and a write.
fn additions(alloc: Global, count: usize) -> Result<Vec<u8>, AllocError> {
    let mut text = Vec::new(alloc);
    text.extend_from_slice(b"int a[8]; void f(void) { for (int i = 0; i < 8; i++) {")?;
    for _ in 0..count {
        text.extend_from_slice(b" a[i] += 1;")?;
    }
    text.extend_from_slice(b" } }")?;
    Ok(text)
}

#[test]
fn counts_references(rt: HostRuntime) -> Result<(), Fail> {
    let alloc = rt.alloc();
    let most = additions(alloc, 256)?;
    assert!(rt; read(alloc, most.as_slice()).is_ok());
    let more = additions(alloc, 257)?;
    let refusal = ScopeRefusal::Limit(Limit::References, 25);
    let found = read(alloc, more.as_slice()).err();
    assert_eq!(rt; found, Some(ProgramRefusal::Scope(refusal)));
    Ok(())
}
