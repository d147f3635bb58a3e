//! Whole programs, and what ends them.

use super::compare_programs;
use std::test::Fail;

static UNITS: [(&str, &str); 10] = [
    ("void k(void) {}", "(void k)"),
    ("static void k() {}", "(void k)"),
    ("int A[4]; void k() {}", "(global int (A 4)) (void k)"),
    (
        "static int a[N][6], b[2 * 3]; void k() {}",
        "(global int (a N 6) (b (* 2 3))) (void k)",
    ),
    (
        "unsigned A[1]; unsigned int B[2], C[3][4]; static unsigned D[(5)]; void k() {}",
        "(global unsigned (A 1)) (global unsigned (B 2) (C 3 4)) (global unsigned (D (paren 5))) (void k)",
    ),
    (
        "#include <a>\nint A[1];\n#include \"b\"\nvoid k() {}",
        "(include <a>) (global int (A 1)) (include \"b\") (void k)",
    ),
    (
        "#define N 6\nint A[N][N + 1];\nvoid k() { A[0][0] = N; }",
        "(global int (A 6 (+ 6 1))) (void k (= (A 0 0) 6))",
    ),
    (
        "int A[N];\n#define N 6u\nvoid k() { A[N] = 1; }\n#define M 2\n",
        "(global int (A N)) (void k (= (A 6u) 1))",
    ),
    (" /* a */ void k /* b */ ( ) { } // c", "(void k)"),
    ("#pragma once\nvoid k() {}\n#pragma endscop\n", "(void k)"),
];

static NO_UNITS: [(&str, &str); 15] = [
    ("void k() {} ;", "Syntax(12)"),
    ("void k() {}}", "Syntax(11)"),
    ("void k() {} int A[4];", "Syntax(12)"),
    ("void k() {} void j() {}", "Syntax(12)"),
    ("void k() {}\n#include <a>", "Syntax(12)"),
    ("void k() {\n#include <a>\n}", "Syntax(11)"),
    ("void k() {}\n#pragma species x\n", "Syntax(12)"),
    ("#pragma species x\nvoid k() {}", "Syntax(0)"),
    ("#pragma omp atomic update\nvoid k() {}", "Syntax(0)"),
    ("void k(int x) {}", "Syntax(7)"),
    ("void k(void void) {}", "Syntax(12)"),
    ("void k {}", "Syntax(7)"),
    ("void k();", "Syntax(8)"),
    ("int k() {}", "Syntax(5)"),
    ("#define k 6\nvoid k() {}", "Syntax(17)"),
];

static NO_GLOBALS: [(&str, &str); 14] = [
    ("int A; void k() {}", "Syntax(5)"),
    ("int A[]; void k() {}", "Syntax(6)"),
    ("int A[4] = 1; void k() {}", "Syntax(9)"),
    ("int A[4], ; void k() {}", "Syntax(10)"),
    ("int A[4] int B[4]; void k() {}", "Syntax(9)"),
    ("int A[4], int B[4]; void k() {}", "Syntax(10)"),
    ("; void k() {}", "Syntax(0)"),
    ("extern int A[1]; void k() {}", "Syntax(0)"),
    ("static static int A[1]; void k() {}", "Syntax(7)"),
    ("static\n#include <a>\nvoid k() {}", "Syntax(7)"),
    ("int static A[1]; void k() {}", "Syntax(4)"),
    ("unsigned long A[1]; void k() {}", "Syntax(14)"),
    ("A[1]; void k() {}", "Syntax(0)"),
    ("#define N 6\nint N[4];\nvoid k() {}", "Syntax(16)"),
];

static ENDS: [(&str, &str); 17] = [
    ("", "Syntax(0)"),
    ("#include <a>\n", "Syntax(13)"),
    ("static", "Syntax(6)"),
    ("int A[4]; ", "Syntax(10)"),
    ("int A[4]", "Syntax(8)"),
    ("int A[4", "Syntax(7)"),
    ("void", "Syntax(4)"),
    ("void k", "Syntax(6)"),
    ("void k(void", "Syntax(11)"),
    ("void k()", "Syntax(8)"),
    ("void k() {\n", "Syntax(11)"),
    ("void k() { x", "Syntax(12)"),
    ("void k() { x = 1; /* c */ ", "Syntax(26)"),
    ("void k() { if (a", "Syntax(16)"),
    ("void k() { if (a) {} else", "Syntax(25)"),
    ("void k() {\n#pragma species x\n", "Syntax(29)"),
    (
        "int A[4];\nvoid k(void) {\n    for (int i = 0; i <",
        "Syntax(48)",
    ),
];

static ORDER: [(&str, &str); 8] = [
    (") @", "Lex(BadByte(2))"),
    (") 017", "Lex(BadNumber(2))"),
    ("int x /* y", "Lex(OpenComment(6))"),
    ("void k() { A[0] = 1.5; }", "Lex(BadNumber(18))"),
    ("017 @", "Lex(BadNumber(0))"),
    ("int A[4]; /* x", "Lex(OpenComment(10))"),
    (
        "int A[4]; void k(void) { A[0] = 1.5; }",
        "Lex(BadNumber(32))",
    ),
    ("#define N 017", "Lex(BadNumber(10))"),
];

#[test]
fn programs_have_headers_arrays_and_a_function(rt: HostRuntime) -> Result<(), Fail> {
    compare_programs(&rt, rt.alloc(), &UNITS)
}

#[test]
fn what_is_not_in_its_place_is_refused(rt: HostRuntime) -> Result<(), Fail> {
    compare_programs(&rt, rt.alloc(), &NO_UNITS)
}

#[test]
fn arrays_that_are_broken_are_refused(rt: HostRuntime) -> Result<(), Fail> {
    compare_programs(&rt, rt.alloc(), &NO_GLOBALS)
}

#[test]
fn a_program_that_ends_early_is_refused_at_its_end(rt: HostRuntime) -> Result<(), Fail> {
    compare_programs(&rt, rt.alloc(), &ENDS)
}

#[test]
fn tokens_are_refused_before_anything_else(rt: HostRuntime) -> Result<(), Fail> {
    compare_programs(&rt, rt.alloc(), &ORDER)
}
