//! The types of 64 bits, where arrays and locals are declared, in casts, and where they are none.

use super::{compare_programs, compare_statements, compare_values};
use std::test::Fail;

static DECLARED: [(&str, &str); 9] = [
    ("long long x;", " (declare long-long (x))"),
    ("long long int x = 1, y;", " (declare long-long (x 1) (y))"),
    (
        "unsigned long long x = 2ull;",
        " (declare unsigned-long-long (x 2ull))",
    ),
    (
        "unsigned long long int x, y = A[1];",
        " (declare unsigned-long-long (x) (y (A 1)))",
    ),
    (
        "int x; long long y = -1ll;",
        " (declare int (x)) (declare long-long (y (neg 1ll)))",
    ),
    (
        "unsigned x = 18446744073709551615uLL;",
        " (declare unsigned (x 18446744073709551615ull))",
    ),
    ("x = 9223372036854775807LL;", " (= x 9223372036854775807ll)"),
    ("x = 2147483648;", "Lex(BadNumber(14))"),
    (
        "x = 0x80000000 + 0xFFFFFFFFFll;",
        " (= x (+ 2147483648u 68719476735ll))",
    ),
];

static NOT_DECLARED: [(&str, &str); 13] = [
    ("long int x;", "Syntax(15)"),
    ("long;", "Syntax(14)"),
    ("long unsigned x;", "Syntax(15)"),
    ("long long unsigned x;", "Syntax(20)"),
    ("long long long x;", "Syntax(20)"),
    ("long long int int x;", "Syntax(24)"),
    ("unsigned long x;", "Syntax(24)"),
    ("unsigned long int x;", "Syntax(24)"),
    ("unsigned int long x;", "Syntax(23)"),
    ("int long long x;", "Syntax(14)"),
    ("long long;", "Syntax(19)"),
    ("for (long long i = 0; i < 4; i++) ;", "Syntax(15)"),
    ("if (x) long long y;", "Syntax(17)"),
];

static CAST: [(&str, &str); 7] = [
    ("(long long)a", "(long-long a)"),
    ("(long long int)a + b", "(+ (long-long a) b)"),
    (
        "(unsigned long long)-a * b",
        "(* (unsigned-long-long (neg a)) b)",
    ),
    (
        "(unsigned long long int)(int)a",
        "(unsigned-long-long (int a))",
    ),
    ("(long int)a", "Syntax(26)"),
    ("(int long)a", "Syntax(25)"),
    ("(long long a)", "Syntax(31)"),
];

static ARRAYS: [(&str, &str); 3] = [
    (
        "long long A[1]; unsigned long long int B[2]; static long long int C[3]; void k() {}",
        "(global long-long (A 1)) (global unsigned-long-long (B 2)) (global long-long (C 3)) (void k)",
    ),
    ("long A[1]; void k() {}", "Syntax(5)"),
    ("static unsigned long long void k() {}", "Syntax(26)"),
];

static SUM: &str = "unsigned long long s[1];
unsigned long long A[3];
void k(void) {
    for (int i = 0; i < 3; i++) s[0] += A[i];
}
";

static WIDE_PRODUCT: &str = "long long p[1];
int A[1];
void k(void) {
    for (int i = 0; i < 1; i++) p[0] = A[0] * 2147483647ll;
}
";

static NARROW_PRODUCT: &str = "long long p[1];
int A[1];
void k(void) {
    for (int i = 0; i < 1; i++) p[0] = A[0] * 2147483647;
}
";

#[test]
fn two_words_long_make_a_type(rt: HostRuntime) -> Result<(), Fail> {
    compare_statements(&rt, rt.alloc(), &DECLARED)
}

#[test]
fn other_orders_of_words_are_no_types(rt: HostRuntime) -> Result<(), Fail> {
    compare_statements(&rt, rt.alloc(), &NOT_DECLARED)
}

#[test]
fn casts_name_types_of_two_and_more_words(rt: HostRuntime) -> Result<(), Fail> {
    compare_values(&rt, rt.alloc(), &CAST)
}

#[test]
fn arrays_have_types_of_two_and_more_words(rt: HostRuntime) -> Result<(), Fail> {
    compare_programs(&rt, rt.alloc(), &ARRAYS)
}

#[test]
fn kernels_of_64_bits_are_read(rt: HostRuntime) -> Result<(), Fail> {
    let cases = [
        (
            SUM,
            "(global unsigned-long-long (s 1)) (global unsigned-long-long (A 3)) (void k (for typed i 0 i < 3 (up i) (+= (s 0) (A i))))",
        ),
        (
            WIDE_PRODUCT,
            "(global long-long (p 1)) (global int (A 1)) (void k (for typed i 0 i < 1 (up i) (= (p 0) (* (A 0) 2147483647ll))))",
        ),
        (
            NARROW_PRODUCT,
            "(global long-long (p 1)) (global int (A 1)) (void k (for typed i 0 i < 1 (up i) (= (p 0) (* (A 0) 2147483647))))",
        ),
    ];
    compare_programs(&rt, rt.alloc(), &cases)
}
