//! What stands in the block of a function. The program has 10 bytes before it.

use super::compare_statements;
use std::test::Fail;

static DECLARATIONS: [(&str, &str); 16] = [
    ("int x;", " (declare int (x))"),
    (
        "int x = 1, y, z = x + 2;",
        " (declare int (x 1) (y) (z (+ x 2)))",
    ),
    (
        "unsigned x, y = A[1], z;",
        " (declare unsigned (x) (y (A 1)) (z))",
    ),
    ("unsigned int x = 3u;", " (declare unsigned (x 3u))"),
    (
        "int x; x = 1; int y;",
        " (declare int (x)) (= x 1) (declare int (y))",
    ),
    ("int long x;", "Syntax(14)"),
    ("long x;", "Syntax(15)"),
    ("int unsigned x;", "Syntax(14)"),
    ("const int x;", "Syntax(10)"),
    ("static int x;", "Syntax(10)"),
    ("int;", "Syntax(13)"),
    ("int x y;", "Syntax(16)"),
    ("int x,;", "Syntax(16)"),
    ("int x[4];", "Syntax(15)"),
    ("int x = ;", "Syntax(18)"),
    ("int x = 1", "Syntax(19)"),
];

static CHANGES: [(&str, &str); 7] = [
    ("x = 1;", " (= x 1)"),
    (
        "x += 1; x -= 2; x *= 3; x /= 4; x %= 5;",
        " (+= x 1) (-= x 2) (*= x 3) (/= x 4) (%= x 5)",
    ),
    (
        "x &= 1; x ^= 2; x |= 3; x <<= 4; x >>= 5;",
        " (&= x 1) (^= x 2) (|= x 3) (<<= x 4) (>>= x 5)",
    ),
    (
        "x++; ++x; x--; --x;",
        " (up x) (up-before x) (down x) (down-before x)",
    ),
    (
        "A[i]++; ++A[i][j]; A[i][j]--; --A[0];",
        " (up (A i)) (up-before (A i j)) (down (A i j)) (down-before (A 0))",
    ),
    ("A[i][j + 1] *= b - c;", " (*= (A i (+ j 1)) (- b c))"),
    ("A[B[i]] = A[A[0]];", " (= (A (B i)) (A (A 0)))"),
];

static NO_CHANGES: [(&str, &str); 15] = [
    ("a = b = c;", "Syntax(16)"),
    ("a, b;", "Syntax(11)"),
    ("a;", "Syntax(11)"),
    ("f();", "Syntax(11)"),
    ("1 = a;", "Syntax(10)"),
    ("(a) = 1;", "Syntax(10)"),
    ("-a;", "Syntax(10)"),
    ("a++ = 1;", "Syntax(14)"),
    ("++a++;", "Syntax(13)"),
    ("++ ++a;", "Syntax(13)"),
    ("a =", "Syntax(13)"),
    ("a = 1", "Syntax(15)"),
    ("a == 1;", "Syntax(12)"),
    ("A[1] x = 2;", "Syntax(15)"),
    ("= 1;", "Syntax(10)"),
];

static BRANCHES: [(&str, &str); 13] = [
    ("", ""),
    (";;{}", " (empty) (empty) (block)"),
    (
        "{;}{{}{int x;}}",
        " (block (empty)) (block (block) (block (declare int (x))))",
    ),
    ("if (a) b = 1;", " (if a (= b 1))"),
    (
        "if ((a)) ++x; else c = 2;",
        " (if (paren a) (up-before x) (= c 2))",
    ),
    (
        "if (a) if (b) x = 1; else x = 2;",
        " (if a (if b (= x 1) (= x 2)))",
    ),
    (
        "if (a) if (b) x = 1; else x = 2; else x = 3;",
        " (if a (if b (= x 1) (= x 2)) (= x 3))",
    ),
    (
        "if (a) { if (b) x = 1; } else x = 2;",
        " (if a (block (if b (= x 1))) (= x 2))",
    ),
    (
        "if (a) x = 1; else if (b) x = 2; else x = 3;",
        " (if a (= x 1) (if b (= x 2) (= x 3)))",
    ),
    (
        "if (a) for (i = 0; i < 4; i++) if (b) x = 1; else x = 2;",
        " (if a (for i 0 i < 4 (up i) (if b (= x 1) (= x 2))))",
    ),
    (
        "if (a) for (i = 0; i < 4; i++) if (b) x = 1; else x = 2; else x = 3;",
        " (if a (for i 0 i < 4 (up i) (if b (= x 1) (= x 2))) (= x 3))",
    ),
    ("if (a ? b : c) ; else ;", " (if (? a b c) (empty) (empty))"),
    (
        "if (a) {} else {} x = 1;",
        " (if a (block) (block)) (= x 1)",
    ),
];

static NO_BRANCHES: [(&str, &str); 15] = [
    ("if a) x = 1;", "Syntax(13)"),
    ("if () x = 1;", "Syntax(14)"),
    ("if (a x = 1;", "Syntax(16)"),
    ("if (x = 1) {}", "Syntax(16)"),
    ("if (a)", "Syntax(16)"),
    ("if (a) int x;", "Syntax(17)"),
    ("if (a) x = 1; else int y;", "Syntax(29)"),
    ("if (a) x = 1 else x = 2;", "Syntax(23)"),
    ("if (a) x = 1;;else x = 2;", "Syntax(24)"),
    ("if (a) {} else {} else {}", "Syntax(28)"),
    ("else x = 1;", "Syntax(10)"),
    ("while (a) x = 1;", "Syntax(10)"),
    ("return;", "Syntax(10)"),
    ("{ x = 1; )", "Syntax(19)"),
    ("{", "Syntax(12)"),
];

#[test]
fn declarations_have_a_type_and_names(rt: HostRuntime) -> Result<(), Fail> {
    compare_statements(&rt, rt.alloc(), &DECLARATIONS)
}

#[test]
fn changes_have_a_target(rt: HostRuntime) -> Result<(), Fail> {
    compare_statements(&rt, rt.alloc(), &CHANGES)
}

#[test]
fn what_is_no_change_is_refused(rt: HostRuntime) -> Result<(), Fail> {
    compare_statements(&rt, rt.alloc(), &NO_CHANGES)
}

#[test]
fn an_else_belongs_to_the_nearest_if(rt: HostRuntime) -> Result<(), Fail> {
    compare_statements(&rt, rt.alloc(), &BRANCHES)
}

#[test]
fn branches_and_blocks_that_are_broken_are_refused(rt: HostRuntime) -> Result<(), Fail> {
    compare_statements(&rt, rt.alloc(), &NO_BRANCHES)
}
