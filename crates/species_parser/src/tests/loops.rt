//! Loops and their pragmas, in the block of a function. The program has 10 bytes before them.

use super::compare_statements;
use std::test::Fail;

static HEADERS: [(&str, &str); 13] = [
    (
        "for (int i = 0; i < 4; i++) ;",
        " (for typed i 0 i < 4 (up i) (empty))",
    ),
    (
        "for (i = 0; i <= 4; ++i) {}",
        " (for i 0 i <= 4 (up-before i) (block))",
    ),
    (
        "for (int i = 9; i > 4; i--) ;",
        " (for typed i 9 i > 4 (down i) (empty))",
    ),
    (
        "for (i = 9; i >= 4; --i) {}",
        " (for i 9 i >= 4 (down-before i) (block))",
    ),
    (
        "for (int i = 0; i < 4; i += 2 + 1) {}",
        " (for typed i 0 i < 4 (+= i (+ 2 1)) (block))",
    ),
    (
        "for (i = 9; i > 4; i -= a ? 1 : 2) {}",
        " (for i 9 i > 4 (-= i (? a 1 2)) (block))",
    ),
    (
        "for (i = 0; i < 4; i = i + -1 / 2) {}",
        " (for i 0 i < 4 (=+ i i (/ (neg 1) 2)) (block))",
    ),
    (
        "for (i = 9; i > 4; i = j - 2 * k) {}",
        " (for i 9 i > 4 (=- i j (* 2 k)) (block))",
    ),
    (
        "for (i = 0; i < 4; i = i + (1 + 2)) {}",
        " (for i 0 i < 4 (=+ i i (paren (+ 1 2))) (block))",
    ),
    (
        "for (i = a + 1; j < N - 1; k++) {}",
        " (for i (+ a 1) j < (- N 1) (up k) (block))",
    ),
    (
        "for (i = 0; i < a < b; i++) {}",
        " (for i 0 i < (< a b) (up i) (block))",
    ),
    (
        "for (i = b ? 0 : 1; i < b ? 2 : 3; i++) {}",
        " (for i (? b 0 1) i < (? b 2 3) (up i) (block))",
    ),
    (
        "for (i = 0; i < 4; i++) for (int j = i; j >= 0; j--) A[i][j] = 1;",
        " (for i 0 i < 4 (up i) (for typed j i j >= 0 (down j) (= (A i j) 1)))",
    ),
];

static NO_STEPS: [(&str, &str); 13] = [
    ("for (i = 0; i < 4;) ;", "Syntax(28)"),
    ("for (i = 0; i < 4; i) ;", "Syntax(30)"),
    ("for (i = 0; i < 4; i++ ;", "Syntax(33)"),
    ("for (i = 0; i < 4; i++, j++) ;", "Syntax(32)"),
    ("for (i = 0; i < 4; i *= 2) ;", "Syntax(31)"),
    ("for (i = 0; i < 4; A[0]++) ;", "Syntax(30)"),
    ("for (i = 0; i < 4; i = i) ;", "Syntax(34)"),
    ("for (i = 0; i < 4; i = i * 2) ;", "Syntax(35)"),
    ("for (i = 0; i < 4; i = 1 + i) ;", "Syntax(33)"),
    ("for (i = 0; i < 4; i = A[0] + 2) ;", "Syntax(34)"),
    ("for (i = 0; i < 4; i = i + 1 + 2) ;", "Syntax(39)"),
    ("for (i = 0; i < 4; i = i + 2 << 1) ;", "Syntax(39)"),
    ("for (i = 0; i < 4; i = i + b ? 1 : 2) ;", "Syntax(39)"),
];

static NO_HEADERS: [(&str, &str); 14] = [
    ("for(;;) ;", "Syntax(14)"),
    ("for (i = 0;; i++) ;", "Syntax(21)"),
    ("for i = 0; i < 4; i++) ;", "Syntax(14)"),
    ("for (unsigned i = 0; i < 4; i++) ;", "Syntax(15)"),
    ("for (int i; i < 4; i++) ;", "Syntax(20)"),
    ("for (A[0] = 0; i < 4; i++) ;", "Syntax(16)"),
    ("for (i += 0; i < 4; i++) ;", "Syntax(17)"),
    ("for (int i = 0, j = 0; i < 4; i++) ;", "Syntax(24)"),
    ("for (i = 0; 4 > i; i++) ;", "Syntax(22)"),
    ("for (i = 0; i == 4; i++) ;", "Syntax(24)"),
    ("for (i = 0; i != 4; i++) ;", "Syntax(24)"),
    ("for (i = 0; i < 4) ;", "Syntax(27)"),
    ("for (i = 0; i < 4; i++)", "Syntax(33)"),
    ("for (i = 0; i < 4; i++) int x;", "Syntax(34)"),
];

static PRAGMAS: [(&str, &str); 8] = [
    (
        "\n#pragma species A[0:3]|x -> B // y\nfor (i = 0; i < 4; i++) ;",
        " (for (line A[0:3]|x -> B) i 0 i < 4 (up i) (empty))",
    ),
    (
        "\n#pragma omp parallel for\nfor (i = 0; i < 4; i++) ;",
        " (for (parallel 1 Static) i 0 i < 4 (up i) (empty))",
    ),
    (
        "\n#pragma species none -> none\n#pragma omp parallel for collapse(2) schedule(static, 64)\nfor (i = 0; i < 4; i++) ;",
        " (for (line none -> none) (parallel 2 StaticBy(64)) i 0 i < 4 (up i) (empty))",
    ),
    (
        "for (j = 0; j < 4; j++)\n#pragma omp parallel for schedule(dynamic, 8)\nfor (i = 0; i < 4; i++) ;",
        " (for j 0 j < 4 (up j) (for (parallel 1 DynamicBy(8)) i 0 i < 4 (up i) (empty)))",
    ),
    (
        "\n#pragma omp atomic update\nA[i] += 1;",
        " (atomic += (A i) 1)",
    ),
    (
        "if (a)\n#pragma omp atomic update\nx += b ? c : d;\nelse\n#pragma species y\nfor (i = 0; i < 4; i++) ;",
        " (if a (atomic += x (? b c d)) (for (line y) i 0 i < 4 (up i) (empty)))",
    ),
    ("\n#pragma scop\nx = 1;\n#pragma endscop\n", " (= x 1)"),
    (
        "\n#pragma species endkernel\nx = 1 +\n#pragma omp for\n2;",
        " (= x (+ 1 2))",
    ),
];

static NO_LOOPS: [(&str, &str); 14] = [
    (
        "\n#pragma omp parallel for\n#pragma species x\nfor (i = 0; i < 4; i++) ;",
        "Syntax(36)",
    ),
    (
        "\n#pragma species x\n#pragma species y\nfor (i = 0; i < 4; i++) ;",
        "Syntax(29)",
    ),
    (
        "\n#pragma omp parallel for\n#pragma omp parallel for\nfor (i = 0; i < 4; i++) ;",
        "Syntax(36)",
    ),
    ("\n#pragma species x\nx = 1;", "Syntax(29)"),
    ("\n#pragma species x\nint y;", "Syntax(29)"),
    ("\n#pragma omp parallel for\n{}", "Syntax(36)"),
    ("\n#pragma species x\n", "Syntax(29)"),
    ("x = 1\n#pragma species y\n;", "Syntax(16)"),
    ("\n#pragma omp atomic update\nA = 1;", "Syntax(39)"),
    ("\n#pragma omp atomic update\nA++;", "Syntax(38)"),
    ("\n#pragma omp atomic update\n++A;", "Syntax(37)"),
    (
        "\n#pragma omp atomic update\nfor (i = 0; i < 4; i++) ;",
        "Syntax(37)",
    ),
    ("\n#pragma omp atomic update\n{ A += 1; }", "Syntax(37)"),
    (
        "\n#pragma omp atomic update\n#pragma species x\nA += 1;",
        "Syntax(37)",
    ),
];

#[test]
fn headers_have_a_start_a_test_and_a_step(rt: HostRuntime) -> Result<(), Fail> {
    compare_statements(&rt, rt.alloc(), &HEADERS)
}

#[test]
fn what_is_no_step_is_refused(rt: HostRuntime) -> Result<(), Fail> {
    compare_statements(&rt, rt.alloc(), &NO_STEPS)
}

#[test]
fn what_is_no_header_is_refused(rt: HostRuntime) -> Result<(), Fail> {
    compare_statements(&rt, rt.alloc(), &NO_HEADERS)
}

#[test]
fn pragmas_stand_before_what_they_mark(rt: HostRuntime) -> Result<(), Fail> {
    compare_statements(&rt, rt.alloc(), &PRAGMAS)
}

#[test]
fn pragmas_before_anything_else_are_refused(rt: HostRuntime) -> Result<(), Fail> {
    compare_statements(&rt, rt.alloc(), &NO_LOOPS)
}
