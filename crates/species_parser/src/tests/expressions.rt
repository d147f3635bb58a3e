//! The value of an assignment. The program has 20 bytes before it.

use super::compare_values;
use std::test::Fail;

static LEVELS: [(&str, &str); 16] = [
    ("a * b / c % d", "(% (/ (* a b) c) d)"),
    ("a + b - c + d", "(+ (- (+ a b) c) d)"),
    ("a << b >> c << d", "(<< (>> (<< a b) c) d)"),
    ("a < b <= c > d >= e", "(>= (> (<= (< a b) c) d) e)"),
    ("a == b != c == d", "(== (!= (== a b) c) d)"),
    ("a & b & c", "(& (& a b) c)"),
    ("a ^ b ^ c", "(^ (^ a b) c)"),
    ("a | b | c", "(| (| a b) c)"),
    ("a && b && c", "(&& (&& a b) c)"),
    ("a || b || c", "(|| (|| a b) c)"),
    (
        "a || b && c | d ^ e & f == g < h << i + j * k",
        "(|| a (&& b (| c (^ d (& e (== f (< g (<< h (+ i (* j k))))))))))",
    ),
    (
        "a * b + c << d < e == f & g ^ h | i && j || k",
        "(|| (&& (| (^ (& (== (< (<< (+ (* a b) c) d) e) f) g) h) i) j) k)",
    ),
    ("a + b * c - d / e", "(- (+ a (* b c)) (/ d e))"),
    ("a & b == c", "(& a (== b c))"),
    ("a - b * c - d", "(- (- a (* b c)) d)"),
    ("a == b < c != d > e", "(!= (== a (< b c)) (> d e))"),
];

static OPERANDS: [(&str, &str); 15] = [
    ("- -a", "(neg (neg a))"),
    ("!~-+a", "(lognot (not (neg (plus a))))"),
    ("-a - -b", "(- (neg a) (neg b))"),
    ("-a * b", "(* (neg a) b)"),
    ("(int)a + b", "(+ (int a) b)"),
    ("(unsigned)(int)a", "(unsigned (int a))"),
    ("(unsigned int)-a * b", "(* (unsigned (neg a)) b)"),
    (
        "~(int)A[i] % (unsigned)2",
        "(% (not (int (A i))) (unsigned 2))",
    ),
    ("(int)(a)", "(int (paren a))"),
    ("((a))", "(paren (paren a))"),
    ("(a - (b - c)) * 2", "(* (paren (- a (paren (- b c)))) 2)"),
    ("A[1][i]", "(A 1 i)"),
    ("A[B[i + 1]][C[j][k]]", "(A (B (+ i 1)) (C j k))"),
    ("4 - 3u + 0x80000000", "(+ (- 4 3u) 2147483648u)"),
    ("a+++b", "Syntax(21)"),
];

static CHOICES: [(&str, &str); 15] = [
    ("a ? b : c", "(? a b c)"),
    ("a ? b : c ? d : e", "(? a b (? c d e))"),
    ("a ? b ? c : d : e", "(? a (? b c d) e)"),
    ("a ? b ? c : d : e ? f : g", "(? a (? b c d) (? e f g))"),
    ("a || b ? c && d : e | f", "(? (|| a b) (&& c d) (| e f))"),
    ("(a ? b : c) ? d : e", "(? (paren (? a b c)) d e)"),
    ("a + b ? c : d + e", "(? (+ a b) c (+ d e))"),
    ("a + (b ? c : d)", "(+ a (paren (? b c d)))"),
    ("(int)a ? b : -c", "(? (int a) b (neg c))"),
    ("A[a ? 0 : 1]", "(A (? a 0 1))"),
    ("a ? b", "Syntax(25)"),
    ("a ? : b", "Syntax(24)"),
    ("a : b", "Syntax(22)"),
    ("a ? b, c : d", "Syntax(25)"),
    ("a ? b : c : d", "Syntax(30)"),
];

static NO_VALUES: [(&str, &str); 15] = [
    ("", "Syntax(20)"),
    ("a +", "Syntax(23)"),
    ("* a", "Syntax(20)"),
    ("a * *b", "Syntax(24)"),
    ("a &&& b", "Syntax(24)"),
    ("a < = b", "Syntax(24)"),
    ("a b", "Syntax(22)"),
    ("a = b", "Syntax(22)"),
    ("a++", "Syntax(21)"),
    ("--a", "Syntax(20)"),
    ("a - --b", "Syntax(24)"),
    ("a, b", "Syntax(21)"),
    ("f()", "Syntax(21)"),
    ("f(a)", "Syntax(21)"),
    ("sizeof a", "Syntax(20)"),
];

static NO_BRACKETS: [(&str, &str); 16] = [
    ("(a", "Syntax(22)"),
    ("a)", "Syntax(21)"),
    ("()", "Syntax(21)"),
    ("(a]", "Syntax(22)"),
    ("A[]", "Syntax(22)"),
    ("A[1", "Syntax(23)"),
    ("A[1)", "Syntax(23)"),
    ("A[1, 2]", "Syntax(23)"),
    ("1 [a]", "Syntax(22)"),
    ("(A)[1]", "Syntax(23)"),
    ("(int)", "Syntax(25)"),
    ("(int a)", "Syntax(25)"),
    ("(int unsigned)a", "Syntax(25)"),
    ("(unsigned int int)a", "Syntax(34)"),
    ("(long)a", "Syntax(25)"),
    ("int", "Syntax(20)"),
];

#[test]
fn operators_are_read_by_their_levels_from_the_left(rt: HostRuntime) -> Result<(), Fail> {
    compare_values(&rt, rt.alloc(), &LEVELS)
}

#[test]
fn operands_are_read_with_what_stands_before_them(rt: HostRuntime) -> Result<(), Fail> {
    compare_values(&rt, rt.alloc(), &OPERANDS)
}

#[test]
fn choices_are_read_from_the_right(rt: HostRuntime) -> Result<(), Fail> {
    compare_values(&rt, rt.alloc(), &CHOICES)
}

#[test]
fn what_is_no_value_is_refused_where_it_stops_being_one(rt: HostRuntime) -> Result<(), Fail> {
    compare_values(&rt, rt.alloc(), &NO_VALUES)
}

#[test]
fn brackets_and_types_that_do_not_fit_are_refused(rt: HostRuntime) -> Result<(), Fail> {
    compare_values(&rt, rt.alloc(), &NO_BRACKETS)
}
