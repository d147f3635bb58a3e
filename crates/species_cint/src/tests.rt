//! The operators at their edges. The expected values were worked out by hand from C's rules.
use super::*;
use species_ast::Binary::*;
use species_ast::Unary::{LogNot, Neg, Not};
use species_ast::Undefined::{BadShift, DivZero, Overflow};
use species_ast::Value::{Int, Long, Unsigned, UnsignedLong};
use std::process::Abort;

const MUL: [(Value, Value, Result<Value, Undefined>); 11] = [
    (Int(65536), Int(32767), Ok(Int(2147418112))),
    (Int(65536), Int(32768), Err(Overflow)),
    (Int(i32::MIN), Int(-1), Err(Overflow)),
    (Int(i32::MIN), Int(1), Ok(Int(i32::MIN))),
    (Int(46341), Int(46341), Err(Overflow)),
    (Int(-46341), Int(46340), Ok(Int(-2147441940))),
    (Unsigned(4294967295), Unsigned(4294967295), Ok(Unsigned(1))),
    (Unsigned(65536), Unsigned(65536), Ok(Unsigned(0))),
    (Unsigned(3), Unsigned(1431655765), Ok(Unsigned(4294967295))),
    (Int(-1), Unsigned(2), Ok(Unsigned(4294967294))),
    (Unsigned(2), Int(-1), Ok(Unsigned(4294967294))),
];

const DIV: [(Value, Value, Result<Value, Undefined>); 16] = [
    (Int(-7), Int(2), Ok(Int(-3))),
    (Int(7), Int(-2), Ok(Int(-3))),
    (Int(-7), Int(-2), Ok(Int(3))),
    (Int(i32::MIN), Int(-1), Err(Overflow)),
    (Int(i32::MIN), Int(1), Ok(Int(i32::MIN))),
    (Int(i32::MIN), Int(2), Ok(Int(-1073741824))),
    (Int(i32::MAX), Int(i32::MIN), Ok(Int(0))),
    (Int(1), Int(0), Err(DivZero)),
    (Unsigned(7), Unsigned(2), Ok(Unsigned(3))),
    (Unsigned(4294967295), Unsigned(1), Ok(Unsigned(4294967295))),
    (Unsigned(1), Unsigned(0), Err(DivZero)),
    (Int(-7), Unsigned(2), Ok(Unsigned(2147483644))),
    (Int(-1), Unsigned(0), Err(DivZero)),
    (Unsigned(7), Int(-2), Ok(Unsigned(0))),
    (Unsigned(4294967295), Int(-1), Ok(Unsigned(1))),
    (Unsigned(1), Int(0), Err(DivZero)),
];

const REM: [(Value, Value, Result<Value, Undefined>); 13] = [
    (Int(-7), Int(2), Ok(Int(-1))),
    (Int(7), Int(-2), Ok(Int(1))),
    (Int(-7), Int(-2), Ok(Int(-1))),
    (Int(i32::MIN), Int(-1), Err(Overflow)),
    (Int(i32::MIN), Int(1), Ok(Int(0))),
    (Int(i32::MIN), Int(3), Ok(Int(-2))),
    (Int(1), Int(0), Err(DivZero)),
    (Unsigned(7), Unsigned(4), Ok(Unsigned(3))),
    (Unsigned(1), Unsigned(0), Err(DivZero)),
    (Int(-7), Unsigned(4), Ok(Unsigned(1))),
    (Int(-1), Unsigned(0), Err(DivZero)),
    (Unsigned(7), Int(-2), Ok(Unsigned(7))),
    (Unsigned(1), Int(0), Err(DivZero)),
];

const ADD: [(Value, Value, Result<Value, Undefined>); 8] = [
    (Int(i32::MAX), Int(1), Err(Overflow)),
    (Int(i32::MAX), Int(0), Ok(Int(i32::MAX))),
    (Int(i32::MIN), Int(-1), Err(Overflow)),
    (Int(i32::MAX), Int(i32::MIN), Ok(Int(-1))),
    (Unsigned(4294967295), Unsigned(1), Ok(Unsigned(0))),
    (
        Unsigned(4294967295),
        Unsigned(4294967295),
        Ok(Unsigned(4294967294)),
    ),
    (Int(-1), Unsigned(1), Ok(Unsigned(0))),
    (Unsigned(2147483648), Int(i32::MIN), Ok(Unsigned(0))),
];

const SUB: [(Value, Value, Result<Value, Undefined>); 6] = [
    (Int(i32::MIN), Int(1), Err(Overflow)),
    (Int(-1), Int(i32::MAX), Ok(Int(i32::MIN))),
    (Int(0), Int(i32::MIN), Err(Overflow)),
    (Unsigned(0), Unsigned(1), Ok(Unsigned(4294967295))),
    (Int(3), Unsigned(5), Ok(Unsigned(4294967294))),
    (Unsigned(1), Int(i32::MAX), Ok(Unsigned(2147483650))),
];

const SHL: [(Value, Value, Result<Value, Undefined>); 18] = [
    (Int(1), Int(30), Ok(Int(1073741824))),
    (Int(1), Int(31), Err(Overflow)),
    (Int(1), Int(32), Err(BadShift)),
    (Int(1), Int(-1), Err(BadShift)),
    (Int(-1), Int(0), Err(BadShift)),
    (Int(-1), Int(32), Err(BadShift)),
    (Int(0), Int(31), Ok(Int(0))),
    (Int(1073741823), Int(1), Ok(Int(2147483646))),
    (Int(1073741824), Int(1), Err(Overflow)),
    (Unsigned(1), Unsigned(31), Ok(Unsigned(2147483648))),
    (Unsigned(3), Unsigned(31), Ok(Unsigned(2147483648))),
    (Unsigned(1), Unsigned(32), Err(BadShift)),
    (Unsigned(4294967295), Unsigned(0), Ok(Unsigned(4294967295))),
    (Int(1), Unsigned(4), Ok(Int(16))),
    (Int(1), Unsigned(31), Err(Overflow)),
    (Int(1), Unsigned(4294967295), Err(BadShift)),
    (Unsigned(1), Int(31), Ok(Unsigned(2147483648))),
    (Unsigned(1), Int(-1), Err(BadShift)),
];

const SHR: [(Value, Value, Result<Value, Undefined>); 15] = [
    (Int(-1), Int(1), Ok(Int(-1))),
    (Int(-7), Int(1), Ok(Int(-4))),
    (Int(7), Int(1), Ok(Int(3))),
    (Int(i32::MIN), Int(31), Ok(Int(-1))),
    (Int(i32::MAX), Int(31), Ok(Int(0))),
    (Int(-5), Int(0), Ok(Int(-5))),
    (Int(1), Int(32), Err(BadShift)),
    (Int(1), Int(-1), Err(BadShift)),
    (Unsigned(4294967295), Unsigned(31), Ok(Unsigned(1))),
    (Unsigned(8), Unsigned(3), Ok(Unsigned(1))),
    (Unsigned(1), Unsigned(32), Err(BadShift)),
    (Int(-8), Unsigned(1), Ok(Int(-4))),
    (Int(-8), Unsigned(32), Err(BadShift)),
    (Unsigned(4294967295), Int(1), Ok(Unsigned(2147483647))),
    (Unsigned(1), Int(32), Err(BadShift)),
];

const LT: [(Value, Value, Result<Value, Undefined>); 9] = [
    (Int(-1), Int(1), Ok(Int(1))),
    (Int(i32::MIN), Int(i32::MAX), Ok(Int(1))),
    (Int(1), Int(1), Ok(Int(0))),
    (Unsigned(0), Unsigned(4294967295), Ok(Int(1))),
    (Unsigned(1), Unsigned(1), Ok(Int(0))),
    (Int(-1), Unsigned(1), Ok(Int(0))),
    (Int(1), Unsigned(2), Ok(Int(1))),
    (Unsigned(1), Int(-1), Ok(Int(1))),
    (Unsigned(4294967295), Int(-1), Ok(Int(0))),
];

const LE: [(Value, Value, Result<Value, Undefined>); 8] = [
    (Int(1), Int(1), Ok(Int(1))),
    (Int(i32::MAX), Int(i32::MIN), Ok(Int(0))),
    (Unsigned(2), Unsigned(2), Ok(Int(1))),
    (Unsigned(3), Unsigned(2), Ok(Int(0))),
    (Int(-1), Unsigned(4294967295), Ok(Int(1))),
    (Int(-1), Unsigned(0), Ok(Int(0))),
    (Unsigned(0), Int(-1), Ok(Int(1))),
    (Unsigned(4294967295), Int(0), Ok(Int(0))),
];

const GT: [(Value, Value, Result<Value, Undefined>); 8] = [
    (Int(1), Int(-1), Ok(Int(1))),
    (Int(i32::MIN), Int(i32::MAX), Ok(Int(0))),
    (Unsigned(4294967295), Unsigned(0), Ok(Int(1))),
    (Unsigned(1), Unsigned(1), Ok(Int(0))),
    (Int(-1), Unsigned(1), Ok(Int(1))),
    (Int(1), Unsigned(1), Ok(Int(0))),
    (Unsigned(1), Int(-1), Ok(Int(0))),
    (Unsigned(1), Int(0), Ok(Int(1))),
];

const GE: [(Value, Value, Result<Value, Undefined>); 8] = [
    (Int(1), Int(1), Ok(Int(1))),
    (Int(i32::MIN), Int(i32::MAX), Ok(Int(0))),
    (Unsigned(4294967295), Unsigned(4294967295), Ok(Int(1))),
    (Unsigned(0), Unsigned(1), Ok(Int(0))),
    (Int(-1), Unsigned(4294967295), Ok(Int(1))),
    (Int(0), Unsigned(1), Ok(Int(0))),
    (Unsigned(0), Int(-1), Ok(Int(0))),
    (Unsigned(1), Int(1), Ok(Int(1))),
];

const EQ: [(Value, Value, Result<Value, Undefined>); 8] = [
    (Int(1), Int(1), Ok(Int(1))),
    (Int(1), Int(-1), Ok(Int(0))),
    (Unsigned(0), Unsigned(0), Ok(Int(1))),
    (Unsigned(0), Unsigned(1), Ok(Int(0))),
    (Int(-1), Unsigned(4294967295), Ok(Int(1))),
    (Int(i32::MIN), Unsigned(2147483648), Ok(Int(1))),
    (Unsigned(0), Int(0), Ok(Int(1))),
    (Unsigned(4294967295), Int(1), Ok(Int(0))),
];

const NE: [(Value, Value, Result<Value, Undefined>); 8] = [
    (Int(1), Int(1), Ok(Int(0))),
    (Int(1), Int(-1), Ok(Int(1))),
    (Unsigned(0), Unsigned(0), Ok(Int(0))),
    (Unsigned(0), Unsigned(1), Ok(Int(1))),
    (Int(-1), Unsigned(4294967295), Ok(Int(0))),
    (Int(1), Unsigned(2), Ok(Int(1))),
    (Unsigned(2), Int(2), Ok(Int(0))),
    (Unsigned(4294967295), Int(-1), Ok(Int(0))),
];

const BITAND: [(Value, Value, Result<Value, Undefined>); 6] = [
    (Int(-1), Int(12), Ok(Int(12))),
    (Int(-8), Int(12), Ok(Int(8))),
    (Int(i32::MIN), Int(-1), Ok(Int(i32::MIN))),
    (Unsigned(4294967295), Unsigned(240), Ok(Unsigned(240))),
    (Int(-1), Unsigned(1), Ok(Unsigned(1))),
    (
        Unsigned(2147483648),
        Int(i32::MIN),
        Ok(Unsigned(2147483648)),
    ),
];

const BITXOR: [(Value, Value, Result<Value, Undefined>); 6] = [
    (Int(-1), Int(5), Ok(Int(-6))),
    (Int(6), Int(3), Ok(Int(5))),
    (Int(i32::MIN), Int(i32::MAX), Ok(Int(-1))),
    (Unsigned(4294967295), Unsigned(1), Ok(Unsigned(4294967294))),
    (Int(-1), Unsigned(0), Ok(Unsigned(4294967295))),
    (Unsigned(1), Int(-1), Ok(Unsigned(4294967294))),
];

const BITOR: [(Value, Value, Result<Value, Undefined>); 5] = [
    (Int(-8), Int(3), Ok(Int(-5))),
    (Int(i32::MIN), Int(i32::MAX), Ok(Int(-1))),
    (Unsigned(8), Unsigned(1), Ok(Unsigned(9))),
    (Int(i32::MIN), Unsigned(1), Ok(Unsigned(2147483649))),
    (Unsigned(1), Int(-2), Ok(Unsigned(4294967295))),
];

const UNARY: [(Unary, Value, Result<Value, Undefined>); 15] = [
    (Neg, Int(5), Ok(Int(-5))),
    (Neg, Int(0), Ok(Int(0))),
    (Neg, Int(i32::MIN), Err(Overflow)),
    (Neg, Unsigned(1), Ok(Unsigned(4294967295))),
    (Neg, Unsigned(0), Ok(Unsigned(0))),
    (Neg, Unsigned(2147483648), Ok(Unsigned(2147483648))),
    (Not, Int(0), Ok(Int(-1))),
    (Not, Int(-6), Ok(Int(5))),
    (Not, Int(i32::MAX), Ok(Int(i32::MIN))),
    (Not, Unsigned(0), Ok(Unsigned(4294967295))),
    (Not, Unsigned(4294967295), Ok(Unsigned(0))),
    (LogNot, Int(0), Ok(Int(1))),
    (LogNot, Int(-4), Ok(Int(0))),
    (LogNot, Unsigned(0), Ok(Int(1))),
    (LogNot, Unsigned(7), Ok(Int(0))),
];

const CONVERSIONS: [(Value, Kind, Value); 8] = [
    (Int(-1), Kind::Unsigned, Unsigned(4294967295)),
    (Int(7), Kind::Unsigned, Unsigned(7)),
    (Int(i32::MIN), Kind::Unsigned, Unsigned(2147483648)),
    (Unsigned(4294967295), Kind::Int, Int(-1)),
    (Unsigned(2147483648), Kind::Int, Int(i32::MIN)),
    (Unsigned(2147483647), Kind::Int, Int(i32::MAX)),
    (Int(-9), Kind::Int, Int(-9)),
    (Unsigned(4294967295), Kind::Unsigned, Unsigned(4294967295)),
];

fn check(rt: &impl Abort, op: Binary, table: &[(Value, Value, Result<Value, Undefined>)]) {
    for (a, b, want) in table {
        assert_eq!(rt; binary(op, *a, *b), *want, "{op:?} of {a:?} and {b:?}");
    }
}

#[test]
fn edge_values(rt: HostRuntime) {
    check(&rt, Mul, &MUL);
    check(&rt, Div, &DIV);
    check(&rt, Rem, &REM);
    check(&rt, Add, &ADD);
    check(&rt, Sub, &SUB);
    check(&rt, Shl, &SHL);
    check(&rt, Shr, &SHR);
    check(&rt, Lt, &LT);
    check(&rt, Le, &LE);
    check(&rt, Gt, &GT);
    check(&rt, Ge, &GE);
    check(&rt, Eq, &EQ);
    check(&rt, Ne, &NE);
    check(&rt, BitAnd, &BITAND);
    check(&rt, BitXor, &BITXOR);
    check(&rt, BitOr, &BITOR);
    for (op, v, want) in UNARY {
        assert_eq!(rt; unary(op, v), want, "{op:?} of {v:?}");
    }
    for (v, kind, want) in CONVERSIONS {
        assert_eq!(rt; convert(v, kind), want, "{v:?} to {kind:?}");
    }
    assert_eq!(rt; number(Int(-5)), -5);
    assert_eq!(rt; number(Unsigned(4294967295)), 4294967295);
}

// ---- 64 bits

const LONG_MUL: [(Value, Value, Result<Value, Undefined>); 9] = [
    (
        Long(3037000499),
        Long(3037000499),
        Ok(Long(9223372030926249001)),
    ),
    (Long(3037000500), Long(3037000500), Err(Overflow)),
    (
        Int(2147483647),
        Long(2147483647),
        Ok(Long(4611686014132420609)),
    ),
    (Int(2147483647), Int(2147483647), Err(Overflow)),
    (Long(i64::MIN), Int(-1), Err(Overflow)),
    (Unsigned(4294967295), Long(2), Ok(Long(8589934590))),
    (
        UnsignedLong(u64::MAX),
        UnsignedLong(u64::MAX),
        Ok(UnsignedLong(1)),
    ),
    (
        UnsignedLong(4294967296),
        UnsignedLong(4294967296),
        Ok(UnsignedLong(0)),
    ),
    (
        Int(-1),
        UnsignedLong(2),
        Ok(UnsignedLong(18446744073709551614)),
    ),
];

const LONG_DIV: [(Value, Value, Result<Value, Undefined>); 9] = [
    (Long(i64::MIN), Long(-1), Err(Overflow)),
    (Long(i64::MIN), Int(1), Ok(Long(i64::MIN))),
    (Long(i64::MIN), Unsigned(2), Ok(Long(-4611686018427387904))),
    (Long(-7), Int(2), Ok(Long(-3))),
    (Int(i32::MIN), Long(-1), Ok(Long(2147483648))),
    (Unsigned(4294967295), Long(-1), Ok(Long(-4294967295))),
    (UnsignedLong(u64::MAX), Int(-1), Ok(UnsignedLong(1))),
    (Long(i64::MIN), UnsignedLong(u64::MAX), Ok(UnsignedLong(0))),
    (Long(1), UnsignedLong(0), Err(DivZero)),
];

const LONG_REM: [(Value, Value, Result<Value, Undefined>); 6] = [
    (Long(i64::MIN), Int(-1), Err(Overflow)),
    (Long(i64::MIN), Long(3), Ok(Long(-2))),
    (Long(-7), Unsigned(4), Ok(Long(-3))),
    (Int(-7), UnsignedLong(4), Ok(UnsignedLong(1))),
    (UnsignedLong(u64::MAX), Int(10), Ok(UnsignedLong(5))),
    (Unsigned(7), Long(0), Err(DivZero)),
];

const LONG_ADD: [(Value, Value, Result<Value, Undefined>); 9] = [
    (Long(i64::MAX), Int(1), Err(Overflow)),
    (Long(i64::MAX), Long(i64::MIN), Ok(Long(-1))),
    (Unsigned(4294967295), Long(1), Ok(Long(4294967296))),
    (
        UnsignedLong(0),
        UnsignedLong(u64::MAX),
        Ok(UnsignedLong(u64::MAX)),
    ),
    (UnsignedLong(u64::MAX), UnsignedLong(2), Ok(UnsignedLong(1))),
    (UnsignedLong(1), UnsignedLong(3), Ok(UnsignedLong(4))),
    (UnsignedLong(0), Int(-1), Ok(UnsignedLong(u64::MAX))),
    (UnsignedLong(u64::MAX), Unsigned(1), Ok(UnsignedLong(0))),
    (
        UnsignedLong(u64::MAX),
        Long(i64::MIN),
        Ok(UnsignedLong(9223372036854775807)),
    ),
];

const LONG_SUB: [(Value, Value, Result<Value, Undefined>); 5] = [
    (Long(i64::MIN), Int(1), Err(Overflow)),
    (Long(0), Long(i64::MIN), Err(Overflow)),
    (Long(-1), Long(i64::MAX), Ok(Long(i64::MIN))),
    (Unsigned(1), Long(2), Ok(Long(-1))),
    (
        Int(3),
        UnsignedLong(5),
        Ok(UnsignedLong(18446744073709551614)),
    ),
];

const LONG_SHL: [(Value, Value, Result<Value, Undefined>); 12] = [
    (Long(1), Int(62), Ok(Long(4611686018427387904))),
    (Long(1), Int(63), Err(Overflow)),
    (Long(1), Int(64), Err(BadShift)),
    (Long(0), Int(63), Ok(Long(0))),
    (Long(-1), Int(0), Err(BadShift)),
    (Long(1), Long(i64::MIN), Err(BadShift)),
    (
        UnsignedLong(1),
        Int(63),
        Ok(UnsignedLong(9223372036854775808)),
    ),
    (
        UnsignedLong(3),
        Long(63),
        Ok(UnsignedLong(9223372036854775808)),
    ),
    (UnsignedLong(1), Unsigned(64), Err(BadShift)),
    (Int(1), Long(32), Err(BadShift)),
    (Int(1), UnsignedLong(u64::MAX), Err(BadShift)),
    (Unsigned(1), UnsignedLong(31), Ok(Unsigned(2147483648))),
];

const LONG_SHR: [(Value, Value, Result<Value, Undefined>); 8] = [
    (Long(i64::MIN), Int(63), Ok(Long(-1))),
    (Long(i64::MAX), Int(63), Ok(Long(0))),
    (Long(-5), UnsignedLong(1), Ok(Long(-3))),
    (Long(-1), Int(64), Err(BadShift)),
    (UnsignedLong(u64::MAX), Int(63), Ok(UnsignedLong(1))),
    (
        UnsignedLong(9223372036854775808),
        Long(62),
        Ok(UnsignedLong(2)),
    ),
    (UnsignedLong(u64::MAX), UnsignedLong(64), Err(BadShift)),
    (Int(-1), Long(63), Err(BadShift)),
];

const LONG_LT: [(Value, Value, Result<Value, Undefined>); 5] = [
    (Int(-1), Unsigned(1), Ok(Int(0))),
    (Long(-1), Unsigned(1), Ok(Int(1))),
    (Long(-1), UnsignedLong(1), Ok(Int(0))),
    (Unsigned(4294967295), Long(4294967296), Ok(Int(1))),
    (UnsignedLong(u64::MAX), Int(-1), Ok(Int(0))),
];

const LONG_LE: [(Value, Value, Result<Value, Undefined>); 3] = [
    (UnsignedLong(u64::MAX), Int(-1), Ok(Int(1))),
    (Long(i64::MAX), Long(i64::MIN), Ok(Int(0))),
    (Long(-1), Unsigned(0), Ok(Int(1))),
];

const LONG_GT: [(Value, Value, Result<Value, Undefined>); 3] = [
    (Long(-1), UnsignedLong(18446744073709551614), Ok(Int(1))),
    (Unsigned(4294967295), Long(-1), Ok(Int(1))),
    (Int(0), Long(i64::MAX), Ok(Int(0))),
];

const LONG_GE: [(Value, Value, Result<Value, Undefined>); 3] = [
    (
        Long(i64::MIN),
        UnsignedLong(9223372036854775808),
        Ok(Int(1)),
    ),
    (Long(-1), Unsigned(0), Ok(Int(0))),
    (UnsignedLong(4294967296), Unsigned(4294967295), Ok(Int(1))),
];

const LONG_EQ: [(Value, Value, Result<Value, Undefined>); 3] = [
    (Long(-1), UnsignedLong(u64::MAX), Ok(Int(1))),
    (Long(-1), Unsigned(4294967295), Ok(Int(0))),
    (Long(4294967295), Unsigned(4294967295), Ok(Int(1))),
];

const LONG_NE: [(Value, Value, Result<Value, Undefined>); 3] = [
    (Int(-1), UnsignedLong(u64::MAX), Ok(Int(0))),
    (Int(-1), UnsignedLong(4294967295), Ok(Int(1))),
    (Long(0), Unsigned(0), Ok(Int(0))),
];

const LONG_BITAND: [(Value, Value, Result<Value, Undefined>); 3] = [
    (Int(-1), UnsignedLong(u64::MAX), Ok(UnsignedLong(u64::MAX))),
    (Long(-1), Unsigned(4294967295), Ok(Long(4294967295))),
    (Long(i64::MIN), Long(-1), Ok(Long(i64::MIN))),
];

const LONG_BITXOR: [(Value, Value, Result<Value, Undefined>); 3] = [
    (Long(-1), Int(5), Ok(Long(-6))),
    (Long(i64::MIN), Long(i64::MAX), Ok(Long(-1))),
    (UnsignedLong(u64::MAX), Int(-1), Ok(UnsignedLong(0))),
];

const LONG_BITOR: [(Value, Value, Result<Value, Undefined>); 3] = [
    (
        Unsigned(4294967295),
        Long(i64::MIN),
        Ok(Long(-9223372032559808513)),
    ),
    (Int(-2), UnsignedLong(1), Ok(UnsignedLong(u64::MAX))),
    (
        Long(i64::MIN),
        UnsignedLong(1),
        Ok(UnsignedLong(9223372036854775809)),
    ),
];

const LONG_UNARY: [(Unary, Value, Result<Value, Undefined>); 11] = [
    (Neg, Long(i64::MIN), Err(Overflow)),
    (Neg, Long(i64::MAX), Ok(Long(-9223372036854775807))),
    (Neg, UnsignedLong(1), Ok(UnsignedLong(u64::MAX))),
    (
        Neg,
        UnsignedLong(9223372036854775808),
        Ok(UnsignedLong(9223372036854775808)),
    ),
    (Not, Long(0), Ok(Long(-1))),
    (Not, Long(i64::MAX), Ok(Long(i64::MIN))),
    (Not, UnsignedLong(0), Ok(UnsignedLong(u64::MAX))),
    (
        Not,
        UnsignedLong(4294967295),
        Ok(UnsignedLong(18446744069414584320)),
    ),
    (LogNot, Long(i64::MIN), Ok(Int(0))),
    (LogNot, UnsignedLong(0), Ok(Int(1))),
    (LogNot, UnsignedLong(4294967296), Ok(Int(0))),
];

const LONG_CONVERSIONS: [(Value, Kind, Value); 10] = [
    (Int(-1), Kind::UnsignedLong, UnsignedLong(u64::MAX)),
    (
        UnsignedLong(9223372036854775808),
        Kind::Long,
        Long(i64::MIN),
    ),
    (UnsignedLong(u64::MAX), Kind::Long, Long(-1)),
    (UnsignedLong(u64::MAX), Kind::Int, Int(-1)),
    (Unsigned(4294967295), Kind::Long, Long(4294967295)),
    (Long(2147483648), Kind::Int, Int(i32::MIN)),
    (Long(4294967296), Kind::Int, Int(0)),
    (Long(-1), Kind::Unsigned, Unsigned(4294967295)),
    (
        Long(i64::MIN),
        Kind::UnsignedLong,
        UnsignedLong(9223372036854775808),
    ),
    (
        UnsignedLong(18446744069414584321),
        Kind::Unsigned,
        Unsigned(1),
    ),
];

#[test]
fn edge_values_of_64_bits(rt: HostRuntime) {
    check(&rt, Mul, &LONG_MUL);
    check(&rt, Div, &LONG_DIV);
    check(&rt, Rem, &LONG_REM);
    check(&rt, Add, &LONG_ADD);
    check(&rt, Sub, &LONG_SUB);
    check(&rt, Shl, &LONG_SHL);
    check(&rt, Shr, &LONG_SHR);
    check(&rt, Lt, &LONG_LT);
    check(&rt, Le, &LONG_LE);
    check(&rt, Gt, &LONG_GT);
    check(&rt, Ge, &LONG_GE);
    check(&rt, Eq, &LONG_EQ);
    check(&rt, Ne, &LONG_NE);
    check(&rt, BitAnd, &LONG_BITAND);
    check(&rt, BitXor, &LONG_BITXOR);
    check(&rt, BitOr, &LONG_BITOR);
    for (op, v, want) in LONG_UNARY {
        assert_eq!(rt; unary(op, v), want, "{op:?} of {v:?}");
    }
    for (v, kind, want) in LONG_CONVERSIONS {
        assert_eq!(rt; convert(v, kind), want, "{v:?} to {kind:?}");
    }
    assert_eq!(rt; number(Long(i64::MIN)), -9223372036854775808);
    assert_eq!(rt; number(UnsignedLong(u64::MAX)), 18446744073709551615);
}
