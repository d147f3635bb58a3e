//! Operators as they are written: how each is spelled, and how tightly it binds.
ghost use Rattle.std.specs.Prelude.{◌≡◌, ◌≤◌};
ghost use Rattle.species_ast.specs.Signs.{binary_sign, unary_sign, raw_unary_sign, test_sign, assignment_sign, binary_level, multiplicative_level, find_sign, all_binary, all_raw_unary, all_tests, all_assignments};

use crate::raw::{RawOp, RawUnary};
use crate::tree::{Binary, Test, Unary};

impl Binary {
    /// How the operator is spelled.
    pub fn sign(self) -> &'static [u8]
        ensures { result.now ≡ binary_sign self }
    {
        match self {
            Binary::Mul => b"*",
            Binary::Div => b"/",
            Binary::Rem => b"%",
            Binary::Add => b"+",
            Binary::Sub => b"-",
            Binary::Shl => b"<<",
            Binary::Shr => b">>",
            Binary::Lt => b"<",
            Binary::Le => b"<=",
            Binary::Gt => b">",
            Binary::Ge => b">=",
            Binary::Eq => b"==",
            Binary::Ne => b"!=",
            Binary::BitAnd => b"&",
            Binary::BitXor => b"^",
            Binary::BitOr => b"|",
        }
    }

    /// The operator of this spelling.
    pub fn of_sign(text: &[u8]) -> Option<Binary>
        ensures { result ≡ find_sign binary_sign all_binary text.now }
    {
        match text {
            b"*" => Some(Binary::Mul),
            b"/" => Some(Binary::Div),
            b"%" => Some(Binary::Rem),
            b"+" => Some(Binary::Add),
            b"-" => Some(Binary::Sub),
            b"<<" => Some(Binary::Shl),
            b">>" => Some(Binary::Shr),
            b"<" => Some(Binary::Lt),
            b"<=" => Some(Binary::Le),
            b">" => Some(Binary::Gt),
            b">=" => Some(Binary::Ge),
            b"==" => Some(Binary::Eq),
            b"!=" => Some(Binary::Ne),
            b"&" => Some(Binary::BitAnd),
            b"^" => Some(Binary::BitXor),
            b"|" => Some(Binary::BitOr),
            _ => None,
        }
    }

    /// How tightly the operator binds: products 10, down to `|` with 3.
    pub fn level(self) -> u8
        ensures value { result ≡ binary_level self }
        ensures within { result ≤ multiplicative_level }
    {
        match self {
            Binary::Mul | Binary::Div | Binary::Rem => 10,
            Binary::Add | Binary::Sub => 9,
            Binary::Shl | Binary::Shr => 8,
            Binary::Lt | Binary::Le | Binary::Gt | Binary::Ge => 7,
            Binary::Eq | Binary::Ne => 6,
            Binary::BitAnd => 5,
            Binary::BitXor => 4,
            Binary::BitOr => 3,
        }
    }
}

impl Unary {
    /// How the operator is spelled.
    pub fn sign(self) -> &'static [u8]
        ensures { result.now ≡ unary_sign self }
    {
        match self {
            Unary::Neg => b"-",
            Unary::Not => b"~",
            Unary::LogNot => b"!",
        }
    }
}

impl RawUnary {
    /// The operator of this spelling.
    pub fn of_sign(text: &[u8]) -> Option<RawUnary>
        ensures { result ≡ find_sign raw_unary_sign all_raw_unary text.now }
    {
        match text {
            b"-" => Some(RawUnary::Neg),
            b"+" => Some(RawUnary::Plus),
            b"~" => Some(RawUnary::Not),
            b"!" => Some(RawUnary::LogNot),
            _ => None,
        }
    }
}

impl Test {
    /// How the comparison is spelled.
    pub fn sign(self) -> &'static [u8]
        ensures { result.now ≡ test_sign self }
    {
        match self {
            Test::Lt => b"<",
            Test::Le => b"<=",
            Test::Gt => b">",
            Test::Ge => b">=",
        }
    }

    /// The comparison of this spelling, if it may stand in the header of a loop.
    pub fn of_sign(text: &[u8]) -> Option<Test>
        ensures { result ≡ find_sign test_sign all_tests text.now }
    {
        match text {
            b"<" => Some(Test::Lt),
            b"<=" => Some(Test::Le),
            b">" => Some(Test::Gt),
            b">=" => Some(Test::Ge),
            _ => None,
        }
    }
}

impl RawOp {
    /// The assignment operator of this spelling.
    pub fn of_sign(text: &[u8]) -> Option<RawOp>
        ensures { result ≡ find_sign assignment_sign all_assignments text.now }
    {
        match text {
            b"=" => Some(RawOp::Plain),
            b"+=" => Some(RawOp::Add),
            b"-=" => Some(RawOp::Sub),
            b"*=" => Some(RawOp::Mul),
            b"/=" => Some(RawOp::Div),
            b"%=" => Some(RawOp::Rem),
            b"&=" => Some(RawOp::BitAnd),
            b"^=" => Some(RawOp::BitXor),
            b"|=" => Some(RawOp::BitOr),
            b"<<=" => Some(RawOp::Shl),
            b">>=" => Some(RawOp::Shr),
            _ => None,
        }
    }
}
