//! Raw trees as texts of nested brackets: the operator or the word of a form, and then its parts.
//! With places, each expression and statement has its place and a colon before it, and each name its
//! place behind an `@`. Where memory runs out the text is too short, so that no test finds it right.

mod expressions;
mod statements;
mod units;

use crate::{RawName, RawOp, RawUnary};
use species_ast::{Kind, Value};
use std::alloc::{AllocError, Global};
pub(super) use units::put_unit;

#[derive(Drop)]
pub(super) struct Shown {
    alloc: Global,
    places: bool,
    text: Vec<u8>,
}

impl Shown {
    pub(super) fn new(alloc: Global, places: bool) -> Shown {
        Shown {
            alloc,
            places,
            text: Vec::new(alloc),
        }
    }

    pub(super) fn into_text(self) -> Vec<u8> {
        self.text
    }

    fn put(&mut self, text: &[u8]) {
        let _ = self.text.extend_from_slice(text);
    }

    fn open(&mut self, word: &[u8]) {
        self.put(b"(");
        self.put(word);
    }

    /// A blank, and an opening bracket.
    fn open_next(&mut self) {
        self.put(b" (");
    }

    fn close(&mut self) {
        self.put(b")");
    }

    fn put_shown(&mut self, text: Result<String, AllocError>) {
        if let Ok(text) = text {
            self.put(text.as_bytes());
        }
    }

    fn number(&mut self, number: i64) {
        self.put_shown(format!(in self.alloc; "{number}"));
    }

    /// A blank, and the place of what comes.
    fn begin(&mut self, place: u32) {
        self.put(b" ");
        if self.places {
            self.number(i64::from(place));
            self.put(b":");
        }
    }

    fn name(&mut self, name: &RawName<'_>) {
        self.put(name.text);
        if self.places {
            self.put(b"@");
            self.number(i64::from(name.place));
        }
    }

    fn spaced_name(&mut self, name: &RawName<'_>) {
        self.put(b" ");
        self.name(name);
    }

    fn value(&mut self, value: Value) {
        match value {
            Value::Int(n) => self.number(i64::from(n)),
            Value::Unsigned(n) => {
                self.number(i64::from(n));
                self.put(b"u");
            }
            Value::Long(n) => {
                self.number(n);
                self.put(b"ll");
            }
            Value::UnsignedLong(n) => self.put_shown(format!(in self.alloc; "{n}ull")),
        }
    }
}

fn kind_word(kind: Kind) -> &'static [u8] {
    match kind {
        Kind::Int => b"int",
        Kind::Unsigned => b"unsigned",
        Kind::Long => b"long-long",
        Kind::UnsignedLong => b"unsigned-long-long",
    }
}

fn unary_word(op: RawUnary) -> &'static [u8] {
    match op {
        RawUnary::Neg => b"neg",
        RawUnary::Plus => b"plus",
        RawUnary::Not => b"not",
        RawUnary::LogNot => b"lognot",
    }
}

fn op_word(op: RawOp) -> &'static [u8] {
    match op {
        RawOp::Plain => b"= ",
        RawOp::Add => b"+= ",
        RawOp::Sub => b"-= ",
        RawOp::Mul => b"*= ",
        RawOp::Div => b"/= ",
        RawOp::Rem => b"%= ",
        RawOp::BitAnd => b"&= ",
        RawOp::BitXor => b"^= ",
        RawOp::BitOr => b"|= ",
        RawOp::Shl => b"<<= ",
        RawOp::Shr => b">>= ",
    }
}
