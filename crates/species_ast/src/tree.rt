//! The syntax tree of a kernel.

use crate::text::{Dims, Includes, LineText, Name};
use sqlite_items::{Boxed, Items};

/// A program: its declarations and the body of its one function.
///
/// Arrays and locals go by their number, from 0 in the order of the text. An
/// iterator goes by the level of its loop: 0 for the outermost around a place, then 1, and so on.
#[derive(Drop)]
pub struct Unit {
    pub includes: Includes,
    pub arrays: Items<Array>,
    pub locals: Items<LocalInfo>,
    pub function: Name,
    pub body: Items<Stmt>,
}

/// A global array of constant sizes.
#[derive(Drop)]
pub struct Array {
    pub name: Name,
    pub kind: Kind,
    pub dims: Dims,
}

/// A local variable of the function.
#[derive(Drop)]
pub struct LocalInfo {
    pub name: Name,
    pub kind: Kind,
}

/// C's `int` and `unsigned int`, of 32 bits, and `long long` and `unsigned long long`, of 64.
#[derive(Clone, Copy, Debug, PartialEq, Eq)]
pub enum Kind {
    Int,
    Unsigned,
    Long,
    UnsignedLong,
}

/// A value of one of the kinds.
#[derive(Clone, Copy, Debug, PartialEq, Eq)]
pub enum Value {
    Int(i32),
    Unsigned(u32),
    Long(i64),
    UnsignedLong(u64),
}

/// `-`, `~` and `!`.
#[derive(Clone, Copy, Debug, PartialEq, Eq)]
pub enum Unary {
    Neg,
    Not,
    LogNot,
}

/// The binary operators that evaluate both of their operands.
#[derive(Clone, Copy, Debug, PartialEq, Eq)]
pub enum Binary {
    Mul,
    Div,
    Rem,
    Add,
    Sub,
    Shl,
    Shr,
    Lt,
    Le,
    Gt,
    Ge,
    Eq,
    Ne,
    BitAnd,
    BitXor,
    BitOr,
}

/// An expression. `And`, `Or` and `Cond` evaluate only the operands that they need.
#[derive(Drop)]
pub enum Expr {
    Literal(Value),
    Iter(u32),
    Local(u32),
    Elem(u32, Items<Expr>),
    Unary(Unary, Boxed<Expr>),
    Binary(Binary, Boxed<Expr>, Boxed<Expr>),
    And(Boxed<Expr>, Boxed<Expr>),
    Or(Boxed<Expr>, Boxed<Expr>),
    Cond(Boxed<Expr>, Boxed<Expr>, Boxed<Expr>),
    Cast(Kind, Boxed<Expr>),
}

/// A statement. `place` is the byte offset of its first token in the program, after any pragma; that
/// of a `Declare` is the one of its name.
#[cycle(stmt)]
#[derive(Drop)]
pub enum Stmt {
    Assign {
        place: u32,
        array: u32,
        subs: Items<Expr>,
        value: Expr,
    },
    AddTo {
        place: u32,
        array: u32,
        subs: Items<Expr>,
        value: Expr,
        atomic: bool,
    },
    Declare {
        place: u32,
        local: u32,
        init: Option<Expr>,
    },
    SetLocal {
        place: u32,
        local: u32,
        value: Expr,
    },
    If {
        place: u32,
        test: Expr,
        body: Items<Stmt>,
        otherwise: Items<Stmt>,
    },
    For(Loop),
    Block(Items<Stmt>),
}

/// The comparison in a loop's header.
#[derive(Clone, Copy, Debug, PartialEq, Eq)]
pub enum Test {
    Lt,
    Le,
    Gt,
    Ge,
}

/// A counted loop. `place` is the byte offset of its `for`; `line` is its species line.
#[cycle(stmt)]
#[derive(Drop)]
pub struct Loop {
    pub place: u32,
    pub iter: Name,
    pub start: Expr,
    pub test: Test,
    pub limit: Expr,
    pub step: i32,
    pub body: Items<Stmt>,
    pub line: Option<LineText>,
    pub mark: Mark,
}

/// Whether a loop begins a parallel nest, of so many leading loops.
#[derive(Clone, Copy, Debug, PartialEq, Eq)]
pub enum Mark {
    Plain,
    Parallel { depth: u32, schedule: Schedule },
}

/// OpenMP's `schedule` clause.
#[derive(Clone, Copy, Debug, PartialEq, Eq)]
pub enum Schedule {
    Static,
    StaticBy(u32),
    DynamicBy(u32),
    Guided,
}
