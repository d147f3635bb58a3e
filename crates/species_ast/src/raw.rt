//! The tree of a program as its grammar derives it, before any name has a meaning.
//!
//! Each type has a variant for every alternative that the grammar has, and keeps the place of what it
//! stands for: the byte offset of the first token in the program. `static`, and `void` between the
//! brackets of the function, are not kept.
ghost use Rattle.std.specs.Prelude.{◌≡◌};

use crate::tree::{Binary, Kind, Schedule, Test, Value};
use sqlite_items::{Boxed, Items};
use std::marker::Model;

/// A name where it stands in a program. Of an `#include` the text is the header and its brackets
/// or quotes, and of a species line the text after the word; the place of both is that of the `#`.
#[derive(Drop)]
pub struct RawName<'a> {
    pub text: &'a [u8],
    pub place: u32,
}

impl<'a> Model for RawName<'a> {
    ghost use Rattle.species_ast.specs.Spelling.{Spelling};

    ghost Value = { Spelling };

    ghost view = { λ name. record { text = name.text.now; place = name.place } };
}

/// A program: its directives and globals in the order of the text, and its one function.
#[derive(Drop)]
pub struct RawUnit<'a> {
    pub items: Items<RawItem<'a>>,
    pub function: RawName<'a>,
    pub body: Items<RawStmt<'a>>,
}

/// What stands before the function.
#[derive(Drop)]
pub enum RawItem<'a> {
    Include(RawName<'a>),
    Global {
        kind: Kind,
        arrays: Items<RawArray<'a>>,
    },
}

/// A declarator of an array, outermost size first.
#[derive(Drop)]
pub struct RawArray<'a> {
    pub name: RawName<'a>,
    pub sizes: Items<RawExpr<'a>>,
}

/// A declarator of a local, with its initialiser.
#[derive(Drop)]
pub struct RawLocal<'a> {
    pub name: RawName<'a>,
    pub init: Option<RawExpr<'a>>,
}

/// A name with its subscripts, as an operand or to the left of an assignment.
#[cycle(raw_expr)]
#[derive(Drop)]
pub struct RawTarget<'a> {
    pub name: RawName<'a>,
    pub subs: Items<RawExpr<'a>>,
}

/// A statement. `place` is where it begins, pragmas aside; a `Declare` begins with its type.
#[cycle(raw_stmt)]
#[derive(Drop)]
pub struct RawStmt<'a> {
    pub place: u32,
    pub what: RawWhat<'a>,
}

/// What a statement does. Only a block has a `Declare` in it. What is large stands behind `Boxed`, so
/// that a long list of small statements takes little memory.
#[cycle(raw_stmt)]
#[derive(Drop)]
pub enum RawWhat<'a> {
    Declare {
        kind: Kind,
        locals: Items<RawLocal<'a>>,
    },
    Block(Items<RawStmt<'a>>),
    Empty,
    If {
        test: Boxed<RawExpr<'a>>,
        body: Boxed<RawStmt<'a>>,
        otherwise: Option<Boxed<RawStmt<'a>>>,
    },
    Loop(Boxed<RawLoop<'a>>),
    Change(Boxed<RawChange<'a>>),
    /// An addition under a pragma that makes it atomic.
    Atomic {
        target: Boxed<RawTarget<'a>>,
        value: Boxed<RawExpr<'a>>,
    },
}

/// A `for` with its pragmas. `line` is the text of its species line with the place of the `#`, and
/// `parallel` that of OpenMP's pragma. `typed` says that `int` stands in the header, and `tested`
/// is the name before the comparison.
#[cycle(raw_stmt)]
#[derive(Drop)]
pub struct RawLoop<'a> {
    pub line: Option<RawName<'a>>,
    pub parallel: Option<(u32, Schedule)>,
    pub typed: bool,
    pub iter: RawName<'a>,
    pub start: RawExpr<'a>,
    pub tested: RawName<'a>,
    pub test: Test,
    pub limit: RawExpr<'a>,
    pub step: RawStep<'a>,
    pub body: Boxed<RawStmt<'a>>,
}

/// The eight forms of a loop's step: `i++`, `++i`, `i--`, `--i`, `i += e`, `i -= e`, `i = j + e`
/// and `i = j - e`.
#[derive(Drop)]
pub enum RawStep<'a> {
    Up(RawName<'a>),
    UpBefore(RawName<'a>),
    Down(RawName<'a>),
    DownBefore(RawName<'a>),
    AddBy(RawName<'a>, RawExpr<'a>),
    SubBy(RawName<'a>, RawExpr<'a>),
    SetAdd(RawName<'a>, RawName<'a>, RawExpr<'a>),
    SetSub(RawName<'a>, RawName<'a>, RawExpr<'a>),
}

/// An assignment, or `t++`, `++t`, `t--` or `--t`, as a statement.
#[derive(Drop)]
pub enum RawChange<'a> {
    Set(RawTarget<'a>, RawOp, RawExpr<'a>),
    Up(RawTarget<'a>),
    UpBefore(RawTarget<'a>),
    Down(RawTarget<'a>),
    DownBefore(RawTarget<'a>),
}

/// An assignment operator: `=` is `Plain`, and `+=` is `Add`.
#[derive(Clone, Copy, Debug, PartialEq, Eq)]
pub enum RawOp {
    Plain,
    Add,
    Sub,
    Mul,
    Div,
    Rem,
    BitAnd,
    BitXor,
    BitOr,
    Shl,
    Shr,
}

/// An expression. `place` is where its first token stands; for `Paren` that is the parenthesis.
#[cycle(raw_expr)]
#[derive(Drop)]
pub struct RawExpr<'a> {
    pub place: u32,
    pub what: RawTerm<'a>,
}

/// What an expression is. `Target` is a name without subscripts or an element of an array.
#[cycle(raw_expr)]
#[derive(Drop)]
pub enum RawTerm<'a> {
    Number(Value),
    Target(RawTarget<'a>),
    Paren(Boxed<RawExpr<'a>>),
    Unary(RawUnary, Boxed<RawExpr<'a>>),
    Cast(Kind, Boxed<RawExpr<'a>>),
    Binary(Binary, Boxed<RawExpr<'a>>, Boxed<RawExpr<'a>>),
    And(Boxed<RawExpr<'a>>, Boxed<RawExpr<'a>>),
    Or(Boxed<RawExpr<'a>>, Boxed<RawExpr<'a>>),
    Cond(Boxed<RawExpr<'a>>, Boxed<RawExpr<'a>>, Boxed<RawExpr<'a>>),
}

/// A unary operator: `-`, `+`, `~` or `!`.
#[derive(Clone, Copy, Debug, PartialEq, Eq)]
pub enum RawUnary {
    Neg,
    Plus,
    Not,
    LogNot,
}
