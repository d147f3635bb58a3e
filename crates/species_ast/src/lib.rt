//! The syntax tree of a kernel: declarations, statements and expressions of one function.
//!
//! Every other crate speaks of kernels in these types. Contracts see each of them as a plain tree:
//! a list of children is a list, a child is a value, and a name is the list of its bytes.
#![tactic(auto)]

mod action;
mod characters;
mod copies;
mod memory;
mod raw;
mod scope_law;
mod signs;
mod stripping;
mod text;
mod text_law;
mod token;
mod trap;
mod tree;
mod words;

pub use action::Action;
pub use characters::{is_blank, is_digit, is_letter, is_word_byte, line_len, word_len};
pub use copies::{copy, copy_expr, copy_exprs, copy_loop, copy_stmt, copy_stmts};
pub use memory::OutOfMemory;
pub use raw::{
    RawArray, RawChange, RawExpr, RawItem, RawLocal, RawLoop, RawName, RawOp, RawStep, RawStmt,
    RawTarget, RawTerm, RawUnary, RawUnit, RawWhat,
};
pub use scope_law::law_refusals;
pub use stripping::strip;
pub use text::{Dims, Includes, LineText, Name};
pub use text_law::law_text;
pub use token::{LexRefusal, TokenKind};
pub use trap::{Trap, Undefined};
pub use tree::{
    Array, Binary, Expr, Kind, LocalInfo, Loop, Mark, Schedule, Stmt, Test, Unary, Unit, Value,
};
pub use words::{MOST_BYTES, MOST_LOAD, is_keyword, is_one_of, punctuator_len};
