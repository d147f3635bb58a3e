//! Reads a text: its raw tree, or why it has none; and the laws of the grammar.
#![tactic(auto)]

mod changes;
mod cursor;
mod declarations;
mod expressions;
mod headers;
mod law;
mod left;
mod load;
mod operators;
mod program;
mod refusal;
mod spelling;
mod statements;
mod stop;
mod table;
mod tokens;
mod types;
mod units;

pub use law::{law_grammar, law_places, law_reading};
pub use program::parse;
pub use refusal::{ReadRefusal, TableRefusal};
pub use species_ast::{
    LexRefusal, RawArray, RawChange, RawExpr, RawItem, RawLocal, RawLoop, RawName, RawOp, RawStep,
    RawStmt, RawTarget, RawTerm, RawUnary, RawUnit, RawWhat,
};
pub use table::parse_table;

#[cfg(test)]
mod tests;
