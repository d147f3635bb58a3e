//! Cuts the text of a program into tokens, one at a time and without memory of its own.
#![tactic(auto)]

mod comments;
mod cut;
mod cutter;
mod directives;
mod fault;
mod form;
mod names;
mod numbers;
mod parts;
mod piece;
mod pieces;
mod pragmas;
mod refusal;
mod scan;
mod slices;
mod table;
mod token;
mod tokens;

pub use cutter::Cutter;
pub use refusal::CutRefusal;
pub use species_ast::{LexRefusal, TokenKind};
pub use table::{TableTokens, TokenTable};
pub use token::Token;
pub use tokens::Tokens;

#[cfg(test)]
mod tests;
