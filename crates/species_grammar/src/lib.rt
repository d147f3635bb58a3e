//! Readers of tokens that are put together from smaller ones, and what holds of them.
//!
//! A grammar is a relation between values and lists of tokens. A reader that is built by this
//! crate's combinators decides it, looking at one token at a time, and the laws of its parts give
//! four things at once: what it reads is derived, what is derived is read, nothing has two
//! derivations, and a reader that stops does so at the first token that no derivation can
//! take. Nothing here depends on the language that is read, or on its tokens.
#![tactic(auto)]
