//! Programs read from the tables of their tokens.

use super::{answer, tree_text};
use crate::parse_table;
use species_ast::MOST_BYTES;
use species_lexer::{Cutter, TokenTable};
use std::alloc::Global;
use std::test::Fail;

static DEFINED: &str = "#define N 3
int A[N];
void k(void) {
    for (int i = 0; i < N; i++) A[i] = N;
}
";

static WRONG: &str = "#define N 3
void k(void) { x = N N; }";

static CUT_OFF: &str = "void k(void) { x = 1;";

fn table_of(alloc: Global, text: &[u8]) -> Result<TokenTable, Fail> {
    let mut cutter = Cutter::new(alloc);
    if text.len() <= MOST_BYTES as usize {
        cutter.feed(text)?;
    }
    Ok(cutter.finish()?)
}

/// What is answered of the table of a text's tokens.
fn table_answer(alloc: Global, text: &[u8]) -> Result<String, Fail> {
    let table = table_of(alloc, text)?;
    match parse_table(alloc, &table) {
        Ok(unit) => tree_text(alloc, &unit, true),
        Err(refusal) => Ok(format!(in alloc; "{refusal:?}")?),
    }
}

#[test]
fn a_table_is_read_as_its_text(rt: HostRuntime) -> Result<(), Fail> {
    for text in [DEFINED, WRONG, CUT_OFF] {
        let found = table_answer(rt.alloc(), text.as_bytes())?;
        let wanted = answer(rt.alloc(), text.as_bytes(), true)?;
        assert_eq!(rt; found.as_str(), wanted.as_str(), "at {text}");
    }
    Ok(())
}
