//! Programs that come in pieces, and sources that fail.
use super::kernels::{BLUR, printed};
use super::read;
use crate::{InputRefusal, ProgramRefusal, read_program_from};
use species_io::MemSource;
use species_lexer::LexRefusal;
use species_parser::ReadRefusal;
use std::alloc::Global;
use std::process::Abort;
use std::test::Fail;

/// A source of a text that gives so many bytes a call, and of which the listed calls fail.
fn source(alloc: Global, text: &str, piece: usize, fails: &[u64]) -> Result<MemSource, Fail> {
    let bytes = Vec::from_slice(alloc, text.as_bytes())?;
    let fails = Vec::from_slice(alloc, fails)?;
    Ok(MemSource::new(bytes, piece.max(1), fails))
}

#[test]
fn pieces_give_one_program(rt: HostRuntime) -> Result<(), Fail> {
    let alloc = rt.alloc();
    let whole = read(alloc, BLUR.as_bytes())?;
    let whole = printed(alloc, &whole)?;
    for piece in [1, 2, 3, 7, 4096] {
        let mut src = source(alloc, BLUR, piece, &[])?;
        let unit = read_program_from(alloc, &mut src)?;
        let text = printed(alloc, &unit)?;
        assert_eq!(rt; text.as_slice(), whole.as_slice(), "pieces of {piece}");
    }
    Ok(())
}

fn compare(
    rt: &impl Abort,
    alloc: Global,
    rows: &[(&str, usize, u64, InputRefusal)],
) -> Result<(), Fail> {
    for (text, piece, fails, refusal) in rows {
        let mut src = source(alloc, text, *piece, &[*fails])?;
        let found = read_program_from(alloc, &mut src).err();
        assert_eq!(rt; found, Some(*refusal), "{text}");
    }
    Ok(())
}

#[test]
fn a_fault_comes_before_a_refusal(rt: HostRuntime) -> Result<(), Fail> {
    let unclosed = ProgramRefusal::Read(ReadRefusal::Lex(LexRefusal::OpenComment(10)));
    let bad = ProgramRefusal::Read(ReadRefusal::Lex(LexRefusal::BadByte(10)));
    let rows = [
        ("int A[4]; /* x", 1, 99, InputRefusal::Program(unclosed)),
        ("int A[4]; $", 4, 99, InputRefusal::Program(bad)),
        ("int A[4]; $", 4, 3, InputRefusal::ReadFault),
        ("int A[4]; $", 4, 0, InputRefusal::ReadFault),
    ];
    compare(&rt, rt.alloc(), &rows)
}
