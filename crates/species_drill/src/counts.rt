ghost use Rattle.std.specs.Prelude.{◌≡◌, ◌++◌, OnOk, IfOk};
ghost use Rattle.species_drill.specs.Summary.{named, summary_line};

use crate::words::{put, put_number};
use species_ast::OutOfMemory;
use std::alloc::Global;

/// What became of a program: of its nests, how many were made, and of the emitted ones how many are
/// parallel, sequential and shared; the joins, and the length of the emitted text.
#[derive(Clone, Copy, Debug, PartialEq, Eq)]
pub struct Counts {
    pub nests: u32,
    pub parallel: u32,
    pub sequential: u32,
    pub shared: u32,
    pub joined: u32,
    pub bytes: u64,
}

pub fn summary(alloc: Global, counts: &Counts) -> Result<Vec<u8>, OutOfMemory>
    ensures { IfOk result (λ line. line.items ≡ summary_line counts.now) }
{
    let mut line = Vec::new(alloc);
    put_named(b"nests ", u64::from(counts.nests), &mut line)?;
    put_named(b" parallel ", u64::from(counts.parallel), &mut line)?;
    put_named(b" sequential ", u64::from(counts.sequential), &mut line)?;
    put_named(b" shared ", u64::from(counts.shared), &mut line)?;
    put_named(b" joined ", u64::from(counts.joined), &mut line)?;
    put_named(b" bytes ", counts.bytes, &mut line)?;
    put(b"\n", &mut line)?;
    Ok(line)
}

fn put_named(name: &[u8], count: u64, line: &mut Vec<u8>) -> Result<(), OutOfMemory>
    ensures { OnOk result (line.new.items ≡ line.old.items ++ named name.now count) }
{
    put(name, line)?;
    put_number(count, line)?;
    Ok(())
}
