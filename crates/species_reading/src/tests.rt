//! Programs that are read, from their bytes and from pieces of them, and programs that are refused.
mod depth;
mod kernels;
mod pieces;
mod refused;

use crate::{ProgramRefusal, read_program};
use species_ast::{MOST_BYTES, Unit};
use std::alloc::Global;

/// What a text is read as; one past the limit is not tried.
fn read(alloc: Global, text: &[u8]) -> Result<Unit, ProgramRefusal> {
    if text.len() > MOST_BYTES as usize {
        return Err(ProgramRefusal::Memory);
    }
    read_program(alloc, text)
}
