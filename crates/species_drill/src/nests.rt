ghost use Rattle.std.specs.Prelude.{◌≡◌, ◌++◌, OnOk, IfOk};
ghost use Rattle.species_drill.specs.Program.{next, opened, loop, shifted, square, nest_text, program_text};

use crate::words::{put, put_number};
use species_ast::OutOfMemory;
use std::alloc::Global;

const FRONT: &[u8] =
    b"int A[4096];\nint B[4096];\nint M[64][64];\nunsigned H[256];\nvoid drill(void) {\n";

/// The square nest up to its constant.
const SQUARE: &[u8] =
    b"    for (int i = 0; i < 64; i++) {\n        for (int j = 0; j < 64; j++) {\n            M[i][j] = M[i][j] + ";

/// A program of so many nests, by the numbers that follow `from`.
pub fn program(alloc: Global, nests: u32, from: u32) -> Result<Vec<u8>, OutOfMemory>
    ensures { IfOk result (λ text. text.items ≡ program_text nests from) }
{
    let mut text = Vec::new(alloc);
    put(FRONT, &mut text)?;
    let mut number = from;
    for made in 0..nests {
        number = next(number);
        put_nest(number, &mut text)?;
    }
    put(b"}\n", &mut text)?;
    Ok(text)
}

pub(crate) fn next(number: u32) -> u32
    ensures { result ≡ next number }
{
    ((u64::from(number) * 1_664_525 + 1_013_904_223) % 4_294_967_296) as u32
}

/// The nest that a number picks.
fn put_nest(number: u32, text: &mut Vec<u8>) -> Result<(), OutOfMemory>
    ensures { OnOk result (text.new.items ≡ text.old.items ++ nest_text number) }
{
    let constant = number / 65_536 / 6 % 64;
    match number / 65_536 % 6 {
        0 => put_shifted(constant, text),
        1 => put_loop(b"for (int i = 0; i < 1024; i++)", b"A[i + 1] = A[i];", text),
        2 => put_loop(
            b"for (int i = 1; i < 1023; i++)",
            b"B[i] = A[i - 1] + A[i] + A[i + 1];",
            text,
        ),
        3 => put_loop(
            b"for (int i = 0; i < 1024; i++)",
            b"H[A[i] & 255] += 1;",
            text,
        ),
        4 => put_loop(
            b"for (int i = 0; i < 1024; i++)",
            b"A[2 * i] = A[2 * i + 1];",
            text,
        ),
        _ => put_square(constant, text),
    }
}

/// A loop of one statement.
fn put_loop(header: &[u8], statement: &[u8], text: &mut Vec<u8>) -> Result<(), OutOfMemory>
    ensures { OnOk result (text.new.items ≡ text.old.items ++ loop header.now statement.now) }
{
    put_opened(header, text)?;
    put(statement, text)?;
    put(b"\n    }\n", text)?;
    Ok(())
}

/// What stands before the one statement of a loop.
fn put_opened(header: &[u8], text: &mut Vec<u8>) -> Result<(), OutOfMemory>
    ensures { OnOk result (text.new.items ≡ text.old.items ++ opened header.now) }
{
    put(b"    ", text)?;
    put(header, text)?;
    put(b" {\n        ", text)?;
    Ok(())
}

fn put_shifted(constant: u32, text: &mut Vec<u8>) -> Result<(), OutOfMemory>
    ensures { OnOk result (text.new.items ≡ text.old.items ++ shifted constant) }
{
    put_opened(b"for (int i = 0; i < 1024; i++)", text)?;
    put(b"B[i] = A[i + ", text)?;
    put_number(u64::from(constant), text)?;
    put(b"];\n    }\n", text)?;
    Ok(())
}

/// Two loops, one in the other.
fn put_square(constant: u32, text: &mut Vec<u8>) -> Result<(), OutOfMemory>
    ensures { OnOk result (text.new.items ≡ text.old.items ++ square constant) }
{
    put(SQUARE, text)?;
    put_number(u64::from(constant), text)?;
    put(b";\n        }\n    }\n", text)?;
    Ok(())
}
