//! Whole units, and what stands before the body.
ghost use Rattle.std.specs.Prelude.{◌≡◌, ◌++◌, OnOk, OnErr, IfOk};
ghost use Rattle.std.specs.List.{flat_map};
ghost use Rattle.species_ast.specs.Marks.{IsUnmarked};
ghost use Rattle.species_print.specs.Printed.{text_of};
ghost use Rattle.species_print.specs.Units.{front, canonical_text};
ghost use Rattle.species_print.specs.Texts.{include_text, size_text, array_text, front_text};

use crate::statements::print_all;
use crate::words::{kind_words, put, put_number};
use species_ast::{Array, Name, OutOfMemory, Unit};
use std::alloc::Global;

/// The canonical text of the unit.
pub fn print(alloc: Global, unit: &Unit) -> Result<Vec<u8>, OutOfMemory>
    requires { IsUnmarked unit.now }
    ensures { IfOk result (λ text. text.items ≡ canonical_text unit.now) }
{
    let mut text = Vec::new(alloc);
    put_front(unit, &mut text)?;
    print_all(alloc, unit, unit.body.as_slice(), &[], b"    ", &mut text)?;
    put(b"}\n", &mut text)?;
    Ok(text)
}

/// Appends the lines of the unit's canonical text that stand before the function's body.
pub fn print_front(alloc: Global, unit: &Unit, out: &mut Vec<u8>) -> Result<(), OutOfMemory>
    ensures ok { OnOk result (out.new.items ≡ out.old.items ++ text_of (front unit.now)) }
    ensures err { OnErr result (out.new.items ≡ out.old.items) }
{
    let mut text = Vec::new(alloc);
    put_front(unit, &mut text)?;
    put(text.as_slice(), out)?;
    Ok(())
}

fn put_front(unit: &Unit, out: &mut Vec<u8>) -> Result<(), OutOfMemory>
    ensures { OnOk result (out.new.items ≡ out.old.items ++ front_text unit.now) }
{
    put_includes(unit.includes.as_slice(), out)?;
    put_arrays(unit.arrays.as_slice(), out)?;
    put(b"void ", out)?;
    put(unit.function.as_slice(), out)?;
    put(b"(void) {\n", out)?;
    Ok(())
}

fn put_includes(headers: &[Name], out: &mut Vec<u8>) -> Result<(), OutOfMemory>
    ensures { OnOk result (out.new.items ≡ out.old.items ++ flat_map include_text headers.now) }
{
    for header in headers {
        put_include(header, out)?;
    }
    Ok(())
}

fn put_include(header: &Name, out: &mut Vec<u8>) -> Result<(), OutOfMemory>
    ensures { OnOk result (out.new.items ≡ out.old.items ++ include_text header.now) }
{
    put(b"#include ", out)?;
    put(header.as_slice(), out)?;
    put(b"\n", out)?;
    Ok(())
}

fn put_arrays(arrays: &[Array], out: &mut Vec<u8>) -> Result<(), OutOfMemory>
    ensures { OnOk result (out.new.items ≡ out.old.items ++ flat_map array_text arrays.now) }
{
    for array in arrays {
        put_array(array, out)?;
    }
    Ok(())
}

fn put_array(array: &Array, out: &mut Vec<u8>) -> Result<(), OutOfMemory>
    ensures { OnOk result (out.new.items ≡ out.old.items ++ array_text array.now) }
{
    put(kind_words(array.kind), out)?;
    put(b" ", out)?;
    put(array.name.as_slice(), out)?;
    put_sizes(array.dims.as_slice(), out)?;
    put(b";\n", out)?;
    Ok(())
}

fn put_sizes(sizes: &[u32], out: &mut Vec<u8>) -> Result<(), OutOfMemory>
    ensures { OnOk result (out.new.items ≡ out.old.items ++ flat_map size_text sizes.now) }
{
    for size in sizes {
        put_size(*size, out)?;
    }
    Ok(())
}

fn put_size(size: u32, out: &mut Vec<u8>) -> Result<(), OutOfMemory>
    ensures { OnOk result (out.new.items ≡ out.old.items ++ size_text size) }
{
    put(b"[", out)?;
    put_number(u64::from(size), out)?;
    put(b"]", out)?;
    Ok(())
}
