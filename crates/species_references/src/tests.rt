//! References of nests, and references by array, with ample memory.
mod nests;
mod trees;

use super::*;
use species_arcs::Dir;
use species_ast::OutOfMemory;
use species_linear::Ranges;
use sqlite_items::Items;
use std::alloc::Global;
use std::test::Fail;

fn reference(alloc: Global, number: u32, array: u32) -> Reference {
    Reference {
        number,
        array,
        dir: Dir::Read,
        subs: Items::new(alloc),
        conditional: false,
        path: Ranges::new(alloc),
        boxes: Boxes::new(alloc),
    }
}

/// References to the arrays 3, 1 and 3.
fn three(alloc: Global) -> Result<Vec<Reference>, OutOfMemory> {
    let mut all = Vec::new(alloc);
    all.push(reference(alloc, 0, 3))?;
    all.push(reference(alloc, 1, 1))?;
    all.push(reference(alloc, 2, 3))?;
    Ok(all)
}

#[test]
fn by_array(rt: HostRuntime) -> Result<(), Fail> {
    let grouped = group(rt.alloc(), three(rt.alloc())?)?;
    assert_eq!(rt; grouped.as_slice().len(), 3);
    assert_eq!(rt; grouped.places_of(3), [0, 2].as_slice());
    assert_eq!(rt; grouped.places_of(1), [1].as_slice());
    assert_eq!(rt; grouped.places_of(2).len(), 0);
    Ok(())
}
