//! The local that is named of a nest.

use crate::locals::first_outer_local;
use species_ast::{Expr, OutOfMemory, Stmt, Value};
use sqlite_items::Items;
use std::alloc::Global;
use std::test::Fail;

/// These locals are set, in this order.
fn set_all(alloc: Global, locals: &[u32]) -> Result<Items<Stmt>, OutOfMemory> {
    let mut body = Items::new(alloc);
    for local in locals {
        body.push(Stmt::SetLocal {
            place: 0,
            local: *local,
            value: Expr::Literal(Value::Int(1)),
        })?;
    }
    Ok(body)
}

#[test]
fn first_of_the_outside(rt: HostRuntime) -> Result<(), Fail> {
    let alloc = rt.alloc();
    let mut body = set_all(alloc, &[7, 3, 5])?;
    assert_eq!(rt; first_outer_local(body.as_slice()), Some(7));
    body.push(Stmt::Declare {
        place: 0,
        local: 7,
        init: None,
    })?;
    assert_eq!(rt; first_outer_local(body.as_slice()), Some(3));
    let none = set_all(alloc, &[])?;
    assert_eq!(rt; first_outer_local(none.as_slice()), None);
    Ok(())
}
