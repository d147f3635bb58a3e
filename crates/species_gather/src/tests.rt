//! Each join of its kind, and a nest that adds to one array.
use crate::{
    Gather, Greatest, Greatest64, Least, Least64, Sort, WrapAdd, WrapAdd64, join_of, sum_arrays,
};
use species_ast::{
    Array, Dims, Expr, Includes, Kind, Loop, Mark, Name, OutOfMemory, Stmt, Test, Unit, Value,
};
use sqlite_items::Items;
use std::alloc::Global;
use std::test::Fail;

/// The values joined, where the join takes both.
fn joined<G: Gather>(left: Value, right: Value) -> Option<Value> {
    if G::takes(left) && G::takes(right) {
        Some(G::join(left, right))
    } else {
        None
    }
}

#[test]
fn each_join_of_its_kind(rt: HostRuntime) -> Result<(), Fail> {
    let most = Value::UnsignedLong(u64::MAX);
    let two = Value::UnsignedLong(2);
    let low = Value::Int(-3);
    let high = Value::Int(4);
    let low_long = Value::Long(-3);
    let high_long = Value::Long(4);
    assert_eq!(rt;
        joined::<WrapAdd>(Value::Unsigned(u32::MAX), Value::Unsigned(2)),
        Some(Value::Unsigned(1))
    );
    assert_eq!(rt;
        joined::<WrapAdd64>(most, two),
        Some(Value::UnsignedLong(1))
    );
    assert_eq!(rt; joined::<WrapAdd>(low, high), None);
    assert_eq!(rt; joined::<Least>(low, high), Some(low));
    assert_eq!(rt; joined::<Greatest>(low, high), Some(high));
    assert_eq!(rt; joined::<Least64>(high_long, low_long), Some(low_long));
    assert_eq!(rt; joined::<Greatest64>(high_long, low_long), Some(high_long));
    assert_eq!(rt; joined::<Least>(low_long, high_long), None);
    Ok(())
}

#[test]
fn the_join_that_a_sort_names(rt: HostRuntime) -> Result<(), Fail> {
    assert_eq!(rt;
        join_of(Sort::Sum, Value::Unsigned(7), Value::Unsigned(8)),
        Value::Unsigned(15)
    );
    assert_eq!(rt;
        join_of(Sort::Least, Value::Long(7), Value::Long(-8)),
        Value::Long(-8)
    );
    assert_eq!(rt;
        join_of(Sort::Greatest, Value::Int(7), Value::Int(-8)),
        Value::Int(7)
    );
    Ok(())
}

// ---- unsigned h[4], int g[4], and unsigned u[4]

fn array(alloc: Global, kind: Kind) -> Result<Array, OutOfMemory> {
    Ok(Array {
        name: Name::from_vec(Vec::new(alloc)),
        kind,
        dims: Dims::from_vec(Vec::from_slice(alloc, &[4])?),
    })
}

fn unit(alloc: Global) -> Result<Unit, OutOfMemory> {
    let mut arrays = Items::new(alloc);
    arrays.push(array(alloc, Kind::Unsigned)?)?;
    arrays.push(array(alloc, Kind::Int)?)?;
    arrays.push(array(alloc, Kind::Unsigned)?)?;
    Ok(Unit {
        includes: Includes::new(alloc),
        arrays,
        locals: Items::new(alloc),
        function: Name::from_vec(Vec::new(alloc)),
        body: Items::new(alloc),
    })
}

/// `M[N[0]] += 1;`
fn counted(alloc: Global, array: u32, index: u32) -> Result<Stmt, OutOfMemory> {
    let mut inner = Items::new(alloc);
    inner.push(Expr::Literal(Value::Int(0)))?;
    let mut subs = Items::new(alloc);
    subs.push(Expr::Elem(index, inner))?;
    Ok(Stmt::AddTo {
        place: 0,
        array,
        subs,
        value: Expr::Literal(Value::Int(1)),
        atomic: false,
    })
}

fn around(alloc: Global, body: Items<Stmt>) -> Loop {
    Loop {
        place: 0,
        iter: Name::from_vec(Vec::new(alloc)),
        start: Expr::Literal(Value::Int(0)),
        test: Test::Lt,
        limit: Expr::Literal(Value::Int(4)),
        step: 1,
        body,
        line: None,
        mark: Mark::Plain,
    }
}

#[test]
fn arrays_that_are_only_added_to(rt: HostRuntime) -> Result<(), Fail> {
    let alloc = rt.alloc();
    let mut body = Items::new(alloc);
    body.push(counted(alloc, 0, 1)?)?;
    body.push(counted(alloc, 1, 2)?)?;
    body.push(counted(alloc, 2, 1)?)?;
    let found = sum_arrays(alloc, &unit(alloc)?, &around(alloc, body))?;
    assert_eq!(rt; found.as_slice(), &[0][..]);
    Ok(())
}
