//! The actions of single statements, where `i` is 1.
ghost use Rattle.std.specs.Prelude.{◌≡◌, ◌<◌, [], ◌∷◌, IfOk, length};
ghost use Rattle.species_ast.specs.declared.tree.Expr.TheVariants as expr;
ghost use Rattle.species_ast.specs.declared.tree.Stmt.TheVariants as stmt;
ghost use Rattle.bones_meaning.specs.Doubling as example;

use crate::statements::walk_scope;
use crate::tape::{Stop, Tape};
use crate::{Frame, action_at};
use species_ast::{
    Action, Array, Binary, Dims, Expr, Includes, Kind, LocalInfo, Loop, Mark, Name, OutOfMemory,
    Stmt, Test, Unit, Value,
};
use sqlite_items::{Boxed, Items};
use std::alloc::Global;
use std::test::Fail;

// ---- int A[4], B[4]; and for (int i = 0; i < 4; i++) { B[i] = 2 * A[i]; }

/// The subscript `i`.
fn subs(alloc: Global) -> Result<Items<Expr>, OutOfMemory>
    ensures { IfOk result (λ all. all ≡ expr.Iter 0 ∷ []) }
{
    let mut all = Items::new(alloc);
    all.push(Expr::Iter(0))?;
    Ok(all)
}

/// `2 * A[i]`
fn twice(alloc: Global) -> Result<Boxed<Expr>, OutOfMemory>
    ensures { IfOk result (λ e. e ≡ example.twice) }
{
    let two = Boxed::new(alloc, Expr::Literal(Value::Int(2)))?;
    let subs = subs(alloc)?;
    let element = Boxed::new(alloc, Expr::Elem(0, subs))?;
    Ok(Boxed::new(alloc, Expr::Binary(Binary::Mul, two, element))?)
}

/// `B[i] = 2 * A[i];`
fn body(alloc: Global) -> Result<Items<Stmt>, OutOfMemory>
    ensures { IfOk result (λ all. all ≡ example.body) }
{
    let value = twice(alloc)?;
    let subs = subs(alloc)?;
    let mut all = Items::new(alloc);
    all.push(Stmt::Assign {
        place: 20,
        array: 1,
        subs,
        value: value.into_inner(),
    })?;
    Ok(all)
}

/// The loop around it.
fn around(alloc: Global) -> Result<Items<Stmt>, OutOfMemory>
    ensures { IfOk result (λ all. all ≡ stmt.For example.loop ∷ []) }
{
    let iter = Name::new(alloc, b"i")?;
    let body = body(alloc)?;
    let mut all = Items::new(alloc);
    all.push(Stmt::For(Loop {
        place: 10,
        iter,
        start: Expr::Literal(Value::Int(0)),
        test: Test::Lt,
        limit: Expr::Literal(Value::Int(4)),
        step: 1,
        body,
        line: None,
        mark: Mark::Plain,
    }))?;
    Ok(all)
}

fn array(alloc: Global, name: &[u8], kind: Kind) -> Result<Array, OutOfMemory>
    ensures { IfOk result (λ a. a ≡ record { name = name.now; kind = kind; dims = 4 ∷ [] }) }
{
    let dims = Vec::from_slice(alloc, &[4])?;
    Ok(Array {
        name: Name::new(alloc, name)?,
        kind,
        dims: Dims::from_vec(dims),
    })
}

fn two_arrays(alloc: Global) -> Result<Items<Array>, OutOfMemory>
    ensures { IfOk result (λ all. all ≡ example.unit.arrays) }
{
    let mut all = Items::new(alloc);
    all.push(array(alloc, b"A", Kind::Int)?)?;
    all.push(array(alloc, b"B", Kind::Int)?)?;
    Ok(all)
}

fn unit(alloc: Global) -> Result<Unit, OutOfMemory>
    ensures { IfOk result (λ u. u ≡ example.unit) }
{
    let arrays = two_arrays(alloc)?;
    let body = around(alloc)?;
    Ok(Unit {
        includes: Includes::new(alloc),
        arrays,
        locals: Items::new(alloc),
        function: Name::new(alloc, b"k")?,
        body,
    })
}

/// The action after so many of an iteration of the loop, whose reads got these answers.
fn next(alloc: Global, answers: &[Value], done: u64) -> Result<Action, OutOfMemory>
    requires { done < length (example.doubling answers.now) }
{
    let unit = unit(alloc)?;
    let body = body(alloc)?;
    let iters = Vec::from_slice(alloc, &[1])?;
    let frame = Frame::new(iters, Vec::new(alloc));
    action_at(alloc, &unit, body.as_slice(), &frame, answers, done)
}

/// Its read is answered by 6.
fn next_of_six(alloc: Global, done: u64) -> Result<Action, OutOfMemory>
    requires { done < 3 }
{
    next(alloc, &[Value::Int(6)], done)
}

/// Its read has no answer.
fn first(alloc: Global) -> Result<Action, OutOfMemory> {
    next(alloc, &[], 0)
}

#[test]
fn a_read_and_a_write(rt: HostRuntime) -> Result<(), Fail> {
    let alloc = rt.alloc();
    let read = Action::Read { array: 0, at: 1 };
    let write = Action::Write {
        array: 1,
        at: 1,
        value: Value::Int(12),
    };
    assert_eq!(rt; next_of_six(alloc, 0)?, read);
    assert_eq!(rt; next_of_six(alloc, 1)?, write);
    assert_eq!(rt; next_of_six(alloc, 2)?, Action::Done);
    assert_eq!(rt; first(alloc)?, read);
    Ok(())
}

// ---- unsigned u[4]; and a local int x

fn unit_of_sums(alloc: Global) -> Result<Unit, OutOfMemory> {
    let mut arrays = two_arrays(alloc)?;
    arrays.push(array(alloc, b"u", Kind::Unsigned)?)?;
    let mut locals = Items::new(alloc);
    locals.push(LocalInfo {
        name: Name::from_vec(Vec::new(alloc)),
        kind: Kind::Int,
    })?;
    Ok(Unit {
        includes: Includes::new(alloc),
        arrays,
        locals,
        function: Name::from_vec(Vec::new(alloc)),
        body: Items::new(alloc),
    })
}

/// `x = 3;`
fn set() -> Stmt {
    Stmt::SetLocal {
        place: 0,
        local: 0,
        value: Expr::Literal(Value::Int(3)),
    }
}

/// `M[i] += -1;`, atomically.
fn added(alloc: Global, array: u32) -> Result<Stmt, OutOfMemory> {
    let subs = subs(alloc)?;
    Ok(Stmt::AddTo {
        place: 0,
        array,
        subs,
        value: Expr::Literal(Value::Int(-1)),
        atomic: true,
    })
}

/// The next action of an iteration of this statement, which has no loop around it.
fn walked(alloc: Global, stmt: Stmt, done: u64) -> Result<Option<Action>, OutOfMemory> {
    let mut body = Items::new(alloc);
    body.push(stmt)?;
    let iters = Vec::from_slice(alloc, &[1])?;
    let mut frame = Frame::new(iters, Vec::from_slice(alloc, &[None])?);
    let mut tape = Tape::new(&[], done);
    let whole = body.as_slice();
    match walk_scope(&unit_of_sums(alloc)?, whole, whole, &mut frame, &mut tape) {
        Ok(()) => Ok(Some(Action::Done)),
        Err(Stop::At(next)) => Ok(next),
        Err(Stop::Memory) => Err(OutOfMemory),
    }
}

#[test]
fn faults_and_additions(rt: HostRuntime) -> Result<(), Fail> {
    let alloc = rt.alloc();
    let add = Action::Add {
        array: 2,
        at: 1,
        value: Value::Unsigned(4294967295),
    };
    assert_eq!(rt; walked(alloc, set(), 0)?, Some(Action::Fault));
    assert_eq!(rt; walked(alloc, added(alloc, 0)?, 0)?, Some(Action::Fault));
    assert_eq!(rt; walked(alloc, added(alloc, 2)?, 0)?, Some(add));
    assert_eq!(rt; walked(alloc, added(alloc, 2)?, 1)?, Some(Action::Done));
    Ok(())
}
