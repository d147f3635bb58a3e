//! What assignments become.

ghost use Rattle.std.specs.Prelude.{◌≡◌, ◌++◌, ◌∷◌, [], true, false, IfOk, OnOk, length};
ghost use Rattle.std.specs.Option.{option_map};
ghost use Rattle.species_ast.specs.Scope.Expressions.{reading, target_in};
ghost use Rattle.species_ast.specs.Scope.Statements.{assigned, combined, increased, operated, one, assigned_names, change_fragment, atomic_fragment};
ghost use Rattle.species_names.specs.Seen.{seen};
ghost use Rattle.species_names.specs.Noted.{noted};
ghost use Rattle.species_scope.specs.Targets.{bare, target_seen};

use crate::expressions::{boxed_value, expressions, value};
use species_ast::{
    Binary, Expr, OutOfMemory, RawChange, RawExpr, RawOp, RawTarget, Stmt, Value, copy_exprs,
};
use species_names::{Findings, Meaning, Place, Role};
use sqlite_items::{Boxed, Items};
use std::alloc::Global;

/// A target that is set.
#[derive(Drop)]
pub(crate) struct Target {
    pub(crate) means: Option<Meaning>,
    pub(crate) subs: Items<Expr>,
}

/// A target that is set; what is refused of its names is noted.
fn set_target(
    alloc: Global,
    raw: &RawTarget,
    place: &Place,
    found: &mut Findings,
) -> Result<Target, OutOfMemory>
    ensures value { IfOk result (λ t. target_seen t ≡ bare (target_in raw.now place.now)) }
    ensures noted { OnOk result (found.new ≡ noted place.now.iterators found.old (assigned_names place.now (target_in raw.now place.now))) }
{
    let means = place.meaning(&raw.name);
    found.note_name(
        &raw.name,
        Role::Assigned(raw.subs.len()),
        &means,
        place.iterators(),
    );
    let subs = expressions(alloc, raw.subs.as_slice(), place, found)?;
    Ok(Target { means, subs })
}

/// The target is set to a value.
fn assign(
    at: u32,
    target: Target,
    value: Boxed<Expr>,
    place: &Place,
    out: &mut Items<Stmt>,
) -> Result<(), OutOfMemory>
    ensures { OnOk result (out.new ≡ out.old ++ assigned place.now at (target_seen target) value) }
{
    let Target { means, subs } = target;
    match means {
        Some(Meaning::Array(array, _)) => {
            out.push(Stmt::Assign {
                place: at,
                array,
                subs,
                value: value.into_inner(),
            })?;
            Ok(())
        }
        Some(Meaning::Variable(x)) => {
            out.push(Stmt::SetLocal {
                place: at,
                local: place.number(x.serial),
                value: value.into_inner(),
            })?;
            Ok(())
        }
        Some(Meaning::Iterator(_)) => Ok(()),
        Some(Meaning::Function) => Ok(()),
        None => Ok(()),
    }
}

/// The target is set to what an operator gives of its value and another.
fn combine(
    alloc: Global,
    at: u32,
    op: Binary,
    target: Target,
    by: Boxed<Expr>,
    place: &Place,
    out: &mut Items<Stmt>,
) -> Result<(), OutOfMemory>
    ensures { OnOk result (out.new ≡ out.old ++ combined place.now at op (target_seen target) by) }
{
    let subs = copy_exprs(alloc, target.subs.as_slice())?;
    let before = Boxed::new(alloc, value(&target.means, subs, place))?;
    let made = Boxed::new(alloc, Expr::Binary(op, before, by))?;
    assign(at, target, made, place, out)?;
    Ok(())
}

/// A value is added to the target.
fn increase(
    alloc: Global,
    at: u32,
    atomic: bool,
    target: Target,
    by: Boxed<Expr>,
    place: &Place,
    out: &mut Items<Stmt>,
) -> Result<(), OutOfMemory>
    ensures { OnOk result (out.new ≡ out.old ++ increased place.now at atomic (target_seen target) by) }
{
    match target.means {
        Some(Meaning::Array(array, _)) => {
            let Target { subs, .. } = target;
            out.push(Stmt::AddTo {
                place: at,
                array,
                subs,
                value: by.into_inner(),
                atomic,
            })?;
            Ok(())
        }
        Some(Meaning::Variable(_)) => {
            combine(alloc, at, Binary::Add, target, by, place, out)?;
            Ok(())
        }
        Some(Meaning::Iterator(_)) => Ok(()),
        Some(Meaning::Function) => Ok(()),
        None => Ok(()),
    }
}

fn operate(
    alloc: Global,
    at: u32,
    op: RawOp,
    target: Target,
    by: Boxed<Expr>,
    place: &Place,
    out: &mut Items<Stmt>,
) -> Result<(), OutOfMemory>
    ensures { OnOk result (out.new ≡ out.old ++ operated place.now at op (target_seen target) by) }
{
    match op {
        RawOp::Plain => assign(at, target, by, place, out)?,
        RawOp::Add => increase(alloc, at, false, target, by, place, out)?,
        RawOp::Sub => combine(alloc, at, Binary::Sub, target, by, place, out)?,
        RawOp::Mul => combine(alloc, at, Binary::Mul, target, by, place, out)?,
        RawOp::Div => combine(alloc, at, Binary::Div, target, by, place, out)?,
        RawOp::Rem => combine(alloc, at, Binary::Rem, target, by, place, out)?,
        RawOp::BitAnd => combine(alloc, at, Binary::BitAnd, target, by, place, out)?,
        RawOp::BitXor => combine(alloc, at, Binary::BitXor, target, by, place, out)?,
        RawOp::BitOr => combine(alloc, at, Binary::BitOr, target, by, place, out)?,
        RawOp::Shl => combine(alloc, at, Binary::Shl, target, by, place, out)?,
        RawOp::Shr => combine(alloc, at, Binary::Shr, target, by, place, out)?,
    }
    Ok(())
}

fn one_more(alloc: Global) -> Result<Boxed<Expr>, OutOfMemory>
    ensures { IfOk result (λ e. e ≡ one) }
{
    let e = Boxed::new(alloc, Expr::Literal(Value::Int(1)))?;
    Ok(e)
}

/// An assignment, or a step by one.
pub(crate) fn change(
    alloc: Global,
    at: u32,
    raw: &RawChange,
    place: &Place,
    found: &mut Findings,
    out: &mut Items<Stmt>,
) -> Result<(), OutOfMemory>
    ensures made { OnOk result (out.new ≡ out.old ++ (change_fragment at raw.now place.now).statements) }
    ensures noted { OnOk result (found.new ≡ noted place.now.iterators found.old (change_fragment at raw.now place.now).notes.names) }
{
    match raw {
        RawChange::Set(t, op, e) => {
            let t = set_target(alloc, t, place, found)?;
            let by = boxed_value(alloc, e, place, found)?;
            operate(alloc, at, *op, t, by, place, out)?;
            Ok(())
        }
        RawChange::Up(t) => {
            let t = set_target(alloc, t, place, found)?;
            let by = one_more(alloc)?;
            increase(alloc, at, false, t, by, place, out)?;
            Ok(())
        }
        RawChange::UpBefore(t) => {
            let t = set_target(alloc, t, place, found)?;
            let by = one_more(alloc)?;
            increase(alloc, at, false, t, by, place, out)?;
            Ok(())
        }
        RawChange::Down(t) => {
            let t = set_target(alloc, t, place, found)?;
            let by = one_more(alloc)?;
            combine(alloc, at, Binary::Sub, t, by, place, out)?;
            Ok(())
        }
        RawChange::DownBefore(t) => {
            let t = set_target(alloc, t, place, found)?;
            let by = one_more(alloc)?;
            combine(alloc, at, Binary::Sub, t, by, place, out)?;
            Ok(())
        }
    }
}

/// An addition under a pragma that makes it atomic.
pub(crate) fn atomic(
    alloc: Global,
    at: u32,
    target: &RawTarget,
    value: &RawExpr,
    place: &Place,
    found: &mut Findings,
    out: &mut Items<Stmt>,
) -> Result<(), OutOfMemory>
    ensures made { OnOk result (out.new ≡ out.old ++ (atomic_fragment at (target_in target.now) (reading value.now) place.now).statements) }
    ensures noted { OnOk result (found.new ≡ noted place.now.iterators found.old (atomic_fragment at (target_in target.now) (reading value.now) place.now).notes.names) }
{
    let t = set_target(alloc, target, place, found)?;
    let by = boxed_value(alloc, value, place, found)?;
    increase(alloc, at, true, t, by, place, out)?;
    Ok(())
}
