//! The species line of a nest.

ghost use Rattle.std.specs.Prelude.{◌≡◌, ◌++◌, ◌∷◌, [], ℕ, List, All, IfOk, OnOk, map, take, length};
ghost use Rattle.species_arcs.specs.Sizes.{HasSmallSpan};
ghost use Rattle.species_ast.specs.declared.tree.Loop.{out-Loop};
ghost use Rattle.species_ast.specs.declared.tree.Unit.{Unit as Program};
ghost use Rattle.species_nests.specs.Nests.{nest_in};
ghost use Rattle.species_annotate.specs.Annotated.{Around, band_names, iterators_of, names_in, plan_line};

use species_arcs::Nest;
use species_ast::{Array, LineText, LocalInfo, Loop, Name, OutOfMemory, Stmt, Unit};
use species_notation::{Names, write_line};
use sqlite_items::Items;
use std::alloc::Global;

fn array_names(alloc: Global, arrays: &[Array]) -> Result<Items<Name>, OutOfMemory>
    ensures { IfOk result (λ names. names ≡ map (λ a. a.name) arrays.now) }
{
    let mut names = Items::new(alloc);
    for array in arrays {
        names.push(array.name.copy(alloc)?)?;
    }
    Ok(names)
}

fn local_names(alloc: Global, locals: &[LocalInfo]) -> Result<Items<Name>, OutOfMemory>
    ensures { IfOk result (λ names. names ≡ map (λ l. l.name) locals.now) }
{
    let mut names = Items::new(alloc);
    for local in locals {
        names.push(local.name.copy(alloc)?)?;
    }
    Ok(names)
}

/// The names of a unit, outside of its loops.
pub(crate) fn names_of(alloc: Global, unit: &Unit) -> Result<Names, OutOfMemory>
    ensures { IfOk result (λ names. names ≡ names_in unit.now []) }
{
    Ok(Names {
        arrays: array_names(alloc, unit.arrays.as_slice())?,
        iters: Items::new(alloc),
        locals: local_names(alloc, unit.locals.as_slice())?,
    })
}

/// Names the iterator of a loop.
pub(crate) fn enter(alloc: Global, head: &Loop, names: &mut Names) -> Result<(), OutOfMemory>
    ensures { OnOk result (names.new ≡ record names.old { iters = names.old.iters ++ (out-Loop head.now).iter ∷ [] }) }
{
    names.iters.push(head.iter.copy(alloc)?)?;
    Ok(())
}

/// Goes out to a level.
pub(crate) fn leave(level: usize, names: &mut Names)
    ensures { names.new ≡ record names.old { iters = take level names.old.iters } }
{
    while names.iters.len() > level {
        names.iters.pop();
    }
}

/// Names the iterators of so many loops that are perfectly nested, from this one on.
#[cycle(band)]
fn enter_band(alloc: Global, head: &Loop, depth: u32, names: &mut Names) -> Result<(), OutOfMemory>
    ensures { OnOk result ((at : List ℕ) → names.new ≡ record names.old { iters = names.old.iters ++ band_names depth head.now at }) }
{
    if depth == 0 {
        return Ok(());
    }
    enter(alloc, head, names)?;
    enter_body(alloc, head.body.as_slice(), depth - 1, names)?;
    Ok(())
}

/// Names those of the loop that a body is, where blocks of one statement are looked through.
#[cycle(band)]
fn enter_body(
    alloc: Global,
    body: &[Stmt],
    depth: u32,
    names: &mut Names,
) -> Result<(), OutOfMemory>
    ensures { OnOk result ((at : List ℕ) → names.new ≡ record names.old { iters = names.old.iters ++ iterators_of (nest_in depth body.now at).loops }) }
{
    match body {
        [] => Ok(()),
        [only] => {
            enter_only(alloc, only, depth, names)?;
            Ok(())
        }
        [_, _, ..] => Ok(()),
    }
}

#[cycle(band)]
fn enter_only(
    alloc: Global,
    statement: &Stmt,
    depth: u32,
    names: &mut Names,
) -> Result<(), OutOfMemory>
    ensures { OnOk result ((at : List ℕ) → names.new ≡ record names.old { iters = names.old.iters ++ iterators_of (nest_in depth (statement.now ∷ []) at).loops }) }
{
    match statement {
        Stmt::For(head) => {
            enter_band(alloc, head, depth, names)?;
            Ok(())
        }
        Stmt::Block(body) => {
            enter_body(alloc, body.as_slice(), depth, names)?;
            Ok(())
        }
        Stmt::Assign { .. } => Ok(()),
        Stmt::AddTo { .. } => Ok(()),
        Stmt::Declare { .. } => Ok(()),
        Stmt::SetLocal { .. } => Ok(()),
        Stmt::If { .. } => Ok(()),
    }
}

/// The line of a loop with this plan, in loops whose iterators are named.
pub(crate) fn line_of(
    alloc: Global,
    head: &Loop,
    nest: &Nest,
    names: &mut Names,
) -> Result<LineText, OutOfMemory>
    requires { All (λ a. All HasSmallSpan a.dims) nest.now.arcs }
    ensures line { IfOk result (λ line. (u : Program) (w : Around) → names.old ≡ names_in u w.iters → line ≡ plan_line u w head.now nest.now) }
    ensures same { OnOk result (names.new ≡ names.old) }
{
    let level = names.iters.len();
    enter_band(alloc, head, nest.depth, names)?;
    let text = write_line(alloc, nest, names)?;
    leave(level, names);
    Ok(LineText::new(text, head.place))
}
