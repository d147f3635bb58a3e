//! The elements of a nest in order of evaluation.

ghost use Rattle.std.specs.Prelude.{◌≡◌, ◌++◌, ◌∷◌, [], OnOk, IfOk, nat_eq};
ghost use Rattle.std.specs.List.{list_any};
ghost use Rattle.species_ast.specs.Scope.Hulls.{has_empty};
ghost use Rattle.species_references.specs.Ranges.{ranges_seen, ranges_in, ranges_in_list, ranges_in_loop};
ghost use Rattle.species_references.specs.References.{direction_of, adds_of};
ghost use Rattle.species_references.specs.Occurrences.{all_seen, one_seen, seen_in, seen_in_all, seen_in_stmt, seen_in_list, seen_in_loop, seen_addition, is_left_out, Collected};

use species_arcs::Dir;
use species_ast::{Expr, Loop, OutOfMemory, Stmt};
use species_linear::{LoopRange, Ranges};
use std::alloc::Global;

/// An element where a nest evaluates it.
#[derive(Drop)]
pub(crate) struct Occurrence<'a> {
    pub(crate) array: u32,
    pub(crate) dir: Dir,
    pub(crate) subs: &'a [Expr],
    /// Whether it is evaluated only on a condition, within the nest.
    pub(crate) conditional: bool,
    /// The ranges of all loops around it.
    pub(crate) path: Ranges,
}

fn add_element<'a>(
    alloc: Global,
    array: u32,
    dir: Dir,
    subs: &'a [Expr],
    path: &[LoopRange],
    conditional: bool,
    found: &mut Vec<Occurrence<'a>>,
) -> Result<(), OutOfMemory>
    ensures { OnOk result (all_seen found.new.items ≡ all_seen found.old.items ++ one_seen (direction_of dir) array subs.now (ranges_seen path.now) conditional ∷ []) }
{
    let path = Ranges::from(Vec::from_slice(alloc, path)?);
    found.push(Occurrence {
        array,
        dir,
        subs,
        conditional,
        path,
    })?;
    Ok(())
}

/// Adds the elements that an expression reads.
#[cycle(reads)]
fn add_reads<'a>(
    alloc: Global,
    value: &'a Expr,
    path: &[LoopRange],
    conditional: bool,
    found: &mut Vec<Occurrence<'a>>,
) -> Result<(), OutOfMemory>
    ensures { OnOk result (all_seen found.new.items ≡ all_seen found.old.items ++ seen_in value.now (ranges_seen path.now) conditional) }
{
    match value {
        Expr::Elem(array, subs) => {
            add_all_reads(alloc, subs.as_slice(), path, conditional, found)?;
            add_element(
                alloc,
                *array,
                Dir::Read,
                subs.as_slice(),
                path,
                conditional,
                found,
            )?;
        }
        Expr::Unary(_, a) => add_reads(alloc, a.get(), path, conditional, found)?,
        Expr::Cast(_, a) => add_reads(alloc, a.get(), path, conditional, found)?,
        Expr::Binary(_, a, b) => {
            add_reads(alloc, a.get(), path, conditional, found)?;
            add_reads(alloc, b.get(), path, conditional, found)?;
        }
        Expr::And(left, right) => {
            add_reads(alloc, left.get(), path, conditional, found)?;
            add_reads(alloc, right.get(), path, true, found)?;
        }
        Expr::Or(a, b) => {
            add_reads(alloc, a.get(), path, conditional, found)?;
            add_reads(alloc, b.get(), path, true, found)?;
        }
        Expr::Cond(test, a, b) => {
            add_reads(alloc, test.get(), path, conditional, found)?;
            add_reads(alloc, a.get(), path, true, found)?;
            add_reads(alloc, b.get(), path, true, found)?;
        }
        Expr::Literal(_) => {}
        Expr::Iter(_) => {}
        Expr::Local(_) => {}
    }
    Ok(())
}

#[cycle(reads)]
fn add_all_reads<'a>(
    alloc: Global,
    values: &'a [Expr],
    path: &[LoopRange],
    conditional: bool,
    found: &mut Vec<Occurrence<'a>>,
) -> Result<(), OutOfMemory>
    ensures { OnOk result (all_seen found.new.items ≡ all_seen found.old.items ++ seen_in_all values.now (ranges_seen path.now) conditional) }
{
    for value in values {
        add_reads(alloc, value, path, conditional, found)?;
    }
    Ok(())
}

/// Adds the elements of `+=` behind those in its subscripts.
fn add_addition<'a>(
    alloc: Global,
    gathered: bool,
    array: u32,
    subs: &'a [Expr],
    value: &'a Expr,
    path: &[LoopRange],
    conditional: bool,
    found: &mut Vec<Occurrence<'a>>,
) -> Result<(), OutOfMemory>
    ensures { OnOk result (all_seen found.new.items ≡ all_seen found.old.items ++ seen_addition gathered array subs.now value.now (ranges_seen path.now) conditional) }
{
    if gathered {
        add_reads(alloc, value, path, conditional, found)?;
        add_element(alloc, array, Dir::Add, subs, path, conditional, found)?;
        return Ok(());
    }
    add_element(alloc, array, Dir::Read, subs, path, conditional, found)?;
    add_reads(alloc, value, path, conditional, found)?;
    add_element(alloc, array, Dir::Write, subs, path, conditional, found)?;
    Ok(())
}

fn is_gathered(gathered: &[u32], array: u32) -> bool
    ensures { result ≡ list_any (nat_eq array) gathered.now }
{
    gathered.iter().any(|g| array == *g)
}

fn has_empty(path: &[LoopRange]) -> bool
    ensures { result ≡ has_empty (ranges_seen path.now) }
{
    for range in path {
        if range.high < range.low {
            return true;
        }
    }
    false
}

/// Whether what stands in a loop is left out: below the band, where the loop's hull is empty.
fn is_left_out(band: u32, path: &[LoopRange]) -> bool
    ensures { result ≡ is_left_out band (has_empty (ranges_seen path.now)) }
{
    band == 0 && has_empty(path)
}

/// Adds the elements of a statement, and gives the ranges that are left. `ranges` begins with those of
/// the loops in it. So many loops of the band are still to come.
#[cycle(statements)]
fn add_stmt<'a, 'r>(
    alloc: Global,
    statement: &'a Stmt,
    path: &[LoopRange],
    conditional: bool,
    band: u32,
    gathered: &[u32],
    ranges: &'r [LoopRange],
    found: &mut Vec<Occurrence<'a>>,
) -> Result<&'r [LoopRange], OutOfMemory>
    ensures { IfOk result (λ rest. Collected (ranges_seen ranges.now) (ranges_in statement.now (ranges_seen path.now)) (ranges_seen rest.now) (all_seen found.old.items) (seen_in_stmt (adds_of gathered.now) statement.now (ranges_seen path.now) conditional band) (all_seen found.new.items)) }
{
    match statement {
        Stmt::Assign {
            array,
            subs,
            value,
            ..
        } => {
            add_all_reads(alloc, subs.as_slice(), path, conditional, found)?;
            add_reads(alloc, value, path, conditional, found)?;
            add_element(
                alloc,
                *array,
                Dir::Write,
                subs.as_slice(),
                path,
                conditional,
                found,
            )?;
            Ok(ranges)
        }
        Stmt::AddTo {
            array,
            subs,
            value,
            ..
        } => {
            add_all_reads(alloc, subs.as_slice(), path, conditional, found)?;
            add_addition(
                alloc,
                is_gathered(gathered, *array),
                *array,
                subs.as_slice(),
                value,
                path,
                conditional,
                found,
            )?;
            Ok(ranges)
        }
        Stmt::Declare { init, .. } => match init {
            Some(value) => {
                add_reads(alloc, value, path, conditional, found)?;
                Ok(ranges)
            }
            None => Ok(ranges),
        },
        Stmt::SetLocal { value, .. } => {
            add_reads(alloc, value, path, conditional, found)?;
            Ok(ranges)
        }
        Stmt::If {
            test,
            body,
            otherwise,
            ..
        } => {
            add_reads(alloc, test, path, conditional, found)?;
            let rest = add_list(
                alloc,
                body.as_slice(),
                path,
                true,
                band,
                gathered,
                ranges,
                found,
            )?;
            let rest = add_list(
                alloc,
                otherwise.as_slice(),
                path,
                true,
                band,
                gathered,
                rest,
                found,
            )?;
            Ok(rest)
        }
        Stmt::For(head) => {
            let rest = add_loop(
                alloc,
                head,
                path,
                conditional,
                band,
                gathered,
                ranges,
                found,
            )?;
            Ok(rest)
        }
        Stmt::Block(body) => {
            let rest = add_list(
                alloc,
                body.as_slice(),
                path,
                conditional,
                band,
                gathered,
                ranges,
                found,
            )?;
            Ok(rest)
        }
    }
}

#[cycle(statements)]
fn add_list<'a, 'r>(
    alloc: Global,
    statements: &'a [Stmt],
    path: &[LoopRange],
    conditional: bool,
    band: u32,
    gathered: &[u32],
    ranges: &'r [LoopRange],
    found: &mut Vec<Occurrence<'a>>,
) -> Result<&'r [LoopRange], OutOfMemory>
    ensures { IfOk result (λ rest. Collected (ranges_seen ranges.now) (ranges_in_list statements.now (ranges_seen path.now)) (ranges_seen rest.now) (all_seen found.old.items) (seen_in_list (adds_of gathered.now) statements.now (ranges_seen path.now) conditional band) (all_seen found.new.items)) }
{
    let mut rest = ranges;
    for statement in statements {
        rest = add_stmt(
            alloc,
            statement,
            path,
            conditional,
            band,
            gathered,
            rest,
            found,
        )?;
    }
    Ok(rest)
}

/// Adds the elements of a loop, and gives the ranges that are left. `ranges` begins with that of the loop.
#[cycle(statements)]
pub(crate) fn add_loop<'a, 'r>(
    alloc: Global,
    head: &'a Loop,
    path: &[LoopRange],
    conditional: bool,
    band: u32,
    gathered: &[u32],
    ranges: &'r [LoopRange],
    found: &mut Vec<Occurrence<'a>>,
) -> Result<&'r [LoopRange], OutOfMemory>
    ensures { IfOk result (λ rest. Collected (ranges_seen ranges.now) (ranges_in_loop head.now (ranges_seen path.now)) (ranges_seen rest.now) (all_seen found.old.items) (seen_in_loop (adds_of gathered.now) head.now (ranges_seen path.now) conditional band) (all_seen found.new.items)) }
{
    match ranges {
        [] => Ok(ranges),
        [range, after @ ..] => {
            let mut inner = Vec::from_slice(alloc, path)?;
            inner.push(*range)?;
            let before = found.len();
            let below = band.saturating_sub(1);
            let rest = add_list(
                alloc,
                head.body.as_slice(),
                inner.as_slice(),
                conditional,
                below,
                gathered,
                after,
                found,
            )?;
            if is_left_out(band, inner.as_slice()) {
                found.truncate(before);
                return Ok(rest);
            }
            Ok(rest)
        }
    }
}
