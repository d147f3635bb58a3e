//! What is refused of the loops of a unit.

ghost use Rattle.std.specs.Prelude.{◌≡◌, ◌<◌, ◌+◌, ◌||◌, ◌&&◌, not, ℕ, false, ◌∷◌, [], ◌++◌, map, take, length, IfOk, OnOk};
ghost use Rattle.species_ast.specs.declared.tree.Loop.{out-Loop};
ghost use Rattle.species_ast.specs.Scope.Hulls as hulls;
ghost use Rattle.species_ast.specs.Scope.Loops.{Standing, list_loops, loops_in};
ghost use Rattle.species_ast.specs.Scope.Nests as nests;
ghost use Rattle.species_ast.specs.Scope.Conditions.{refused_loops};
ghost use Rattle.species_names.specs.Kept.{kept};
ghost use Rattle.species_limits.specs.Found.{found_at, found_of};
ghost use Rattle.species_limits.specs.Placed.{loops_from, passes};
ghost use Rattle.species_limits.specs.Standings.{StandsAt};

use species_ast::{Loop, Mark, OutOfMemory, Stmt, Unit};
use species_loops::{Header, Path, is_band, passes_bound};
use species_names::{Findings, Limit, Refusal};
use std::alloc::Global;

/// Loops inside one another.
const MOST_LOOPS: u32 = 8;

/// The size of a step.
const MOST_STEP: u32 = 65536;

/// How many loops stand around a place, whether one has a parallel mark, and whether one passes the limits Loops, Hull or
/// Bound.
#[derive(Clone, Copy)]
pub(crate) struct At {
    level: u32,
    in_nest: bool,
    passed: bool,
}

/// Notes what is refused of the loops of a unit.
pub fn note_loops(alloc: Global, unit: &Unit, limits: &mut Findings) -> Result<(), OutOfMemory>
    ensures { OnOk result (limits.new ≡ kept limits.old (refused_loops unit.now)) }
{
    let mut path = Path::new(alloc);
    let outside = At {
        level: 0,
        in_nest: false,
        passed: false,
    };
    walk_all(alloc, unit.body.as_slice(), outside, &mut path, limits)?;
    Ok(())
}

#[cycle(walk)]
fn walk_all(
    alloc: Global,
    all: &[Stmt],
    at: At,
    path: &mut Path,
    limits: &mut Findings,
) -> Result<(), OutOfMemory>
    ensures found { OnOk result ((s : Standing) (k : ℕ) → StandsAt at path.old s → limits.new ≡ found_of limits.old (list_loops (map loops_in all.now) s k)) }
    ensures same { OnOk result (path.new ≡ path.old) }
{
    for stmt in all {
        walk(alloc, stmt, at, path, limits)?;
    }
    Ok(())
}

#[cycle(walk)]
fn walk(
    alloc: Global,
    stmt: &Stmt,
    at: At,
    path: &mut Path,
    limits: &mut Findings,
) -> Result<(), OutOfMemory>
    ensures found { OnOk result ((s : Standing) → StandsAt at path.old s → limits.new ≡ found_of limits.old (loops_in stmt.now s)) }
    ensures same { OnOk result (path.new ≡ path.old) }
{
    match stmt {
        Stmt::For(head) => {
            walk_loop(alloc, head, at, path, limits)?;
            Ok(())
        }
        Stmt::If {
            body,
            otherwise,
            ..
        } => {
            walk_all(alloc, body.as_slice(), at, path, limits)?;
            walk_all(alloc, otherwise.as_slice(), at, path, limits)?;
            Ok(())
        }
        Stmt::Block(body) => {
            walk_all(alloc, body.as_slice(), at, path, limits)?;
            Ok(())
        }
        Stmt::Assign { .. } => Ok(()),
        Stmt::AddTo { .. } => Ok(()),
        Stmt::Declare { .. } => Ok(()),
        Stmt::SetLocal { .. } => Ok(()),
    }
}

#[cycle(walk)]
fn walk_loop(
    alloc: Global,
    head: &Loop,
    at: At,
    path: &mut Path,
    limits: &mut Findings,
) -> Result<(), OutOfMemory>
    ensures found { OnOk result ((s : Standing) → StandsAt at path.old s → limits.new ≡ found_of limits.old (loops_from head.now s)) }
    ensures same { OnOk result (path.new ≡ path.old) }
{
    let inner = note_loop(alloc, head, at, path, limits)?;
    let depth = path.len();
    enter(alloc, head, inner.passed, path)?;
    walk_all(alloc, head.body.as_slice(), inner, path, limits)?;
    path.leave(depth);
    Ok(())
}

/// Notes what is refused of a loop itself, and gives how what is in it stands.
fn note_loop(
    alloc: Global,
    head: &Loop,
    at: At,
    path: &Path,
    limits: &mut Findings,
) -> Result<At, OutOfMemory>
    ensures found { OnOk result ((s : Standing) → StandsAt at path.now s → limits.new ≡ kept limits.old (found_at (record { head = head.now; stands = s }))) }
    ensures level { IfOk result (λ a. a.level ≡ at.level + 1) }
    ensures in_nest { IfOk result (λ a. a.in_nest ≡ (at.in_nest || nests.is_parallel (out-Loop head.now).mark)) }
    ensures passed { IfOk result (λ a. a.passed ≡ (at.passed || passes at path.now (out-Loop head.now))) }
{
    let hull = unless_passed(at, Header::of(alloc, head)?.passes_hull(path.as_slice()));
    let bound = unless_passed(at, passes_bound(head, path.as_slice()));
    let deep = at.level >= MOST_LOOPS;
    let far = head.step.unsigned_abs() > MOST_STEP;
    let bad = is_bad_mark(at, head);
    limits.note_if(deep, Refusal::LimitPassed(Limit::Loops), head.place);
    limits.note_if(hull, Refusal::LimitPassed(Limit::Hull), head.place);
    limits.note_if(far, Refusal::LimitPassed(Limit::Step), head.place);
    limits.note_if(bound, Refusal::LimitPassed(Limit::Bound), head.place);
    limits.note_if(bad, Refusal::BadMark, head.place);
    let level = at.level.checked_add(1).ok_or(OutOfMemory)?;
    let passed = either(at.passed, either(deep, either(hull, bound)));
    let in_nest = either(at.in_nest, is_parallel(head.mark));
    Ok(At {
        level,
        in_nest,
        passed,
    })
}

/// Hull and Bound are asked of no loop that stands within one which passes a limit.
fn unless_passed(at: At, passes: bool) -> bool
    ensures { result ≡ (not at.passed && passes) }
{
    !at.passed && passes
}

fn either(a: bool, b: bool) -> bool
    ensures { result ≡ (a || b) }
{
    a || b
}

fn is_parallel(mark: Mark) -> bool
    ensures { result ≡ nests.is_parallel mark }
{
    match mark {
        Mark::Plain => false,
        Mark::Parallel { .. } => true,
    }
}

/// Whether the mark of a loop is a parallel one in a parallel nest, or does not fit.
fn is_bad_mark(at: At, head: &Loop) -> bool
    ensures { result ≡ nests.is_bad_mark at.in_nest at.level (out-Loop head.now).mark (nests.front_of head.now) }
{
    match head.mark {
        Mark::Plain => false,
        Mark::Parallel { depth, .. } => either(at.in_nest, !is_band(head, at.level, depth)),
    }
}

/// Goes into a loop, where neither it nor one around it passes a limit.
fn enter(alloc: Global, head: &Loop, passed: bool, path: &mut Path) -> Result<(), OutOfMemory>
    requires { passed ≡ false → hulls.passes_hull path.old (out-Loop head.now) ≡ false }
    ensures kept { OnOk result (take (length path.old) path.new ≡ path.old) }
    ensures open { OnOk result (passed ≡ false → length path.old < 16 → path.new ≡ path.old ++ hulls.range_of path.old (out-Loop head.now) ∷ []) }
{
    if passed {
        return Ok(());
    }
    let range = Header::of(alloc, head)?.range(alloc, path.as_slice())?;
    path.enter(range)?;
    Ok(())
}
