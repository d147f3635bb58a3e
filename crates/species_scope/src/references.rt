//! The limit on array references: how many each outermost loop of a unit has.

ghost use Rattle.std.specs.Prelude.{◌≡◌, ◌+◌, ◌<◌, ◌∷◌, [], ◌++◌, true, false, ℕ, map, flat_map, take, length, OnOk, IfOk};
ghost use Rattle.species_ast.specs.declared.tree.Loop.{out-Loop};
ghost use Rattle.species_ast.specs.Scope.Hulls as hulls;
ghost use Rattle.species_ast.specs.Scope.Loops.{Nesting, no_loops, outermost_in};
ghost use Rattle.species_ast.specs.Scope.References.{Where, elements_of, no_adds, stmt_references, list_references, loop_references, unless_empty, reference_count};
ghost use Rattle.species_ast.specs.Scope.WellMade.{made, list_keeps};
ghost use Rattle.species_ast.specs.Scope.Conditions.{refused_references};
ghost use Rattle.species_names.specs.Kept.{kept};
ghost use Rattle.species_loops.specs.Ranges.{ranges_seen};
ghost use Rattle.species_scope.specs.Referenced.{head_made, Reached, large_in, elements_in};

use species_ast::{Expr, Loop, OutOfMemory, Stmt, Unit};
use species_linear::LoopRange;
use species_loops::{Header, Path};
use species_names::{Findings, Limit, Refusal};
use std::alloc::Global;

/// The array references of an outermost loop.
const MOST_REFERENCES: u64 = 512;

/// A number of references.
#[derive(Clone, Copy)]
pub(crate) struct Count {
    pub(crate) references: u64,
}

impl Count {
    fn more(&mut self, references: u64) -> Result<(), OutOfMemory>
        ensures { OnOk result (self.new.references ≡ self.old.references + references) }
    {
        self.references = self.references.checked_add(references).ok_or(OutOfMemory)?;
        Ok(())
    }
}

/// Counts the elements in an expression.
#[cycle(count_in)]
fn count_in(e: &Expr, count: &mut Count) -> Result<(), OutOfMemory>
    ensures { OnOk result (count.new.references ≡ count.old.references + (elements_of e.now).count) }
{
    match e {
        Expr::Literal(_) => Ok(()),
        Expr::Iter(_) => Ok(()),
        Expr::Local(_) => Ok(()),
        Expr::Elem(_, subs) => {
            count_in_all(subs.as_slice(), count)?;
            count.more(1)?;
            Ok(())
        }
        Expr::Unary(_, a) => {
            count_in(a.get(), count)?;
            Ok(())
        }
        Expr::Cast(_, a) => {
            count_in(a.get(), count)?;
            Ok(())
        }
        Expr::Binary(_, a, b) => {
            count_in(a.get(), count)?;
            count_in(b.get(), count)?;
            Ok(())
        }
        Expr::And(a, b) => {
            count_in(a.get(), count)?;
            count_in(b.get(), count)?;
            Ok(())
        }
        Expr::Or(a, b) => {
            count_in(a.get(), count)?;
            count_in(b.get(), count)?;
            Ok(())
        }
        Expr::Cond(test, a, b) => {
            count_in(test.get(), count)?;
            count_in(a.get(), count)?;
            count_in(b.get(), count)?;
            Ok(())
        }
    }
}

#[cycle(count_in)]
fn count_in_all(all: &[Expr], count: &mut Count) -> Result<(), OutOfMemory>
    ensures { OnOk result (count.new.references ≡ count.old.references + elements_in all.now) }
{
    for e in all {
        count_in(e, count)?;
    }
    Ok(())
}

/// Counts the references of a statement in loops with these ranges.
#[cycle(count)]
fn count_stmt(
    alloc: Global,
    stmt: &Stmt,
    path: &mut Path,
    count: &mut Count,
) -> Result<(), OutOfMemory>
    ensures found { OnOk result ((n : Nesting) (g : Where) → Reached path.old n g → (made stmt.now).keeps n ≡ true
        → count.new.references ≡ count.old.references + length (stmt_references no_adds stmt.now g 0)) }
    ensures same { OnOk result (path.new ≡ path.old) }
{
    match stmt {
        Stmt::Assign { subs, value, .. } => {
            count_in_all(subs.as_slice(), count)?;
            count_in(value, count)?;
            count.more(1)?;
            Ok(())
        }
        Stmt::AddTo { subs, value, .. } => {
            count_in_all(subs.as_slice(), count)?;
            count_in(value, count)?;
            count.more(2)?;
            Ok(())
        }
        Stmt::Declare { init, .. } => match init {
            Some(value) => {
                count_in(value, count)?;
                Ok(())
            }
            None => Ok(()),
        },
        Stmt::SetLocal { value, .. } => {
            count_in(value, count)?;
            Ok(())
        }
        Stmt::If {
            test,
            body,
            otherwise,
            ..
        } => {
            count_in(test, count)?;
            count_list(alloc, body.as_slice(), path, count)?;
            count_list(alloc, otherwise.as_slice(), path, count)?;
            Ok(())
        }
        Stmt::For(head) => {
            count_loop(alloc, head, path, count)?;
            Ok(())
        }
        Stmt::Block(body) => {
            count_list(alloc, body.as_slice(), path, count)?;
            Ok(())
        }
    }
}

#[cycle(count)]
fn count_list(
    alloc: Global,
    all: &[Stmt],
    path: &mut Path,
    count: &mut Count,
) -> Result<(), OutOfMemory>
    ensures found { OnOk result ((n : Nesting) (g : Where) (k : ℕ) → Reached path.old n g → list_keeps (map made all.now) n ≡ true
        → count.new.references ≡ count.old.references + length (list_references (map (stmt_references no_adds) all.now) g k 0)) }
    ensures same { OnOk result (path.new ≡ path.old) }
{
    for stmt in all {
        count_stmt(alloc, stmt, path, count)?;
    }
    Ok(())
}

fn is_empty(path: &[LoopRange]) -> bool
    ensures { result ≡ hulls.has_empty (ranges_seen path.now) }
{
    for range in path {
        if range.high < range.low {
            return true;
        }
    }
    false
}

/// Counts the references of an inner loop.
#[cycle(count)]
fn count_loop(
    alloc: Global,
    head: &Loop,
    path: &mut Path,
    count: &mut Count,
) -> Result<(), OutOfMemory>
    ensures found { OnOk result ((n : Nesting) (g : Where) → Reached path.old n g → (head_made head.now).keeps n ≡ true
        → count.new.references ≡ count.old.references + length (loop_references no_adds head.now g 0)) }
    ensures same { OnOk result (path.new ≡ path.old) }
{
    let depth = path.len();
    enter(alloc, head, path)?;
    count_inside(alloc, head.body.as_slice(), path, count)?;
    path.leave(depth);
    Ok(())
}

/// Counts the references of what stands in an inner loop, but where the hull is empty.
#[cycle(count)]
fn count_inside(
    alloc: Global,
    all: &[Stmt],
    path: &mut Path,
    count: &mut Count,
) -> Result<(), OutOfMemory>
    ensures found { OnOk result ((n : Nesting) (g : Where) → Reached path.old n g → list_keeps (map made all.now) n ≡ true
        → count.new.references ≡ count.old.references + length (unless_empty 0 path.old (list_references (map (stmt_references no_adds) all.now) g 0 0))) }
    ensures same { OnOk result (path.new ≡ path.old) }
{
    if is_empty(path.as_slice()) {
        return Ok(());
    }
    count_list(alloc, all, path, count)?;
    Ok(())
}

/// Goes into a loop that passes no limit.
fn enter(alloc: Global, head: &Loop, path: &mut Path) -> Result<(), OutOfMemory>
    ensures kept { OnOk result (take (length path.old) path.new ≡ path.old) }
    ensures open { OnOk result (hulls.passes_hull path.old (out-Loop head.now) ≡ false → length path.old < 16 → path.new ≡ path.old ++ hulls.range_of path.old (out-Loop head.now) ∷ []) }
{
    let header = Header::of(alloc, head)?;
    if header.passes_hull(path.as_slice()) {
        return Ok(());
    }
    let range = header.range(alloc, path.as_slice())?;
    path.enter(range)?;
    Ok(())
}

/// How many references an outermost loop has.
fn reference_count(alloc: Global, head: &Loop) -> Result<u64, OutOfMemory>
    ensures { (head_made head.now).keeps no_loops ≡ true → IfOk result (λ n. n ≡ reference_count head.now) }
{
    let mut path = Path::new(alloc);
    let mut count = Count { references: 0 };
    enter(alloc, head, &mut path)?;
    count_list(alloc, head.body.as_slice(), &mut path, &mut count)?;
    Ok(count.references)
}

#[cycle(note)]
fn note_stmt(alloc: Global, stmt: &Stmt, found: &mut Findings) -> Result<(), OutOfMemory>
    ensures { OnOk result ((made stmt.now).keeps no_loops ≡ true → found.new ≡ kept found.old (large_in (outermost_in stmt.now))) }
{
    match stmt {
        Stmt::For(head) => {
            let count = reference_count(alloc, head)?;
            let large = count > MOST_REFERENCES;
            found.note_if(large, Refusal::LimitPassed(Limit::References), head.place);
            Ok(())
        }
        Stmt::If {
            body,
            otherwise,
            ..
        } => {
            note_list(alloc, body.as_slice(), found)?;
            note_list(alloc, otherwise.as_slice(), found)?;
            Ok(())
        }
        Stmt::Block(body) => {
            note_list(alloc, body.as_slice(), found)?;
            Ok(())
        }
        Stmt::Assign { .. } => Ok(()),
        Stmt::AddTo { .. } => Ok(()),
        Stmt::Declare { .. } => Ok(()),
        Stmt::SetLocal { .. } => Ok(()),
    }
}

#[cycle(note)]
fn note_list(alloc: Global, all: &[Stmt], found: &mut Findings) -> Result<(), OutOfMemory>
    ensures { OnOk result (list_keeps (map made all.now) no_loops ≡ true → found.new ≡ kept found.old (large_in (flat_map outermost_in all.now))) }
{
    for stmt in all {
        note_stmt(alloc, stmt, found)?;
    }
    Ok(())
}

/// Notes the outermost loops of a unit that have too many references, where the unit's loops keep the other limits.
pub(crate) fn note_references(
    alloc: Global,
    unit: &Unit,
    found: &mut Findings,
) -> Result<(), OutOfMemory>
    ensures { OnOk result (list_keeps (map made unit.now.body) no_loops ≡ true → found.new ≡ kept found.old (refused_references unit.now)) }
{
    note_list(alloc, unit.body.as_slice(), found)?;
    Ok(())
}
