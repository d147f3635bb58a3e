//! The ranges of the loops of a nest.

ghost use Rattle.std.specs.Prelude.{◌≡◌, ◌<◌, [], ◌∷◌, ◌++◌, true, false, take, length, List, OnOk, IfOk};
ghost use Rattle.species_ast.specs.declared.tree.Loop.{out-Loop};
ghost use Rattle.species_ast.specs.Scope.Hulls as hulls;
ghost use Rattle.species_linear.specs.Box.{HasSmallEnds, HasSmallPath};
ghost use Rattle.species_linear.specs.Point.{IsShort};
ghost use Rattle.species_references.specs.Ranges.{range_seen, ranges_seen, ranges_in, ranges_in_list, ranges_in_loop};
ghost use Rattle.species_ranges.specs.Fitting.{fits_in, fits_in_list, fits_in_loop};

use species_ast::{Loop, OutOfMemory, Stmt};
use species_linear::{LoopRange, Ranges};
use species_loops::{Header, Path};
use std::alloc::Global;

/// The loops with these ranges, as a path.
pub fn path_of(alloc: Global, ranges: &[LoopRange]) -> Result<Path, OutOfMemory>
    requires short { IsShort ranges.now }
    requires ends { HasSmallPath ranges.now }
    ensures { IfOk result (λ path. path ≡ ranges_seen ranges.now) }
{
    let mut path = Path::new(alloc);
    for range in ranges {
        path.enter(*range)?;
    }
    Ok(path)
}

/// The ranges of a loop and of all loops in it, in the order of the text. `path` has those of the loops
/// around it.
pub fn nest_ranges(alloc: Global, head: &Loop, path: &[LoopRange]) -> Result<Ranges, OutOfMemory>
    requires short { IsShort path.now }
    requires ends { HasSmallPath path.now }
    ensures ranges { IfOk result (λ found. fits_in_loop head.now (ranges_seen path.now) ≡ true → ranges_seen found ≡ ranges_in_loop head.now (ranges_seen path.now)) }
    ensures ends { IfOk result HasSmallPath }
{
    let mut around = path_of(alloc, path)?;
    let mut found = Ranges::new(alloc);
    add_loop(alloc, head, &mut around, &mut found)?;
    Ok(found)
}

/// Adds a range.
fn add_range(range: LoopRange, found: &mut Ranges) -> Result<(), OutOfMemory>
    requires { HasSmallEnds range }
    ensures found { OnOk result (ranges_seen found.new ≡ ranges_seen found.old ++ range_seen range ∷ []) }
    ensures ends { OnOk result (HasSmallPath found.old → HasSmallPath found.new) }
{
    found.push(range)?;
    Ok(())
}

/// Adds the range of a loop, and goes into it. Of one that passes the limit on hulls, which no lawful
/// program has, nothing is added.
fn enter(alloc: Global, head: &Loop, path: &mut Path, found: &mut Ranges) -> Result<(), OutOfMemory>
    ensures found { OnOk result (hulls.passes_hull path.old (out-Loop head.now) ≡ false → ranges_seen found.new ≡ ranges_seen found.old ++ hulls.range_of path.old (out-Loop head.now) ∷ []) }
    ensures ends { OnOk result (HasSmallPath found.old → HasSmallPath found.new) }
    ensures kept { OnOk result (take (length path.old) path.new ≡ path.old) }
    ensures open { OnOk result (hulls.passes_hull path.old (out-Loop head.now) ≡ false → length path.old < 16 → path.new ≡ path.old ++ hulls.range_of path.old (out-Loop head.now) ∷ []) }
{
    let header = Header::of(alloc, head)?;
    if header.passes_hull(path.as_slice()) {
        return Ok(());
    }
    let range = header.range(alloc, path.as_slice())?;
    add_range(range, found)?;
    path.enter(range)?;
    Ok(())
}

/// Adds the ranges of the loops in a statement.
#[cycle(ranges)]
fn add_stmt(
    alloc: Global,
    statement: &Stmt,
    path: &mut Path,
    found: &mut Ranges,
) -> Result<(), OutOfMemory>
    ensures found { OnOk result (fits_in statement.now path.old ≡ true → ranges_seen found.new ≡ ranges_seen found.old ++ ranges_in statement.now path.old) }
    ensures same { OnOk result (path.new ≡ path.old) }
    ensures ends { OnOk result (HasSmallPath found.old → HasSmallPath found.new) }
{
    match statement {
        Stmt::If {
            body,
            otherwise,
            ..
        } => {
            add_list(alloc, body.as_slice(), path, found)?;
            add_list(alloc, otherwise.as_slice(), path, found)?;
            Ok(())
        }
        Stmt::For(head) => {
            add_loop(alloc, head, path, found)?;
            Ok(())
        }
        Stmt::Block(body) => {
            add_list(alloc, body.as_slice(), path, found)?;
            Ok(())
        }
        Stmt::Assign { .. } => Ok(()),
        Stmt::AddTo { .. } => Ok(()),
        Stmt::Declare { .. } => Ok(()),
        Stmt::SetLocal { .. } => Ok(()),
    }
}

#[cycle(ranges)]
fn add_list(
    alloc: Global,
    statements: &[Stmt],
    path: &mut Path,
    found: &mut Ranges,
) -> Result<(), OutOfMemory>
    ensures found { OnOk result (fits_in_list statements.now path.old ≡ true → ranges_seen found.new ≡ ranges_seen found.old ++ ranges_in_list statements.now path.old) }
    ensures same { OnOk result (path.new ≡ path.old) }
    ensures ends { OnOk result (HasSmallPath found.old → HasSmallPath found.new) }
{
    for statement in statements {
        add_stmt(alloc, statement, path, found)?;
    }
    Ok(())
}

/// Adds the range of a loop and those of the loops in it.
#[cycle(ranges)]
fn add_loop(
    alloc: Global,
    head: &Loop,
    path: &mut Path,
    found: &mut Ranges,
) -> Result<(), OutOfMemory>
    ensures found { OnOk result (fits_in_loop head.now path.old ≡ true → ranges_seen found.new ≡ ranges_seen found.old ++ ranges_in_loop head.now path.old) }
    ensures same { OnOk result (path.new ≡ path.old) }
    ensures ends { OnOk result (HasSmallPath found.old → HasSmallPath found.new) }
{
    let depth = path.len();
    enter(alloc, head, path, found)?;
    add_list(alloc, head.body.as_slice(), path, found)?;
    path.leave(depth);
    Ok(())
}
