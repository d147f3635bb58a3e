//! The loops of a unit, one after another, and their plans.

ghost use Rattle.std.specs.Prelude.{◌≡◌, ◌<◌, [], ◌∷◌, ◌++◌, true, false, drop, take, length, ℕ, List, All, OnOk, IfOk, IfSome, MatchOption};
ghost use Rattle.species_ast.specs.declared.tree.Loop.{out-Loop};
ghost use Rattle.species_ast.specs.declared.tree.Stmt.TheVariants.{For};
ghost use Rattle.species_ast.specs.Scope.Hulls as hulls;
ghost use Rattle.species_ast.specs.Scope.Loops.{Standing};
ghost use Rattle.species_ast.specs.Scope.WellMade.{IsWellMade};
ghost use Rattle.species_arcs.specs.Sizes.{HasSmallSpan};
ghost use Rattle.species_ranges.specs.Fitting.{fits_in, fits_in_list, fits_in_loop};
ghost use Rattle.species_annotate.specs.Loops.{Head, heads_in, heads_in_list, heads_of, IsPlanOfFirst};

use species_arcs::Nest;
use species_ast::{Loop, OutOfMemory, Stmt, Unit};
use species_classify::plan_nest;
use species_loops::{Header, Path};
use species_ranges::path_of;
use std::alloc::Global;
use std::marker::Model;

/// A loop, and the ranges of the loops around it.
#[derive(Drop)]
pub(crate) struct PlacedLoop<'a> {
    head: &'a Loop,
    path: Path,
}

impl<'a> Model for PlacedLoop<'a> {
    ghost use Rattle.std.specs.Coded.{codes};
    ghost use Rattle.species_ast.specs.contracts.tree.Expr as expr;
    ghost use Rattle.species_ast.specs.contracts.tree.Stmt as stmt;
    ghost use Rattle.species_ast.specs.contracts.tree.Loop as looped;
    ghost use Rattle.species_annotate.specs.Loops.{Head};

    ghost Value = { Head };

    ghost coded = { Prim.hlevel (codes, expr.the_row.coded, stmt.the_row.coded, looped.the_row.coded) };

    ghost view = { λ p. record { loop = p.head.now; path = p.path } };
}

/// The loops of a well made unit from one on, in the order of the text.
#[derive(Drop)]
pub(crate) struct Loops<'a> {
    unit: &'a Unit,
    placed: Vec<PlacedLoop<'a>>,
    next: usize,
}

impl<'a> Model for Loops<'a> {
    ghost use Rattle.std.specs.Prelude.{◌≡◌, drop};
    ghost use Rattle.std.specs.Coded.{codes};
    ghost use Rattle.species_ast.specs.contracts.tree.Expr as expr;
    ghost use Rattle.species_ast.specs.contracts.tree.Stmt as stmt;
    ghost use Rattle.species_ast.specs.contracts.tree.Loop as looped;
    ghost use Rattle.species_ast.specs.Scope.WellMade.{IsWellMade};
    ghost use Rattle.species_annotate.specs.Loops.{LoopsLeft, heads_of};

    ghost Value = { LoopsLeft };

    ghost coded = { Prim.hlevel (codes, expr.the_row.coded, stmt.the_row.coded, looped.the_row.coded) };

    ghost view = { λ l. record { unit = l.unit.now; left = drop l.next l.placed.items } };

    ghost invariant = { λ l. IsWellMade l.unit.now × (l.placed.items ≡ heads_of l.unit.now) };
}

/// Adds a loop where it stands.
fn add_head<'a>(
    alloc: Global,
    head: &'a Loop,
    path: &Path,
    found: &mut Vec<PlacedLoop<'a>>,
) -> Result<(), OutOfMemory>
    ensures { OnOk result (found.new.items ≡ found.old.items ++ record { loop = head.now; path = path.now } ∷ []) }
{
    let path = path_of(alloc, path.as_slice())?;
    found.push(PlacedLoop { head, path })?;
    Ok(())
}

/// Goes into a loop. Of one that passes the limit on hulls, which no lawful program has, the range is left out.
fn enter(alloc: Global, head: &Loop, path: &mut Path) -> Result<(), OutOfMemory>
    ensures kept { OnOk result (take (length path.old) path.new ≡ path.old) }
    ensures open { OnOk result (hulls.passes_hull path.old (out-Loop head.now) ≡ false → length path.old < 16 → path.new ≡ path.old ++ hulls.range_of path.old (out-Loop head.now) ∷ []) }
{
    let header = Header::of(alloc, head)?;
    if header.passes_hull(path.as_slice()) {
        return Ok(());
    }
    let range = header.range(alloc, path.as_slice())?;
    path.enter(range)?;
    Ok(())
}

/// Adds the loops in a statement.
#[cycle(placed)]
fn add_stmt<'a>(
    alloc: Global,
    statement: &'a Stmt,
    path: &mut Path,
    found: &mut Vec<PlacedLoop<'a>>,
) -> Result<(), OutOfMemory>
    ensures found { OnOk result (fits_in statement.now path.old ≡ true → (s : Standing) → s.around.path ≡ path.old → found.new.items ≡ found.old.items ++ heads_in statement.now s) }
    ensures same { OnOk result (path.new ≡ path.old) }
{
    match statement {
        Stmt::If {
            body,
            otherwise,
            ..
        } => {
            add_list(alloc, body.as_slice(), path, found)?;
            add_list(alloc, otherwise.as_slice(), path, found)?;
            Ok(())
        }
        Stmt::For(head) => {
            add_loop(alloc, head, path, found)?;
            Ok(())
        }
        Stmt::Block(body) => {
            add_list(alloc, body.as_slice(), path, found)?;
            Ok(())
        }
        Stmt::Assign { .. } => Ok(()),
        Stmt::AddTo { .. } => Ok(()),
        Stmt::Declare { .. } => Ok(()),
        Stmt::SetLocal { .. } => Ok(()),
    }
}

#[cycle(placed)]
fn add_list<'a>(
    alloc: Global,
    statements: &'a [Stmt],
    path: &mut Path,
    found: &mut Vec<PlacedLoop<'a>>,
) -> Result<(), OutOfMemory>
    ensures found { OnOk result (fits_in_list statements.now path.old ≡ true → (s : Standing) (k : ℕ) → s.around.path ≡ path.old → found.new.items ≡ found.old.items ++ heads_in_list statements.now s k) }
    ensures same { OnOk result (path.new ≡ path.old) }
{
    for statement in statements {
        add_stmt(alloc, statement, path, found)?;
    }
    Ok(())
}

/// Adds a loop and the loops in it.
#[cycle(placed)]
fn add_loop<'a>(
    alloc: Global,
    head: &'a Loop,
    path: &mut Path,
    found: &mut Vec<PlacedLoop<'a>>,
) -> Result<(), OutOfMemory>
    ensures found { OnOk result (fits_in_loop head.now path.old ≡ true → (s : Standing) → s.around.path ≡ path.old → found.new.items ≡ found.old.items ++ heads_in (For head.now) s) }
    ensures same { OnOk result (path.new ≡ path.old) }
{
    let depth = path.len();
    add_head(alloc, head, path, found)?;
    enter(alloc, head, path)?;
    add_list(alloc, head.body.as_slice(), path, found)?;
    path.leave(depth);
    Ok(())
}

impl<'a> Loops<'a> {
    /// All loops of a unit.
    pub(crate) fn of(alloc: Global, unit: &'a Unit) -> Result<Loops<'a>, OutOfMemory>
        requires { IsWellMade unit.now }
        ensures { IfOk result (λ loops. loops ≡ record { unit = unit.now; left = heads_of unit.now }) }
    {
        let mut path = Path::new(alloc);
        let mut placed = Vec::new(alloc);
        add_list(alloc, unit.body.as_slice(), &mut path, &mut placed)?;
        Ok(Loops {
            unit,
            placed,
            next: 0,
        })
    }

    /// The plan of the next loop, if there is one.
    pub(crate) fn plan(&self, alloc: Global) -> Result<Option<Nest>, OutOfMemory>
        ensures plan { IfOk result (λ found. MatchOption found (self.now.left ≡ []) (IsPlanOfFirst self.now)) }
        ensures spans { IfOk result (λ found. IfSome found (λ nest. All (λ a. All HasSmallSpan a.dims) nest.arcs)) }
    {
        match self.placed.as_slice().get(self.next) {
            Some(placed) => {
                let nest = plan_nest(alloc, self.unit, placed.head, placed.path.as_slice())?;
                Ok(Some(nest))
            }
            None => Ok(None),
        }
    }

    /// Goes past the next loop.
    pub(crate) fn pass(&mut self)
        ensures { self.new ≡ record self.old { left = drop 1 self.old.left } }
    {
        if self.next < self.placed.len() {
            self.next += 1;
        }
    }
}
