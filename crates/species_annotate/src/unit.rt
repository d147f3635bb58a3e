//! The unit with its lines.
//!
//! The loops are walked in the order of the text. A loop that is sequential is gone into, and the loops in it
//! are planned in their turn; those in a parallel nest stay as they are.

ghost use Rattle.std.specs.Prelude.{◌≡◌, ◌++◌, [], ◌∷◌, ℕ, List, Some, IfOk, OnOk};
ghost use Rattle.species_ast.specs.declared.tree.Loop.{out-Loop, roll-Loop};
ghost use Rattle.species_ast.specs.declared.tree.Mark.TheVariants as mark;
ghost use Rattle.species_ast.specs.declared.tree.Stmt.TheVariants.{For};
ghost use Rattle.species_ast.specs.Scope.Loops.{Standing};
ghost use Rattle.species_ast.specs.Marks.{IsUnmarked};
ghost use Rattle.species_ast.specs.Scope.References.{HasReadSize};
ghost use Rattle.species_ast.specs.Scope.WellMade.{IsWellMade};
ghost use Rattle.species_ast.specs.Strip.{source_of};
ghost use Rattle.species_annotate.specs.Annotated.{Around, names_in, BecomesStmt, BecomeAll, IsAnnotated, outside};
ghost use Rattle.species_annotate.specs.Loops.{Head, heads_in, heads_in_list};

use crate::lines::{enter, leave, line_of, names_of};
use crate::loops::Loops;
use species_ast::{
    LineText, Loop, Mark, OutOfMemory, Stmt, Unit, copy_expr, copy_loop, copy_stmt, copy_stmts,
    strip,
};
use species_notation::Names;
use sqlite_items::Items;
use std::alloc::Global;

/// Goes past the loops in a statement.
#[cycle(pass)]
fn pass_stmt(statement: &Stmt, loops: &mut Loops<'_>)
    ensures unit { loops.new.unit ≡ loops.old.unit }
    ensures left { (s : Standing) (rest : List Head) → loops.old.left ≡ heads_in statement.now s ++ rest → loops.new.left ≡ rest }
{
    match statement {
        Stmt::If {
            body,
            otherwise,
            ..
        } => {
            pass_list(body.as_slice(), loops);
            pass_list(otherwise.as_slice(), loops);
        }
        Stmt::For(head) => {
            loops.pass();
            pass_list(head.body.as_slice(), loops);
        }
        Stmt::Block(body) => pass_list(body.as_slice(), loops),
        Stmt::Assign { .. } => {}
        Stmt::AddTo { .. } => {}
        Stmt::Declare { .. } => {}
        Stmt::SetLocal { .. } => {}
    }
}

#[cycle(pass)]
fn pass_list(statements: &[Stmt], loops: &mut Loops<'_>)
    ensures unit { loops.new.unit ≡ loops.old.unit }
    ensures left { (s : Standing) (k : ℕ) (rest : List Head) → loops.old.left ≡ heads_in_list statements.now s k ++ rest → loops.new.left ≡ rest }
{
    for statement in statements {
        pass_stmt(statement, loops);
    }
}

/// The loop with this line and body.
fn lined(
    alloc: Global,
    head: &Loop,
    line: Option<LineText>,
    body: Items<Stmt>,
) -> Result<Loop, OutOfMemory>
    ensures { IfOk result (λ new. new ≡ roll-Loop (record (out-Loop head.now) { body = body; line = line; mark = mark.Plain })) }
{
    let iter = head.iter.copy(alloc)?;
    let start = copy_expr(alloc, &head.start)?;
    let limit = copy_expr(alloc, &head.limit)?;
    Ok(Loop {
        place: head.place,
        iter,
        start,
        test: head.test,
        limit,
        step: head.step,
        body,
        line,
        mark: Mark::Plain,
    })
}

/// The statement with its lines.
#[cycle(annotate)]
fn annotate_stmt(
    alloc: Global,
    statement: &Stmt,
    loops: &mut Loops<'_>,
    names: &mut Names,
) -> Result<Stmt, OutOfMemory>
    ensures unit { OnOk result (loops.new.unit ≡ loops.old.unit) }
    ensures names { OnOk result (names.new ≡ names.old) }
    ensures left { OnOk result ((s : Standing) (rest : List Head) → loops.old.left ≡ heads_in statement.now s ++ rest → loops.new.left ≡ rest) }
    ensures becomes { IfOk result (λ new. (w : Around) (s : Standing) (rest : List Head) → s.around.path ≡ w.path → names.old ≡ names_in loops.old.unit w.iters → loops.old.left ≡ heads_in statement.now s ++ rest → BecomesStmt loops.old.unit w statement.now new) }
{
    match statement {
        Stmt::If {
            place,
            test,
            body,
            otherwise,
        } => {
            let body = annotate_list(alloc, body.as_slice(), loops, names)?;
            let otherwise = annotate_list(alloc, otherwise.as_slice(), loops, names)?;
            let test = copy_expr(alloc, test)?;
            Ok(Stmt::If {
                place: *place,
                test,
                body,
                otherwise,
            })
        }
        Stmt::For(head) => {
            let head = annotate_loop(alloc, head, loops, names)?;
            Ok(Stmt::For(head))
        }
        Stmt::Block(body) => {
            let body = annotate_list(alloc, body.as_slice(), loops, names)?;
            Ok(Stmt::Block(body))
        }
        Stmt::Assign { .. } => Ok(copy_stmt(alloc, statement)?),
        Stmt::AddTo { .. } => Ok(copy_stmt(alloc, statement)?),
        Stmt::Declare { .. } => Ok(copy_stmt(alloc, statement)?),
        Stmt::SetLocal { .. } => Ok(copy_stmt(alloc, statement)?),
    }
}

#[cycle(annotate)]
fn annotate_list(
    alloc: Global,
    statements: &[Stmt],
    loops: &mut Loops<'_>,
    names: &mut Names,
) -> Result<Items<Stmt>, OutOfMemory>
    ensures unit { OnOk result (loops.new.unit ≡ loops.old.unit) }
    ensures names { OnOk result (names.new ≡ names.old) }
    ensures left { OnOk result ((s : Standing) (k : ℕ) (rest : List Head) → loops.old.left ≡ heads_in_list statements.now s k ++ rest → loops.new.left ≡ rest) }
    ensures becomes { IfOk result (λ new. (w : Around) (s : Standing) (k : ℕ) (rest : List Head) → s.around.path ≡ w.path → names.old ≡ names_in loops.old.unit w.iters → loops.old.left ≡ heads_in_list statements.now s k ++ rest → BecomeAll loops.old.unit w statements.now new) }
{
    let mut lined = Items::new(alloc);
    for statement in statements {
        lined.push(annotate_stmt(alloc, statement, loops, names)?)?;
    }
    Ok(lined)
}

/// The loop, which is the next one, with its line. What stands in a sequential loop gets its lines.
#[cycle(annotate)]
fn annotate_loop(
    alloc: Global,
    head: &Loop,
    loops: &mut Loops<'_>,
    names: &mut Names,
) -> Result<Loop, OutOfMemory>
    ensures unit { OnOk result (loops.new.unit ≡ loops.old.unit) }
    ensures names { OnOk result (names.new ≡ names.old) }
    ensures left { OnOk result ((s : Standing) (rest : List Head) → loops.old.left ≡ heads_in (For head.now) s ++ rest → loops.new.left ≡ rest) }
    ensures becomes { IfOk result (λ new. (w : Around) (s : Standing) (rest : List Head) → s.around.path ≡ w.path → names.old ≡ names_in loops.old.unit w.iters → loops.old.left ≡ heads_in (For head.now) s ++ rest → BecomesStmt loops.old.unit w (For head.now) (For new)) }
{
    let Some(nest) = loops.plan(alloc)? else {
        return Ok(copy_loop(alloc, head)?);
    };
    loops.pass();
    let line = line_of(alloc, head, &nest, names)?;
    if nest.depth == 0 {
        let level = names.iters.len();
        enter(alloc, head, names)?;
        let body = annotate_list(alloc, head.body.as_slice(), loops, names)?;
        leave(level, names);
        return Ok(lined(alloc, head, Some(line), body)?);
    }
    pass_list(head.body.as_slice(), loops);
    let body = copy_stmts(alloc, head.body.as_slice())?;
    Ok(lined(alloc, head, Some(line), body)?)
}

/// The body of a unit without marks, with its lines.
fn annotated_body(alloc: Global, unit: &Unit) -> Result<Items<Stmt>, OutOfMemory>
    requires { IsWellMade unit.now }
    ensures { IfOk result (BecomeAll unit.now outside unit.now.body) }
{
    let mut loops = Loops::of(alloc, unit)?;
    let mut names = names_of(alloc, unit)?;
    Ok(annotate_list(alloc, unit.body.as_slice(), &mut loops, &mut names)?)
}

/// The unit with the species line of each nest that is planned, and without any other marks or lines.
pub fn annotate(alloc: Global, unit: &Unit) -> Result<Unit, OutOfMemory>
    requires { IsWellMade unit.now }
    ensures plan { IfOk result (IsAnnotated unit.now) }
    ensures source { IfOk result (λ lined. source_of lined ≡ source_of unit.now) }
    ensures unmarked { IfOk result IsUnmarked }
    ensures well_made { IfOk result IsWellMade }
    ensures size { HasReadSize unit.now → IfOk result HasReadSize }
{
    let source = strip(alloc, unit, false)?;
    let body = annotated_body(alloc, &source)?;
    let Unit {
        includes,
        arrays,
        locals,
        function,
        body: _,
    } = source;
    Ok(Unit {
        includes,
        arrays,
        locals,
        function,
        body,
    })
}
