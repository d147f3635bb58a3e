//! The loops of a unit that stand in no other.

ghost use Rattle.std.specs.Prelude.{◌≡◌, ◌++◌, OnOk, IfOk};
ghost use Rattle.std.specs.List.{flat_map};
ghost use Rattle.species_ast.specs.Scope.Loops.{outermost_in, outermost_loops};
ghost use Rattle.species_report.specs.Heads.{loops_seen};

use species_ast::{Loop, OutOfMemory, Stmt, Unit};
use std::alloc::Global;

/// Adds the loops in a statement that stand in no other of its loops.
#[cycle(heads)]
fn add_stmt<'a>(statement: &'a Stmt, found: &mut Vec<&'a Loop>) -> Result<(), OutOfMemory>
    ensures { OnOk result (loops_seen found.new.items ≡ loops_seen found.old.items ++ outermost_in statement.now) }
{
    match statement {
        Stmt::For(head) => {
            found.push(head)?;
            Ok(())
        }
        Stmt::If {
            body,
            otherwise,
            ..
        } => {
            add_list(body.as_slice(), found)?;
            add_list(otherwise.as_slice(), found)?;
            Ok(())
        }
        Stmt::Block(body) => {
            add_list(body.as_slice(), found)?;
            Ok(())
        }
        Stmt::Assign { .. } => Ok(()),
        Stmt::AddTo { .. } => Ok(()),
        Stmt::Declare { .. } => Ok(()),
        Stmt::SetLocal { .. } => Ok(()),
    }
}

#[cycle(heads)]
fn add_list<'a>(statements: &'a [Stmt], found: &mut Vec<&'a Loop>) -> Result<(), OutOfMemory>
    ensures { OnOk result (loops_seen found.new.items ≡ loops_seen found.old.items ++ flat_map outermost_in statements.now) }
{
    for statement in statements {
        add_stmt(statement, found)?;
    }
    Ok(())
}

/// The loops of a unit that stand in no other, in the order of the text.
pub(crate) fn heads_of(alloc: Global, unit: &Unit) -> Result<Vec<&Loop>, OutOfMemory>
    ensures { IfOk result (λ heads. loops_seen heads.items ≡ outermost_loops unit.now) }
{
    let mut found = Vec::new(alloc);
    add_list(unit.body.as_slice(), &mut found)?;
    Ok(found)
}
