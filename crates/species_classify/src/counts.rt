//! How many references a nest has at most.

ghost use Rattle.std.specs.Prelude.{◌≡◌, ◌+◌, ◌<◌, ◌^◌, IfOk, OnOk};
ghost use Rattle.species_ast.specs.Scope.References.{elements_of};
ghost use Rattle.species_classify.specs.Counts.{elements_in, most_in, most_in_list, most_in_loop};

use species_ast::{Expr, Loop, OutOfMemory, Stmt};

/// A number of references, which 32 bits hold.
#[derive(Clone, Copy)]
struct Count {
    references: u32,
}

impl Count {
    fn more(&mut self, references: u32) -> Result<(), OutOfMemory>
        ensures { OnOk result (self.new.references ≡ self.old.references + references) }
    {
        self.references = self.references.checked_add(references).ok_or(OutOfMemory)?;
        Ok(())
    }
}

/// Counts the elements in an expression.
#[cycle(elements)]
fn count_in(e: &Expr, count: &mut Count) -> Result<(), OutOfMemory>
    ensures { OnOk result (count.new.references ≡ count.old.references + (elements_of e.now).count) }
{
    match e {
        Expr::Literal(_) => Ok(()),
        Expr::Iter(_) => Ok(()),
        Expr::Local(_) => Ok(()),
        Expr::Elem(_, subs) => {
            count_in_all(subs.as_slice(), count)?;
            count.more(1)?;
            Ok(())
        }
        Expr::Unary(_, a) => {
            count_in(a.get(), count)?;
            Ok(())
        }
        Expr::Cast(_, a) => {
            count_in(a.get(), count)?;
            Ok(())
        }
        Expr::Binary(_, a, b) => {
            count_in(a.get(), count)?;
            count_in(b.get(), count)?;
            Ok(())
        }
        Expr::And(a, b) => {
            count_in(a.get(), count)?;
            count_in(b.get(), count)?;
            Ok(())
        }
        Expr::Or(a, b) => {
            count_in(a.get(), count)?;
            count_in(b.get(), count)?;
            Ok(())
        }
        Expr::Cond(test, a, b) => {
            count_in(test.get(), count)?;
            count_in(a.get(), count)?;
            count_in(b.get(), count)?;
            Ok(())
        }
    }
}

#[cycle(elements)]
fn count_in_all(all: &[Expr], count: &mut Count) -> Result<(), OutOfMemory>
    ensures { OnOk result (count.new.references ≡ count.old.references + elements_in all.now) }
{
    for e in all {
        count_in(e, count)?;
    }
    Ok(())
}

/// Counts the references of a statement, as if each loop in it had turns and each `+=` were two.
#[cycle(references)]
fn count_stmt(stmt: &Stmt, count: &mut Count) -> Result<(), OutOfMemory>
    ensures { OnOk result (count.new.references ≡ count.old.references + most_in stmt.now) }
{
    match stmt {
        Stmt::Assign { subs, value, .. } => {
            count_in_all(subs.as_slice(), count)?;
            count_in(value, count)?;
            count.more(1)?;
            Ok(())
        }
        Stmt::AddTo { subs, value, .. } => {
            count_in_all(subs.as_slice(), count)?;
            count_in(value, count)?;
            count.more(2)?;
            Ok(())
        }
        Stmt::Declare { init, .. } => match init {
            Some(value) => {
                count_in(value, count)?;
                Ok(())
            }
            None => Ok(()),
        },
        Stmt::SetLocal { value, .. } => {
            count_in(value, count)?;
            Ok(())
        }
        Stmt::If {
            test,
            body,
            otherwise,
            ..
        } => {
            count_in(test, count)?;
            count_list(body.as_slice(), count)?;
            count_list(otherwise.as_slice(), count)?;
            Ok(())
        }
        Stmt::For(head) => {
            count_list(head.body.as_slice(), count)?;
            Ok(())
        }
        Stmt::Block(body) => {
            count_list(body.as_slice(), count)?;
            Ok(())
        }
    }
}

#[cycle(references)]
fn count_list(all: &[Stmt], count: &mut Count) -> Result<(), OutOfMemory>
    ensures { OnOk result (count.new.references ≡ count.old.references + most_in_list all.now) }
{
    for stmt in all {
        count_stmt(stmt, count)?;
    }
    Ok(())
}

/// How many references the nest of a loop has at most. A number that 32 bits do not hold gets the answer for
/// want of memory.
fn most_references(head: &Loop) -> Result<u32, OutOfMemory>
    ensures { IfOk result (λ most. most ≡ most_in_loop head.now) }
{
    let mut count = Count { references: 0 };
    count_list(head.body.as_slice(), &mut count)?;
    Ok(count.references)
}

/// Gives up where the nest of a loop may have 2^32 references, too many to be numbered.
pub(crate) fn check_references(head: &Loop) -> Result<(), OutOfMemory>
    ensures { OnOk result (most_in_loop head.now < 2 ^ 32) }
{
    let _most = most_references(head)?;
    Ok(())
}
