//! Which locals loops without `int` have as their iterators.

ghost use Rattle.std.specs.Prelude.{◌≡◌, ◌++◌, map, OnOk};
ghost use Rattle.std.specs.Option.{option_map, option_to_list};
ghost use Rattle.species_ast.specs.declared.raw.RawLoop.{out-RawLoop};
ghost use Rattle.species_ast.specs.Scope.Meanings.{Iterates, behind, meaning_of};
ghost use Rattle.species_ast.specs.Scope.Programs.{iterators_of, local_in};
ghost use Rattle.species_ast.specs.Scope.Statements.{declarator, in_order, stmt_fragment, iterator_role};
ghost use Rattle.species_scope.specs.Loops.{loop_walk};

use species_ast::{Kind, OutOfMemory, RawLocal, RawLoop, RawStmt, RawWhat};
use species_names::{Meaning, Place};
use sqlite_items::Items;

fn declare_locals<'a>(
    kind: Kind,
    all: &[RawLocal<'a>],
    place: &mut Place<'a>,
) -> Result<(), OutOfMemory>
    ensures { OnOk result (place.new ≡ (in_order (map (declarator kind) all.now) place.old).next) }
{
    for local in all {
        place.declare_local(&local.name, kind, local.init.is_some())?;
    }
    Ok(())
}

/// The local that a loop takes as its iterator, noted.
fn note_taken(raw: &RawLoop, place: &Place, found: &mut Items<u32>) -> Result<(), OutOfMemory>
    ensures { OnOk result (found.new ≡ found.old ++ option_to_list (local_in (iterator_role (out-RawLoop raw.now).typed) (meaning_of place.now (out-RawLoop raw.now).iter))) }
{
    if raw.typed {
        return Ok(());
    }
    match place.meaning(&raw.iter) {
        Some(Meaning::Variable(x)) => {
            found.push(x.serial)?;
            Ok(())
        }
        Some(Meaning::Array(_, _)) => Ok(()),
        Some(Meaning::Iterator(_)) => Ok(()),
        Some(Meaning::Function) => Ok(()),
        None => Ok(()),
    }
}

/// The locals that loops without a type take as their iterators.
#[cycle(gather)]
pub(crate) fn gather<'a>(
    raw: &RawStmt<'a>,
    place: &mut Place<'a>,
    found: &mut Items<u32>,
) -> Result<(), OutOfMemory>
    ensures place { OnOk result (place.new ≡ (stmt_fragment raw.now place.old).next) }
    ensures found { OnOk result (found.new ≡ found.old ++ iterators_of (stmt_fragment raw.now place.old).notes.names) }
{
    match &raw.what {
        RawWhat::Declare { kind, locals } => {
            declare_locals(*kind, locals.as_slice(), place)?;
            Ok(())
        }
        RawWhat::Block(ss) => {
            let mark = place.mark();
            gather_all(ss.as_slice(), place, found)?;
            place.leave(mark);
            Ok(())
        }
        RawWhat::Empty => Ok(()),
        RawWhat::If {
            body,
            otherwise,
            ..
        } => {
            gather_branch(body.get(), place, found)?;
            match otherwise {
                None => Ok(()),
                Some(otherwise) => {
                    gather_branch(otherwise.get(), place, found)?;
                    Ok(())
                }
            }
        }
        RawWhat::Loop(head) => {
            gather_loop(head.get(), place, found)?;
            Ok(())
        }
        RawWhat::Change(_) => Ok(()),
        RawWhat::Atomic { .. } => Ok(()),
    }
}

#[cycle(gather)]
pub(crate) fn gather_all<'a>(
    all: &[RawStmt<'a>],
    place: &mut Place<'a>,
    found: &mut Items<u32>,
) -> Result<(), OutOfMemory>
    ensures place { OnOk result (place.new ≡ (in_order (map stmt_fragment all.now) place.old).next) }
    ensures found { OnOk result (found.new ≡ found.old ++ iterators_of (in_order (map stmt_fragment all.now) place.old).notes.names) }
{
    for raw in all {
        gather(raw, place, found)?;
    }
    Ok(())
}

#[cycle(gather)]
fn gather_branch<'a>(
    raw: &RawStmt<'a>,
    place: &mut Place<'a>,
    found: &mut Items<u32>,
) -> Result<(), OutOfMemory>
    ensures place { OnOk result (place.new ≡ behind place.old (stmt_fragment raw.now place.old).next) }
    ensures found { OnOk result (found.new ≡ found.old ++ iterators_of (stmt_fragment raw.now place.old).notes.names) }
{
    let mark = place.mark();
    gather(raw, place, found)?;
    place.leave(mark);
    Ok(())
}

#[cycle(gather)]
fn gather_loop<'a>(
    raw: &RawLoop<'a>,
    place: &mut Place<'a>,
    found: &mut Items<u32>,
) -> Result<(), OutOfMemory>
    ensures place { OnOk result (place.new ≡ (loop_walk raw.now 0 place.old).next) }
    ensures found { OnOk result (found.new ≡ found.old ++ iterators_of (loop_walk raw.now 0 place.old).notes.names) }
{
    let mark = place.mark();
    note_taken(raw, place, found)?;
    place.enter_loop(&raw.iter)?;
    gather_branch(raw.body.get(), place, found)?;
    place.leave(mark);
    Ok(())
}
