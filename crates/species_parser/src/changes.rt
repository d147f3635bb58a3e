//! Assignments, and the other statements that change a target.
ghost use Rattle.std.specs.Prelude.{◌<◌, length, IfOk};
ghost use Rattle.species_parser.specs.Given.{Gives};
ghost use Rattle.species_parser.specs.Parsing.{assignment, atomic, change, change_behind, target};

use crate::cursor::Cursor;
use crate::expressions::{expression, subscripts};
use crate::stop::Stop;
use species_ast::{RawChange, RawStmt, RawTarget, RawWhat};
use sqlite_items::Boxed;
use std::alloc::Global;

/// A name with its subscripts.
#[tactic(auto, unfolding(crate::specs::Parsing::target))]
fn target<'a>(alloc: Global, cursor: &mut Cursor<'_, 'a>) -> Result<RawTarget<'a>, Stop>
    ensures value { Gives result cursor.new (target cursor.old) }
    ensures shorter { IfOk result (λ _. length cursor.new < length cursor.old) }
{
    let name = cursor.name()?;
    Ok(RawTarget {
        name,
        subs: subscripts(alloc, cursor)?,
    })
}

/// What stands behind the target of a change.
#[tactic(auto, unfolding(crate::specs::Parsing::change_behind))]
fn change_behind<'a>(
    alloc: Global,
    cursor: &mut Cursor<'_, 'a>,
    target: Boxed<RawTarget<'a>>,
) -> Result<RawChange<'a>, Stop>
    ensures value { Gives result cursor.new (change_behind target.entry cursor.old) }
    ensures shorter { IfOk result (λ _. length cursor.new < length cursor.old) }
{
    if cursor.is_at_punctuator(b"++") {
        cursor.punctuator(b"++")?;
        return Ok(RawChange::Up(target.into_inner()));
    }
    if cursor.is_at_punctuator(b"--") {
        cursor.punctuator(b"--")?;
        return Ok(RawChange::Down(target.into_inner()));
    }
    let (_, operator) = cursor.assignment_operator()?;
    let value = Boxed::new(alloc, expression(alloc, cursor)?)?;
    Ok(RawChange::Set(target.into_inner(), operator, value.into_inner()))
}

/// A change, and the place of its first token.
#[tactic(auto, unfolding(crate::specs::Parsing::change))]
fn change<'a>(alloc: Global, cursor: &mut Cursor<'_, 'a>) -> Result<(u32, RawChange<'a>), Stop>
    ensures value { Gives result cursor.new (change cursor.old) }
    ensures shorter { IfOk result (λ _. length cursor.new < length cursor.old) }
{
    if cursor.is_at_punctuator(b"++") {
        let place = cursor.punctuator(b"++")?;
        return Ok((place, RawChange::UpBefore(target(alloc, cursor)?)));
    }
    if cursor.is_at_punctuator(b"--") {
        let place = cursor.punctuator(b"--")?;
        return Ok((place, RawChange::DownBefore(target(alloc, cursor)?)));
    }
    let target = Boxed::new(alloc, target(alloc, cursor)?)?;
    let place = target.get().name.place;
    Ok((place, change_behind(alloc, cursor, target)?))
}

/// A change as a statement.
#[inline(never)]
#[tactic(auto, unfolding(crate::specs::Parsing::assignment))]
pub(crate) fn assignment<'a>(
    alloc: Global,
    cursor: &mut Cursor<'_, 'a>,
) -> Result<Boxed<RawStmt<'a>>, Stop>
    ensures value { Gives result cursor.new (assignment cursor.old) }
    ensures shorter { IfOk result (λ _. length cursor.new < length cursor.old) }
{
    let (place, change) = change(alloc, cursor)?;
    let change = Boxed::new(alloc, change)?;
    cursor.punctuator(b";")?;
    let assignment = RawStmt {
        place,
        what: RawWhat::Change(change),
    };
    Ok(Boxed::new(alloc, assignment)?)
}

/// An atomic addition, with its pragma.
#[inline(never)]
#[tactic(auto, unfolding(crate::specs::Parsing::atomic))]
pub(crate) fn atomic<'a>(
    alloc: Global,
    cursor: &mut Cursor<'_, 'a>,
) -> Result<Boxed<RawStmt<'a>>, Stop>
    ensures value { Gives result cursor.new (atomic cursor.old) }
    ensures shorter { IfOk result (λ _. length cursor.new < length cursor.old) }
{
    cursor.atomic_line()?;
    let target = Boxed::new(alloc, target(alloc, cursor)?)?;
    cursor.punctuator(b"+=")?;
    let value = Boxed::new(alloc, expression(alloc, cursor)?)?;
    cursor.punctuator(b";")?;
    let place = target.get().name.place;
    let what = RawWhat::Atomic { target, value };
    let atomic = RawStmt { place, what };
    Ok(Boxed::new(alloc, atomic)?)
}
