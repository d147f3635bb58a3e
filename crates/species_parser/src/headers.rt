//! The header of a loop.
ghost use Rattle.std.specs.Prelude.{◌<◌, length, IfOk};
ghost use Rattle.species_parser.specs.Given.{Gives, GivesSeen};
ghost use Rattle.species_parser.specs.Headers.{seen_header, seen_test};
ghost use Rattle.species_parser.specs.Parsing.{header, header_test, product, step, step_behind, sum_behind};

use crate::cursor::Cursor;
use crate::expressions::{expression, product};
use crate::stop::Stop;
use species_ast::{RawExpr, RawName, RawStep, Test};
use sqlite_items::Boxed;
use std::alloc::Global;

/// What stands between the parentheses of a `for`, from its first semicolon on.
#[derive(Drop)]
pub(crate) struct LoopTest<'a> {
    pub(crate) tested: RawName<'a>,
    pub(crate) test: Test,
    pub(crate) limit: Boxed<RawExpr<'a>>,
    pub(crate) step: Boxed<RawStep<'a>>,
}

/// What stands between the parentheses of a `for`.
#[derive(Drop)]
pub(crate) struct LoopHeader<'a> {
    pub(crate) typed: bool,
    pub(crate) iter: RawName<'a>,
    pub(crate) start: Boxed<RawExpr<'a>>,
    pub(crate) test: LoopTest<'a>,
}

/// `+ e` or `- e` behind `i = j`.
#[tactic(auto, unfolding(crate::specs::Parsing::sum_behind))]
fn sum_behind<'a>(
    alloc: Global,
    cursor: &mut Cursor<'_, 'a>,
    iter: RawName<'a>,
    from: RawName<'a>,
) -> Result<RawStep<'a>, Stop>
    ensures value { Gives result cursor.new (sum_behind iter.entry from.entry cursor.old) }
    ensures shorter { IfOk result (λ _. length cursor.new < length cursor.old) }
{
    if cursor.is_at_punctuator(b"+") {
        cursor.punctuator(b"+")?;
        let by = Boxed::new(alloc, product(alloc, cursor)?)?;
        return Ok(RawStep::SetAdd(iter, from, by.into_inner()));
    }
    cursor.punctuator(b"-")?;
    let by = Boxed::new(alloc, product(alloc, cursor)?)?;
    Ok(RawStep::SetSub(iter, from, by.into_inner()))
}

/// What stands behind the iterator of a step.
#[tactic(auto, unfolding(crate::specs::Parsing::step_behind))]
fn step_behind<'a>(
    alloc: Global,
    cursor: &mut Cursor<'_, 'a>,
    iter: RawName<'a>,
) -> Result<RawStep<'a>, Stop>
    ensures value { Gives result cursor.new (step_behind iter.entry cursor.old) }
    ensures shorter { IfOk result (λ _. length cursor.new < length cursor.old) }
{
    if cursor.is_at_punctuator(b"++") {
        cursor.punctuator(b"++")?;
        return Ok(RawStep::Up(iter));
    }
    if cursor.is_at_punctuator(b"--") {
        cursor.punctuator(b"--")?;
        return Ok(RawStep::Down(iter));
    }
    if cursor.is_at_punctuator(b"+=") {
        cursor.punctuator(b"+=")?;
        let by = Boxed::new(alloc, expression(alloc, cursor)?)?;
        return Ok(RawStep::AddBy(iter, by.into_inner()));
    }
    if cursor.is_at_punctuator(b"-=") {
        cursor.punctuator(b"-=")?;
        let by = Boxed::new(alloc, expression(alloc, cursor)?)?;
        return Ok(RawStep::SubBy(iter, by.into_inner()));
    }
    cursor.punctuator(b"=")?;
    let from = cursor.name()?;
    sum_behind(alloc, cursor, iter, from)
}

/// One of the eight forms of a step.
#[tactic(auto, unfolding(crate::specs::Parsing::step))]
fn step<'a>(alloc: Global, cursor: &mut Cursor<'_, 'a>) -> Result<RawStep<'a>, Stop>
    ensures value { Gives result cursor.new (step cursor.old) }
    ensures shorter { IfOk result (λ _. length cursor.new < length cursor.old) }
{
    if cursor.is_at_punctuator(b"++") {
        cursor.punctuator(b"++")?;
        return Ok(RawStep::UpBefore(cursor.name()?));
    }
    if cursor.is_at_punctuator(b"--") {
        cursor.punctuator(b"--")?;
        return Ok(RawStep::DownBefore(cursor.name()?));
    }
    let iter = cursor.name()?;
    step_behind(alloc, cursor, iter)
}

/// `; i < e; i++)`.
#[tactic(auto, unfolding(crate::specs::Parsing::header_test))]
fn header_test<'a>(alloc: Global, cursor: &mut Cursor<'_, 'a>) -> Result<LoopTest<'a>, Stop>
    ensures value { GivesSeen seen_test result cursor.new (header_test cursor.old) }
    ensures shorter { IfOk result (λ _. length cursor.new < length cursor.old) }
{
    cursor.punctuator(b";")?;
    let tested = cursor.name()?;
    let (_, test) = cursor.comparison()?;
    let limit = Boxed::new(alloc, expression(alloc, cursor)?)?;
    cursor.punctuator(b";")?;
    let step = Boxed::new(alloc, step(alloc, cursor)?)?;
    cursor.punctuator(b")")?;
    Ok(LoopTest {
        tested,
        test,
        limit,
        step,
    })
}

/// What stands between the parentheses of a `for`, with them.
#[tactic(auto, unfolding(crate::specs::Parsing::header))]
pub(crate) fn header<'a>(alloc: Global, cursor: &mut Cursor<'_, 'a>) -> Result<LoopHeader<'a>, Stop>
    ensures value { GivesSeen seen_header result cursor.new (header cursor.old) }
    ensures shorter { IfOk result (λ _. length cursor.new < length cursor.old) }
{
    cursor.punctuator(b"(")?;
    let typed = cursor.optional_keyword(b"int").is_some();
    let iter = cursor.name()?;
    cursor.punctuator(b"=")?;
    let start = Boxed::new(alloc, expression(alloc, cursor)?)?;
    let test = header_test(alloc, cursor)?;
    Ok(LoopHeader {
        typed,
        iter,
        start,
        test,
    })
}
