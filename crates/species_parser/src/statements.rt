//! Statements, and what stands in a block.
ghost use Rattle.std.specs.Prelude.{◌≡◌, ◌<◌, ◌≤◌, ◌++◌, ◌∷◌, [], length, IfOk, OnOk};
ghost use Rattle.species_parser.specs.Given.{Gives};
ghost use Rattle.species_parser.specs.Headers.{seen_header};
ghost use Rattle.species_parser.specs.Reading.{block_of, empty_of, if_of, loop_of};
ghost use Rattle.species_parser.specs.Parsing.{block, condition, if_statement, item, items, loop_statement, otherwise, statement};

use crate::changes::{assignment, atomic};
use crate::cursor::Cursor;
use crate::declarations::declaration;
use crate::expressions::expression;
use crate::headers::{LoopHeader, header};
use crate::stop::Stop;
use species_ast::{RawExpr, RawLoop, RawName, RawStmt, RawWhat, Schedule};
use sqlite_items::{Boxed, Items};
use std::alloc::{AllocError, Global};

/// What the pragmas before a loop say.
#[derive(Drop)]
struct Pragmas<'a> {
    line: Option<RawName<'a>>,
    parallel: Option<(u32, Schedule)>,
}

// Raw statements and loops are made, and moved into a list, in functions of their own, so that those that
// call each other need little of the stack.

/// The statement `;`.
#[inline(never)]
fn empty_statement<'a>(alloc: Global, place: u32) -> Result<Boxed<RawStmt<'a>>, AllocError>
    ensures { IfOk result (λ s. s ≡ empty_of place) }
{
    let what = RawWhat::Empty;
    Boxed::new(alloc, RawStmt { place, what })
}

/// The block of these statements.
#[inline(never)]
fn block_of<'a>(
    alloc: Global,
    place: u32,
    items: Items<RawStmt<'a>>,
) -> Result<Boxed<RawStmt<'a>>, AllocError>
    ensures { IfOk result (λ s. s ≡ block_of (place, items.entry)) }
{
    let what = RawWhat::Block(items);
    Boxed::new(alloc, RawStmt { place, what })
}

/// The `if` of these parts.
#[inline(never)]
fn if_of<'a>(
    alloc: Global,
    place: u32,
    test: Boxed<RawExpr<'a>>,
    body: Boxed<RawStmt<'a>>,
    otherwise: Option<Boxed<RawStmt<'a>>>,
) -> Result<Boxed<RawStmt<'a>>, AllocError>
    ensures { IfOk result (λ s. s ≡ if_of (place, ((test.entry, body.entry), otherwise.entry))) }
{
    let what = RawWhat::If {
        test,
        body,
        otherwise,
    };
    Boxed::new(alloc, RawStmt { place, what })
}

/// The loop of these parts.
#[inline(never)]
fn loop_of<'a>(
    alloc: Global,
    place: u32,
    pragmas: Pragmas<'a>,
    header: LoopHeader<'a>,
    body: Boxed<RawStmt<'a>>,
) -> Result<Boxed<RawStmt<'a>>, AllocError>
    ensures { IfOk result (λ s. s ≡ loop_of (pragmas.entry.line, (pragmas.entry.parallel, (place, (seen_header header.entry, body.entry))))) }
{
    let test = header.test;
    let head = RawLoop {
        line: pragmas.line,
        parallel: pragmas.parallel,
        typed: header.typed,
        iter: header.iter,
        start: header.start.into_inner(),
        tested: test.tested,
        test: test.test,
        limit: test.limit.into_inner(),
        step: test.step.into_inner(),
        body,
    };
    let what = RawWhat::Loop(Boxed::new(alloc, head)?);
    Boxed::new(alloc, RawStmt { place, what })
}

/// Puts a statement behind others.
#[inline(never)]
fn push<'a>(items: &mut Items<RawStmt<'a>>, item: Boxed<RawStmt<'a>>) -> Result<(), AllocError>
    ensures ok { OnOk result (items.new ≡ items.old ++ item.entry ∷ []) }
{
    items.push(item.into_inner())
}

/// `(e)`.
#[tactic(auto, unfolding(crate::specs::Parsing::condition))]
fn condition<'a>(alloc: Global, cursor: &mut Cursor<'_, 'a>) -> Result<Boxed<RawExpr<'a>>, Stop>
    ensures value { Gives result cursor.new (condition cursor.old) }
    ensures shorter { IfOk result (λ _. length cursor.new < length cursor.old) }
{
    cursor.punctuator(b"(")?;
    let test = Boxed::new(alloc, expression(alloc, cursor)?)?;
    cursor.punctuator(b")")?;
    Ok(test)
}

/// A statement.
#[cycle(statements)]
#[tactic(auto, using(crate::proofs::Forms::statement_is), unfolding(crate::specs::Parsing::statement_form))]
fn statement<'a>(alloc: Global, cursor: &mut Cursor<'_, 'a>) -> Result<Boxed<RawStmt<'a>>, Stop>
    ensures value { Gives result cursor.new (statement cursor.old) }
    ensures shorter { IfOk result (λ _. length cursor.new < length cursor.old) }
{
    if cursor.is_at_punctuator(b";") {
        let place = cursor.punctuator(b";")?;
        return Ok(empty_statement(alloc, place)?);
    }
    if cursor.is_at_punctuator(b"{") {
        return block(alloc, cursor);
    }
    if cursor.is_at_keyword(b"if") {
        return if_statement(alloc, cursor);
    }
    if cursor.is_at_loop() {
        return loop_statement(alloc, cursor);
    }
    if cursor.is_at_atomic() {
        return atomic(alloc, cursor);
    }
    assignment(alloc, cursor)
}

/// A block with its braces.
#[cycle(statements)]
#[tactic(auto, unfolding(crate::specs::Parsing::block))]
fn block<'a>(alloc: Global, cursor: &mut Cursor<'_, 'a>) -> Result<Boxed<RawStmt<'a>>, Stop>
    ensures value { Gives result cursor.new (block cursor.old) }
    ensures shorter { IfOk result (λ _. length cursor.new < length cursor.old) }
{
    let place = cursor.punctuator(b"{")?;
    let items = items(alloc, cursor)?;
    Ok(block_of(alloc, place, items)?)
}

/// An `if` with its `else`, which belongs to the nearest `if`.
#[cycle(statements)]
#[tactic(auto, unfolding(crate::specs::Parsing::if_statement))]
fn if_statement<'a>(alloc: Global, cursor: &mut Cursor<'_, 'a>) -> Result<Boxed<RawStmt<'a>>, Stop>
    ensures value { Gives result cursor.new (if_statement cursor.old) }
    ensures shorter { IfOk result (λ _. length cursor.new < length cursor.old) }
{
    let place = cursor.keyword(b"if")?;
    let test = condition(alloc, cursor)?;
    let body = statement(alloc, cursor)?;
    let otherwise = otherwise(alloc, cursor)?;
    Ok(if_of(alloc, place, test, body, otherwise)?)
}

/// The `else` of an `if`, if it has one.
#[cycle(statements)]
#[tactic(auto, unfolding(crate::specs::Parsing::otherwise))]
fn otherwise<'a>(
    alloc: Global,
    cursor: &mut Cursor<'_, 'a>,
) -> Result<Option<Boxed<RawStmt<'a>>>, Stop>
    ensures value { Gives result cursor.new (otherwise cursor.old) }
    ensures within { IfOk result (λ _. length cursor.new ≤ length cursor.old) }
{
    if !cursor.is_at_keyword(b"else") {
        return Ok(None);
    }
    cursor.keyword(b"else")?;
    Ok(Some(statement(alloc, cursor)?))
}

/// A loop with its pragmas.
#[cycle(statements)]
#[tactic(auto, unfolding(crate::specs::Parsing::loop_statement))]
fn loop_statement<'a>(
    alloc: Global,
    cursor: &mut Cursor<'_, 'a>,
) -> Result<Boxed<RawStmt<'a>>, Stop>
    ensures value { Gives result cursor.new (loop_statement cursor.old) }
    ensures shorter { IfOk result (λ _. length cursor.new < length cursor.old) }
{
    let line = cursor.species_line();
    let parallel = cursor.parallel_line();
    let place = cursor.keyword(b"for")?;
    let header = header(alloc, cursor)?;
    let body = statement(alloc, cursor)?;
    let pragmas = Pragmas { line, parallel };
    Ok(loop_of(alloc, place, pragmas, header, body)?)
}

/// One of the things in a block: a declaration or a statement.
#[cycle(statements)]
#[tactic(auto, unfolding(crate::specs::Parsing::item))]
fn item<'a>(alloc: Global, cursor: &mut Cursor<'_, 'a>) -> Result<Boxed<RawStmt<'a>>, Stop>
    ensures value { Gives result cursor.new (item cursor.old) }
    ensures shorter { IfOk result (λ _. length cursor.new < length cursor.old) }
{
    if cursor.is_at_type() {
        return declaration(alloc, cursor);
    }
    statement(alloc, cursor)
}

/// What stands in a block, and the brace that ends it.
#[cycle(statements)]
pub(crate) fn items<'a>(
    alloc: Global,
    cursor: &mut Cursor<'_, 'a>,
) -> Result<Items<RawStmt<'a>>, Stop>
    ensures value { Gives result cursor.new (items cursor.old) }
    ensures shorter { IfOk result (λ _. length cursor.new < length cursor.old) }
{
    let mut items = Items::new(alloc);
    while !cursor.is_at_punctuator(b"}") {
        push(&mut items, item(alloc, cursor)?)?;
    }
    cursor.punctuator(b"}")?;
    Ok(items)
}
