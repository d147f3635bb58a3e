//! Expressions. Each function reads what its name says from the front of the tokens.
ghost use Rattle.std.specs.Prelude.{◌≡◌, ◌<◌, ◌≤◌, length, IfOk};
ghost use Rattle.species_parser.specs.Given.{Gives};
ghost use Rattle.species_parser.specs.Reading.{operation_of};
ghost use Rattle.species_parser.specs.Operators.{seen_operator};
ghost use Rattle.species_parser.specs.Parsing.{binary, binary_tail, choices, expression, expression_form, opened, operand, operand_form, product, subscript, subscripts};

use crate::cursor::Cursor;
use crate::operators::Operator;
use crate::stop::Stop;
use crate::types::type_specifier;
use species_ast::{RawExpr, RawTarget, RawTerm};
use sqlite_items::{Boxed, Items};
use std::alloc::Global;

/// The level of `||`, which binds least tightly.
const LOWEST_LEVEL: u8 = 1;

/// The level of `*`, `/` and `%`, which bind most tightly.
const PRODUCT_LEVEL: u8 = 10;

/// The level of what has no binary operator outside of parentheses.
const OPERAND_LEVEL: u8 = 11;

/// What a conditional expression has behind its condition.
type Choices<'a> = Option<(Boxed<RawExpr<'a>>, Boxed<RawExpr<'a>>)>;

/// The operands of a binary operator, joined. The operator's own place is not kept.
fn joined<'a>(
    left: Boxed<RawExpr<'a>>,
    operator: Operator,
    right: Boxed<RawExpr<'a>>,
) -> RawExpr<'a>
    ensures { result ≡ operation_of left.entry (0, seen_operator operator) right.entry }
{
    let place = left.get().place;
    let what = match operator {
        Operator::Strict(operator) => RawTerm::Binary(operator, left, right),
        Operator::And => RawTerm::And(left, right),
        Operator::Or => RawTerm::Or(left, right),
    };
    RawExpr { place, what }
}

/// An expression.
#[cycle(expressions)]
#[tactic(auto, using(crate::proofs::Forms::expression_is), unfolding(crate::specs::Parsing::expression_form))]
pub(crate) fn expression<'a>(
    alloc: Global,
    cursor: &mut Cursor<'_, 'a>,
) -> Result<RawExpr<'a>, Stop>
    ensures value { Gives result cursor.new (expression cursor.old) }
    ensures shorter { IfOk result (λ _. length cursor.new < length cursor.old) }
{
    let condition = Boxed::new(alloc, binary(alloc, cursor, LOWEST_LEVEL)?)?;
    match choices(alloc, cursor)? {
        None => Ok(condition.into_inner()),
        Some((left, right)) => Ok(RawExpr {
            place: condition.get().place,
            what: RawTerm::Cond(condition, left, right),
        }),
    }
}

/// What a condition chooses between, if a `?` stands behind it.
#[cycle(expressions)]
#[tactic(auto, unfolding(crate::specs::Parsing::choices))]
fn choices<'a>(alloc: Global, cursor: &mut Cursor<'_, 'a>) -> Result<Choices<'a>, Stop>
    ensures value { Gives result cursor.new (choices cursor.old) }
    ensures within { IfOk result (λ _. length cursor.new ≤ length cursor.old) }
{
    if !cursor.is_at_punctuator(b"?") {
        return Ok(None);
    }
    cursor.punctuator(b"?")?;
    let left = Boxed::new(alloc, expression(alloc, cursor)?)?;
    cursor.punctuator(b":")?;
    let right = Boxed::new(alloc, expression(alloc, cursor)?)?;
    Ok(Some((left, right)))
}

/// Operands joined by `*`, `/` and `%`.
pub(crate) fn product<'a>(alloc: Global, cursor: &mut Cursor<'_, 'a>) -> Result<RawExpr<'a>, Stop>
    ensures value { Gives result cursor.new (product cursor.old) }
    ensures shorter { IfOk result (λ _. length cursor.new < length cursor.old) }
{
    binary(alloc, cursor, PRODUCT_LEVEL)
}

/// An operand of the operators of this level, with all operators that bind more tightly.
#[cycle(expressions)]
fn binary<'a>(alloc: Global, cursor: &mut Cursor<'_, 'a>, level: u8) -> Result<RawExpr<'a>, Stop>
    requires least { 1 ≤ level }
    requires most { level ≤ 11 }
    ensures value { Gives result cursor.new (binary level cursor.old) }
    ensures shorter { IfOk result (λ _. length cursor.new < length cursor.old) }
{
    let mut left = Boxed::new(alloc, operand(alloc, cursor)?)?;
    let mut current = OPERAND_LEVEL;
    while current > level {
        current -= 1;
        left = binary_tail(alloc, cursor, current, left)?;
    }
    Ok(left.into_inner())
}

/// The operators of this level behind their first operand.
#[cycle(expressions)]
fn binary_tail<'a>(
    alloc: Global,
    cursor: &mut Cursor<'_, 'a>,
    level: u8,
    first: Boxed<RawExpr<'a>>,
) -> Result<Boxed<RawExpr<'a>>, Stop>
    requires least { 1 ≤ level }
    requires most { level ≤ 10 }
    ensures value { Gives result cursor.new (binary_tail level first.entry cursor.old) }
    ensures within { IfOk result (λ _. length cursor.new ≤ length cursor.old) }
{
    let mut left = first;
    while cursor.is_at_binary_operator(level) {
        let (_, operator) = cursor.binary_operator(level)?;
        let right = Boxed::new(alloc, binary(alloc, cursor, level + 1)?)?;
        left = Boxed::new(alloc, joined(left, operator, right))?;
    }
    Ok(left)
}

/// An operand: a number, a target, or what a unary operator, a cast or parentheses make.
#[cycle(expressions)]
#[tactic(auto, using(crate::proofs::Forms::operand_is), unfolding(crate::specs::Parsing::operand_form))]
fn operand<'a>(alloc: Global, cursor: &mut Cursor<'_, 'a>) -> Result<RawExpr<'a>, Stop>
    ensures value { Gives result cursor.new (operand cursor.old) }
    ensures shorter { IfOk result (λ _. length cursor.new < length cursor.old) }
{
    if cursor.is_at_number() {
        let (place, value) = cursor.number()?;
        return Ok(RawExpr {
            place,
            what: RawTerm::Number(value),
        });
    }
    if cursor.is_at_unary_operator() {
        let (place, operator) = cursor.unary_operator()?;
        let inner = Boxed::new(alloc, operand(alloc, cursor)?)?;
        return Ok(RawExpr {
            place,
            what: RawTerm::Unary(operator, inner),
        });
    }
    if cursor.is_at_punctuator(b"(") {
        let place = cursor.punctuator(b"(")?;
        return Ok(RawExpr {
            place,
            what: opened(alloc, cursor)?,
        });
    }
    let name = cursor.name()?;
    let place = name.place;
    let subs = subscripts(alloc, cursor)?;
    Ok(RawExpr {
        place,
        what: RawTerm::Target(RawTarget { name, subs }),
    })
}

/// What stands behind an opening parenthesis: the type and the operand of a cast, or an expression.
#[cycle(expressions)]
#[tactic(auto, unfolding(crate::specs::Parsing::opened))]
fn opened<'a>(alloc: Global, cursor: &mut Cursor<'_, 'a>) -> Result<RawTerm<'a>, Stop>
    ensures value { Gives result cursor.new (opened cursor.old) }
    ensures shorter { IfOk result (λ _. length cursor.new < length cursor.old) }
{
    if cursor.is_at_type() {
        let (_, kind) = type_specifier(cursor)?;
        cursor.punctuator(b")")?;
        let inner = Boxed::new(alloc, operand(alloc, cursor)?)?;
        return Ok(RawTerm::Cast(kind, inner));
    }
    let inner = Boxed::new(alloc, expression(alloc, cursor)?)?;
    cursor.punctuator(b")")?;
    Ok(RawTerm::Paren(inner))
}

/// `[e]`.
#[cycle(expressions)]
#[tactic(auto, unfolding(crate::specs::Parsing::subscript))]
pub(crate) fn subscript<'a>(
    alloc: Global,
    cursor: &mut Cursor<'_, 'a>,
) -> Result<Boxed<RawExpr<'a>>, Stop>
    ensures value { Gives result cursor.new (subscript cursor.old) }
    ensures shorter { IfOk result (λ _. length cursor.new < length cursor.old) }
{
    cursor.punctuator(b"[")?;
    let inner = Boxed::new(alloc, expression(alloc, cursor)?)?;
    cursor.punctuator(b"]")?;
    Ok(inner)
}

/// The subscripts that stand here.
#[cycle(expressions)]
pub(crate) fn subscripts<'a>(
    alloc: Global,
    cursor: &mut Cursor<'_, 'a>,
) -> Result<Items<RawExpr<'a>>, Stop>
    ensures value { Gives result cursor.new (subscripts cursor.old) }
    ensures within { IfOk result (λ _. length cursor.new ≤ length cursor.old) }
{
    let mut subs = Items::new(alloc);
    while cursor.is_at_punctuator(b"[") {
        subs.push(subscript(alloc, cursor)?.into_inner())?;
    }
    Ok(subs)
}
