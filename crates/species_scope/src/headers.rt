//! The headers of loops.

ghost use Rattle.std.specs.Prelude.{◌≡◌, ◌++◌, ◌∷◌, [], bytes_eq, map, neg_ℤ, negsuc, ◌<ℤ◌, IfOk, OnOk, IfSome};
ghost use Rattle.std.specs.Option.{option_map};
ghost use Rattle.species_ast.specs.declared.raw.RawLoop.{out-RawLoop};
ghost use Rattle.species_ast.specs.Scope.Meanings.{occurrence, InHeader};
ghost use Rattle.species_ast.specs.Scope.Expressions.{reading};
ghost use Rattle.species_ast.specs.Scope.Forms.{constant_of};
ghost use Rattle.species_ast.specs.Scope.Statements.{step_reading, is_one, line_of, mark_of, iterator_role};
ghost use Rattle.species_names.specs.Noted.{noted, role_seen};
ghost use Rattle.species_scope.specs.Loops.{inner_of, header_names, made_of};

use crate::expressions::boxed_value;
use crate::forms::constant;
use species_ast::{
    Expr, LineText, Loop, Mark, Name, OutOfMemory, RawExpr, RawLoop, RawName, RawStep, Schedule,
    Stmt,
};
use species_names::{Findings, Place, Role};
use sqlite_items::{Boxed, Items};
use std::alloc::Global;

fn note_in_header(name: &RawName, place: &Place, found: &mut Findings)
    ensures { found.new ≡ noted place.now.iterators found.old (occurrence InHeader place.now name.now ∷ []) }
{
    let means = place.meaning(name);
    found.note_name(name, Role::InHeader, &means, place.iterators());
}

fn is_iterator(name: &RawName, iter: &RawName) -> bool
    ensures { result ≡ bytes_eq name.now.text iter.now.text }
{
    name.text == iter.text
}

fn negated(n: Option<i32>) -> Option<i32>
    requires { IfSome n (λ x. negsuc 2147483647 <ℤ x) }
    ensures { result ≡ option_map neg_ℤ n }
{
    match n {
        Some(x) => Some(-x),
        None => None,
    }
}

/// A step of a loop: whether its variables are the iterator, and its number, if it is constant.
#[derive(Clone, Copy)]
pub(crate) struct Step {
    pub(crate) one_variable: bool,
    pub(crate) number: Option<i32>,
}

fn constant_in(
    alloc: Global,
    raw: &RawExpr,
    place: &Place,
    found: &mut Findings,
) -> Result<Option<i32>, OutOfMemory>
    ensures value { IfOk result (λ n. n ≡ constant_of (reading raw.now place.now).expr) }
    ensures small { IfOk result (λ n. IfSome n (λ x. negsuc 2147483647 <ℤ x)) }
    ensures noted { OnOk result (found.new ≡ noted place.now.iterators found.old (reading raw.now place.now).names) }
{
    let e = boxed_value(alloc, raw, place, found)?;
    let n = constant(alloc, e.get())?;
    Ok(n)
}

fn read_step(
    alloc: Global,
    raw: &RawStep,
    iter: &RawName,
    place: &Place,
    found: &mut Findings,
) -> Result<Step, OutOfMemory>
    ensures one { IfOk result (λ m. m.one_variable ≡ is_one iter.now (step_reading raw.now place.now).variables) }
    ensures number { IfOk result (λ m. m.number ≡ (step_reading raw.now place.now).number) }
    ensures noted { OnOk result (found.new ≡ noted place.now.iterators found.old (map (occurrence InHeader place.now) (step_reading raw.now place.now).variables ++ (step_reading raw.now place.now).names)) }
{
    match raw {
        RawStep::Up(i) => {
            note_in_header(i, place, found);
            let one_variable = is_iterator(i, iter);
            Ok(Step {
                one_variable,
                number: Some(1),
            })
        }
        RawStep::UpBefore(i) => {
            note_in_header(i, place, found);
            let one_variable = is_iterator(i, iter);
            Ok(Step {
                one_variable,
                number: Some(1),
            })
        }
        RawStep::Down(i) => {
            note_in_header(i, place, found);
            let one_variable = is_iterator(i, iter);
            Ok(Step {
                one_variable,
                number: Some(-1),
            })
        }
        RawStep::DownBefore(i) => {
            note_in_header(i, place, found);
            let one_variable = is_iterator(i, iter);
            Ok(Step {
                one_variable,
                number: Some(-1),
            })
        }
        RawStep::AddBy(i, e) => {
            note_in_header(i, place, found);
            let one_variable = is_iterator(i, iter);
            let number = constant_in(alloc, e, place, found)?;
            Ok(Step {
                one_variable,
                number,
            })
        }
        RawStep::SubBy(i, e) => {
            note_in_header(i, place, found);
            let one_variable = is_iterator(i, iter);
            let number = constant_in(alloc, e, place, found)?;
            Ok(Step {
                one_variable,
                number: negated(number),
            })
        }
        RawStep::SetAdd(i, j, e) => {
            note_in_header(i, place, found);
            note_in_header(j, place, found);
            let first = is_iterator(i, iter);
            let second = is_iterator(j, iter);
            let number = constant_in(alloc, e, place, found)?;
            Ok(Step {
                one_variable: first && second,
                number,
            })
        }
        RawStep::SetSub(i, j, e) => {
            note_in_header(i, place, found);
            note_in_header(j, place, found);
            let first = is_iterator(i, iter);
            let second = is_iterator(j, iter);
            let number = constant_in(alloc, e, place, found)?;
            Ok(Step {
                one_variable: first && second,
                number: negated(number),
            })
        }
    }
}

/// What is read of a loop's header.
#[derive(Drop)]
pub(crate) struct Header {
    pub(crate) start: Boxed<Expr>,
    pub(crate) limit: Boxed<Expr>,
    pub(crate) one_variable: bool,
    pub(crate) number: Option<i32>,
}

fn role(typed: bool) -> Role
    ensures { role_seen result ≡ iterator_role typed }
{
    if typed {
        Role::Declared
    } else {
        Role::Iterates
    }
}

fn note_iterator(name: &RawName, typed: bool, place: &Place, found: &mut Findings)
    ensures { found.new ≡ noted place.now.iterators found.old (occurrence (iterator_role typed) place.now name.now ∷ []) }
{
    let means = place.meaning(name);
    found.note_name(name, role(typed), &means, place.iterators());
}

/// The header of a loop, whose scope begins.
pub(crate) fn read_header<'a>(
    alloc: Global,
    raw: &RawLoop<'a>,
    place: &mut Place<'a>,
    found: &mut Findings,
) -> Result<Header, OutOfMemory>
    ensures place { OnOk result (place.new ≡ inner_of (out-RawLoop raw.now) place.old) }
    ensures start { IfOk result (λ h. h.start ≡ (reading (out-RawLoop raw.now).start place.old).expr) }
    ensures limit { IfOk result (λ h. h.limit ≡ (reading (out-RawLoop raw.now).limit (inner_of (out-RawLoop raw.now) place.old)).expr) }
    ensures one { IfOk result (λ h. h.one_variable ≡ is_one (out-RawLoop raw.now).iter ((out-RawLoop raw.now).tested ∷ (step_reading (out-RawLoop raw.now).step (inner_of (out-RawLoop raw.now) place.old)).variables)) }
    ensures number { IfOk result (λ h. h.number ≡ (step_reading (out-RawLoop raw.now).step (inner_of (out-RawLoop raw.now) place.old)).number) }
    ensures noted { OnOk result (found.new ≡ noted place.old.iterators found.old (header_names (out-RawLoop raw.now) place.old)) }
{
    note_iterator(&raw.iter, raw.typed, place, found);
    let start = boxed_value(alloc, &raw.start, place, found)?;
    place.enter_loop(&raw.iter)?;
    let limit = boxed_value(alloc, &raw.limit, place, found)?;
    note_in_header(&raw.tested, place, found);
    let tested = is_iterator(&raw.tested, &raw.iter);
    let by = read_step(alloc, &raw.step, &raw.iter, place, found)?;
    Ok(Header {
        start,
        limit,
        one_variable: tested && by.one_variable,
        number: by.number,
    })
}

fn line(alloc: Global, raw: &Option<RawName>) -> Result<Option<LineText>, OutOfMemory>
    ensures { IfOk result (λ l. l ≡ option_map line_of raw.now) }
{
    match raw {
        Some(name) => {
            let text = Vec::from_slice(alloc, name.text)?;
            Ok(Some(LineText::new(text, name.place)))
        }
        None => Ok(None),
    }
}

fn mark(raw: &Option<(u32, Schedule)>) -> Mark
    ensures { result ≡ mark_of raw.now }
{
    match raw {
        Some((depth, schedule)) => Mark::Parallel {
            depth: *depth,
            schedule: *schedule,
        },
        None => Mark::Plain,
    }
}

/// A loop of its header and its body.
pub(crate) fn assemble(
    alloc: Global,
    at: u32,
    raw: &RawLoop,
    header: Header,
    body: Items<Stmt>,
) -> Result<Boxed<Loop>, OutOfMemory>
    ensures { IfOk result (λ l. l ≡ made_of (out-RawLoop raw.now) at header.start header.limit header.number body) }
{
    let iter = Name::new(alloc, raw.iter.text)?;
    let line = line(alloc, &raw.line)?;
    let Header {
        start,
        limit,
        number,
        ..
    } = header;
    let made = Loop {
        place: at,
        iter,
        start: start.into_inner(),
        test: raw.test,
        limit: limit.into_inner(),
        step: number.unwrap_or(0),
        body,
        line,
        mark: mark(&raw.parallel),
    };
    let made = Boxed::new(alloc, made)?;
    Ok(made)
}
