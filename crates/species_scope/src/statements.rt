//! What statements become.

ghost use Rattle.std.specs.Prelude.{◌≡◌, ◌++◌, ◌∷◌, [], IfOk, OnOk, map};
ghost use Rattle.std.specs.Option.{option_map};
ghost use Rattle.species_ast.specs.Scope.Expressions.{reading};
ghost use Rattle.species_ast.specs.Scope.Statements.{declarator, in_order, stmt_fragment, block_fragment, branch};
ghost use Rattle.species_ast.specs.declared.tree.Stmt.TheVariants.{For};
ghost use Rattle.species_scope.specs.Loops.{loop_walk};
ghost use Rattle.species_names.specs.Noted.{noted};
ghost use Rattle.species_scope.specs.Inits.{init_names};
ghost use Rattle.species_scope.specs.Built.{after_fragment};

use crate::builder::Builder;
use crate::changes::{atomic, change};
use crate::expressions::{boxed_value, expression};
use crate::forms::note_forms;
use crate::headers::{assemble, read_header};
use species_ast::{
    Expr, Kind, LocalInfo, Loop, Name, OutOfMemory, RawExpr, RawLocal, RawLoop, RawStmt, RawWhat,
    Stmt,
};
use species_names::{Findings, Place, Role};
use sqlite_items::{Boxed, Items};
use std::alloc::Global;

fn init_value(
    alloc: Global,
    init: &Option<RawExpr>,
    place: &Place,
    found: &mut Findings,
) -> Result<Option<Expr>, OutOfMemory>
    ensures value { IfOk result (λ e. e ≡ option_map (λ r. (reading r place.now).expr) init.now) }
    ensures noted { OnOk result (found.new ≡ noted place.now.iterators found.old (init_names init.now place.now)) }
{
    match init {
        Some(raw) => {
            let value = expression(alloc, raw, place, found)?;
            Ok(Some(value))
        }
        None => Ok(None),
    }
}

fn keep_local(
    alloc: Global,
    name: &[u8],
    kind: Kind,
    locals: &mut Items<LocalInfo>,
) -> Result<(), OutOfMemory>
    ensures { OnOk result (locals.new ≡ locals.old ++ record { name = name.now; kind = kind } ∷ []) }
{
    let name = Name::new(alloc, name)?;
    locals.push(LocalInfo { name, kind })?;
    Ok(())
}

/// A declarator of a local.
fn declare<'a>(
    alloc: Global,
    kind: Kind,
    local: &RawLocal<'a>,
    b: &mut Builder<'a>,
    out: &mut Items<Stmt>,
) -> Result<(), OutOfMemory>
    ensures state { OnOk result (b.new ≡ after_fragment b.old (declarator kind local.now b.old.place)) }
    ensures made { OnOk result (out.new ≡ out.old ++ (declarator kind local.now b.old.place).statements) }
{
    let means = b.place.meaning(&local.name);
    b.found
        .note_name(&local.name, Role::Declared, &means, b.place.iterators());
    let serial = b.place.serials();
    let number = b.place.number(serial);
    let is_iterator = b.place.iterators().has(serial);
    b.place
        .declare_local(&local.name, kind, local.init.is_some())?;
    if is_iterator {
        let _ = init_value(alloc, &local.init, &b.place, &mut b.found)?;
        Ok(())
    } else {
        keep_local(alloc, local.name.text, kind, &mut b.locals)?;
        let init = init_value(alloc, &local.init, &b.place, &mut b.found)?;
        out.push(Stmt::Declare {
            place: local.name.place,
            local: number,
            init,
        })?;
        Ok(())
    }
}

fn declare_all<'a>(
    alloc: Global,
    kind: Kind,
    all: &[RawLocal<'a>],
    b: &mut Builder<'a>,
    out: &mut Items<Stmt>,
) -> Result<(), OutOfMemory>
    ensures state { OnOk result (b.new ≡ after_fragment b.old (in_order (map (declarator kind) all.now) b.old.place)) }
    ensures made { OnOk result (out.new ≡ out.old ++ (in_order (map (declarator kind) all.now) b.old.place).statements) }
{
    for local in all {
        declare(alloc, kind, local, b, out)?;
    }
    Ok(())
}

/// A statement.
#[cycle(statement)]
pub(crate) fn statement<'a>(
    alloc: Global,
    raw: &RawStmt<'a>,
    b: &mut Builder<'a>,
    out: &mut Items<Stmt>,
) -> Result<(), OutOfMemory>
    ensures state { OnOk result (b.new ≡ after_fragment b.old (stmt_fragment raw.now b.old.place)) }
    ensures made { OnOk result (out.new ≡ out.old ++ (stmt_fragment raw.now b.old.place).statements) }
{
    match &raw.what {
        RawWhat::Declare { kind, locals } => {
            declare_all(alloc, *kind, locals.as_slice(), b, out)?;
            Ok(())
        }
        RawWhat::Block(ss) => {
            let body = block(alloc, ss.as_slice(), b)?;
            out.push(Stmt::Block(body))?;
            Ok(())
        }
        RawWhat::Empty => Ok(()),
        RawWhat::If {
            test,
            body,
            otherwise: None,
        } => {
            let test = boxed_value(alloc, test.get(), &b.place, &mut b.found)?;
            let body = branch(alloc, body.get(), b)?;
            out.push(Stmt::If {
                place: raw.place,
                test: test.into_inner(),
                body,
                otherwise: Items::new(alloc),
            })?;
            Ok(())
        }
        RawWhat::If {
            test,
            body,
            otherwise: Some(otherwise),
        } => {
            let test = boxed_value(alloc, test.get(), &b.place, &mut b.found)?;
            let body = branch(alloc, body.get(), b)?;
            let otherwise = branch(alloc, otherwise.get(), b)?;
            out.push(Stmt::If {
                place: raw.place,
                test: test.into_inner(),
                body,
                otherwise,
            })?;
            Ok(())
        }
        RawWhat::Loop(head) => {
            let head = for_loop(alloc, raw.place, head.get(), b)?;
            out.push(Stmt::For(head.into_inner()))?;
            Ok(())
        }
        RawWhat::Change(c) => {
            change(alloc, raw.place, c.get(), &b.place, &mut b.found, out)?;
            Ok(())
        }
        RawWhat::Atomic { target, value } => {
            atomic(
                alloc,
                raw.place,
                target.get(),
                value.get(),
                &b.place,
                &mut b.found,
                out,
            )?;
            Ok(())
        }
    }
}

/// Statements, each in the scope that the one before it leaves.
#[cycle(statement)]
pub(crate) fn statements<'a>(
    alloc: Global,
    all: &[RawStmt<'a>],
    b: &mut Builder<'a>,
    out: &mut Items<Stmt>,
) -> Result<(), OutOfMemory>
    ensures state { OnOk result (b.new ≡ after_fragment b.old (in_order (map stmt_fragment all.now) b.old.place)) }
    ensures made { OnOk result (out.new ≡ out.old ++ (in_order (map stmt_fragment all.now) b.old.place).statements) }
{
    for raw in all {
        statement(alloc, raw, b, out)?;
    }
    Ok(())
}

/// The statements of a block, which is a scope.
#[cycle(statement)]
fn block<'a>(
    alloc: Global,
    all: &[RawStmt<'a>],
    b: &mut Builder<'a>,
) -> Result<Items<Stmt>, OutOfMemory>
    ensures state { OnOk result (b.new ≡ after_fragment b.old (block_fragment (map stmt_fragment all.now) b.old.place)) }
    ensures made { IfOk result (λ body. body ≡ (block_fragment (map stmt_fragment all.now) b.old.place).body) }
{
    let mark = b.place.mark();
    let mut body = Items::new(alloc);
    statements(alloc, all, b, &mut body)?;
    b.place.leave(mark);
    Ok(body)
}

/// A statement that is the body of a branch or a loop, as a list.
#[cycle(statement)]
fn alone<'a>(
    alloc: Global,
    raw: &RawStmt<'a>,
    b: &mut Builder<'a>,
) -> Result<Items<Stmt>, OutOfMemory>
    ensures state { OnOk result (b.new ≡ after_fragment b.old (branch (stmt_fragment raw.now) b.old.place)) }
    ensures made { IfOk result (λ body. body ≡ (stmt_fragment raw.now b.old.place).statements) }
{
    let mark = b.place.mark();
    let mut body = Items::new(alloc);
    statement(alloc, raw, b, &mut body)?;
    b.place.leave(mark);
    Ok(body)
}

/// A statement as a body, which is a scope.
#[cycle(statement)]
fn branch<'a>(
    alloc: Global,
    raw: &RawStmt<'a>,
    b: &mut Builder<'a>,
) -> Result<Items<Stmt>, OutOfMemory>
    ensures state { OnOk result (b.new ≡ after_fragment b.old (branch (stmt_fragment raw.now) b.old.place)) }
    ensures made { IfOk result (λ body. body ≡ (branch (stmt_fragment raw.now) b.old.place).body) }
{
    match &raw.what {
        RawWhat::Block(ss) => {
            let body = block(alloc, ss.as_slice(), b)?;
            Ok(body)
        }
        RawWhat::Declare { .. } => {
            let body = alone(alloc, raw, b)?;
            Ok(body)
        }
        RawWhat::Empty => {
            let body = alone(alloc, raw, b)?;
            Ok(body)
        }
        RawWhat::If { .. } => {
            let body = alone(alloc, raw, b)?;
            Ok(body)
        }
        RawWhat::Loop(_) => {
            let body = alone(alloc, raw, b)?;
            Ok(body)
        }
        RawWhat::Change(_) => {
            let body = alone(alloc, raw, b)?;
            Ok(body)
        }
        RawWhat::Atomic { .. } => {
            let body = alone(alloc, raw, b)?;
            Ok(body)
        }
    }
}

/// A loop, which is a scope.
#[cycle(statement)]
fn for_loop<'a>(
    alloc: Global,
    at: u32,
    raw: &RawLoop<'a>,
    b: &mut Builder<'a>,
) -> Result<Boxed<Loop>, OutOfMemory>
    ensures state { OnOk result (b.new ≡ after_fragment b.old (loop_walk raw.now at b.old.place)) }
    ensures made { IfOk result (λ l. (loop_walk raw.now at b.old.place).statements ≡ For l ∷ []) }
{
    let mark = b.place.mark();
    let header = read_header(alloc, raw, &mut b.place, &mut b.found)?;
    let one_variable = header.one_variable;
    let number = header.number;
    let body = branch(alloc, raw.body.get(), b)?;
    b.place.leave(mark);
    let made = assemble(alloc, at, raw, header, body)?;
    note_forms(
        alloc,
        at,
        raw,
        mark.level,
        made.get(),
        one_variable,
        number,
        &mut b.forms,
    )?;
    Ok(made)
}
