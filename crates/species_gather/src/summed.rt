//! The arrays that a nest gathers as sums.
ghost use Rattle.std.specs.Prelude.{◌≡◌, ◌++◌, IfOk, nat_eq};
ghost use Rattle.std.specs.List.{list_any};
ghost use Rattle.species_ast.specs.Operators.{is_signed};
ghost use Rattle.species_gather.specs.Summed.{read_by, read_in, read_first, summed_by, summed_in, used_by, used_in, summed_arrays};
ghost use Rattle.species_gather.specs.Summed as gathered;

use species_ast::{Expr, Kind, Loop, OutOfMemory, Stmt, Unit};
use std::alloc::Global;

/// Whether an expression reads an array.
#[cycle(reads)]
fn reads(e: &Expr, array: u32) -> bool
    ensures { result ≡ list_any (nat_eq array) (read_by e.now) }
{
    match e {
        Expr::Literal(_) => false,
        Expr::Iter(_) => false,
        Expr::Local(_) => false,
        Expr::Elem(read, subs) => {
            if array == *read {
                true
            } else {
                reads_any(subs.as_slice(), array)
            }
        }
        Expr::Unary(_, a) => reads(a.get(), array),
        Expr::Binary(_, a, b) => {
            if reads(a.get(), array) {
                true
            } else {
                reads(b.get(), array)
            }
        }
        Expr::And(a, b) => {
            if reads(a.get(), array) {
                true
            } else {
                reads(b.get(), array)
            }
        }
        Expr::Or(a, b) => {
            if reads(a.get(), array) {
                true
            } else {
                reads(b.get(), array)
            }
        }
        Expr::Cond(test, a, b) => {
            if reads(test.get(), array) {
                true
            } else if reads(a.get(), array) {
                true
            } else {
                reads(b.get(), array)
            }
        }
        Expr::Cast(_, a) => reads(a.get(), array),
    }
}

#[cycle(reads)]
fn reads_any(all: &[Expr], array: u32) -> bool
    ensures { result ≡ list_any (nat_eq array) (read_in all.now) }
{
    for e in all {
        if reads(e, array) {
            return true;
        }
    }
    false
}

fn reads_first(init: &Option<Expr>, array: u32) -> bool
    ensures { result ≡ list_any (nat_eq array) (read_first init.now) }
{
    match init {
        Some(e) => reads(e, array),
        None => false,
    }
}

/// Whether one of these statements adds to an array by `+=`, at any depth.
#[cycle(adds)]
fn adds(all: &[Stmt], array: u32) -> bool
    ensures { result ≡ list_any (nat_eq array) (summed_in all.now) }
{
    for s in all {
        if adds_one(s, array) {
            return true;
        }
    }
    false
}

#[cycle(adds)]
fn adds_one(s: &Stmt, array: u32) -> bool
    ensures { result ≡ list_any (nat_eq array) (summed_by s.now) }
{
    match s {
        Stmt::Assign { .. } => false,
        Stmt::AddTo {
            place: _,
            array: target,
            subs: _,
            value: _,
            atomic: _,
        } => array == *target,
        Stmt::Declare { .. } => false,
        Stmt::SetLocal { .. } => false,
        Stmt::If {
            place: _,
            test: _,
            body,
            otherwise,
        } => {
            if adds(body.as_slice(), array) {
                true
            } else {
                adds(otherwise.as_slice(), array)
            }
        }
        Stmt::For(head) => adds(head.body.as_slice(), array),
        Stmt::Block(body) => adds(body.as_slice(), array),
    }
}

/// Whether one of these statements reads or sets an array, other than by `+=`.
#[cycle(uses)]
fn uses(all: &[Stmt], array: u32) -> bool
    ensures { result ≡ list_any (nat_eq array) (used_in all.now) }
{
    for s in all {
        if uses_one(s, array) {
            return true;
        }
    }
    false
}

/// The subscripts of a target, and the value that it takes.
fn reads_in_target(subs: &[Expr], value: &Expr, array: u32) -> bool
    ensures { result ≡ list_any (nat_eq array) (read_in subs.now ++ read_by value.now) }
{
    if reads_any(subs, array) {
        true
    } else {
        reads(value, array)
    }
}

#[cycle(uses)]
fn uses_one(s: &Stmt, array: u32) -> bool
    ensures { result ≡ list_any (nat_eq array) (used_by s.now) }
{
    match s {
        Stmt::Assign {
            place: _,
            array: target,
            subs,
            value,
        } => {
            if array == *target {
                true
            } else {
                reads_in_target(subs.as_slice(), value, array)
            }
        }
        Stmt::AddTo {
            place: _,
            array: _,
            subs,
            value,
            atomic: _,
        } => reads_in_target(subs.as_slice(), value, array),
        Stmt::Declare {
            place: _,
            local: _,
            init,
        } => reads_first(init, array),
        Stmt::SetLocal {
            place: _,
            local: _,
            value,
        } => reads(value, array),
        Stmt::If {
            place: _,
            test,
            body,
            otherwise,
        } => {
            if reads(test, array) {
                true
            } else if uses(body.as_slice(), array) {
                true
            } else {
                uses(otherwise.as_slice(), array)
            }
        }
        Stmt::For(head) => uses(head.body.as_slice(), array),
        Stmt::Block(body) => uses(body.as_slice(), array),
    }
}

fn signed(kind: Kind) -> bool
    ensures { result ≡ is_signed kind }
{
    match kind {
        Kind::Int | Kind::Long => true,
        Kind::Unsigned | Kind::UnsignedLong => false,
    }
}

fn is_summed(body: &[Stmt], array: u32, kind: Kind) -> bool
    ensures { result ≡ gathered.is_summed body.now array kind }
{
    if signed(kind) {
        false
    } else if adds(body, array) {
        !uses(body, array)
    } else {
        false
    }
}

/// By number, the arrays of an unsigned kind to which the nest of a loop adds by `+=`, and which it uses
/// in no other way. A unit with more arrays than 32 bits can number gets the answer for want of memory.
pub fn sum_arrays(alloc: Global, unit: &Unit, head: &Loop) -> Result<Vec<u32>, OutOfMemory>
    ensures { IfOk result (λ found. found.items ≡ summed_arrays unit.now head.now) }
{
    let body = head.body.as_slice();
    let mut found = Vec::new(alloc);
    let mut number: u32 = 0;
    for array in unit.arrays.as_slice() {
        if is_summed(body, number, array.kind) {
            found.push(number)?;
        }
        match number.checked_add(1) {
            None => return Err(OutOfMemory),
            Some(next) => number = next,
        }
    }
    Ok(found)
}
