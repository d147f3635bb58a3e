//! Perfectly nested loops, and bands of them.

ghost use Rattle.std.specs.Prelude.{◌≡◌, ℕ, ◌+◌, ◌||◌, ◌&&◌, not, nat_lt, map, min};
ghost use Rattle.species_ast.specs.Scope.Forms.{iterators_in};
ghost use Rattle.species_ast.specs.Scope.Nests.{front_of, only_loops};
ghost use Rattle.species_loops.specs.Bands.{front_in, iterators_of_all, is_of_band, names_band, keeps_out, is_band, IsLongestBand};

use species_ast::{Expr, Loop, Stmt};

/// The iterators of so many loops from a level on.
#[derive(Clone, Copy)]
pub(crate) struct Band {
    pub(crate) first: u32,
    pub(crate) size: u32,
}

fn is_of_band(band: Band, level: u32) -> bool
    ensures { result ≡ is_of_band band.first band.size level }
{
    let end = u64::from(band.first) + u64::from(band.size);
    band.first <= level && u64::from(level) < end
}

/// Whether an expression names an iterator of the band.
#[cycle(names)]
fn names(e: &Expr, band: Band) -> bool
    ensures { result ≡ names_band band.first band.size (iterators_in e.now) }
{
    match e {
        Expr::Literal(_) => false,
        Expr::Iter(level) => is_of_band(band, *level),
        Expr::Local(_) => false,
        Expr::Elem(_, subs) => any_names(subs.as_slice(), band),
        Expr::Unary(_, a) => names(a.get(), band),
        Expr::Binary(_, a, b) => {
            let a = names(a.get(), band);
            let b = names(b.get(), band);
            either(a, b)
        }
        Expr::And(a, b) => {
            let a = names(a.get(), band);
            let b = names(b.get(), band);
            either(a, b)
        }
        Expr::Or(a, b) => {
            let a = names(a.get(), band);
            let b = names(b.get(), band);
            either(a, b)
        }
        Expr::Cond(test, a, b) => {
            let test = names(test.get(), band);
            let a = names(a.get(), band);
            let b = names(b.get(), band);
            either(test, either(a, b))
        }
        Expr::Cast(_, a) => names(a.get(), band),
    }
}

#[cycle(names)]
fn any_names(all: &[Expr], band: Band) -> bool
    ensures { result ≡ names_band band.first band.size (iterators_of_all all.now) }
{
    let mut found = false;
    for e in all {
        let here = names(e, band);
        found = either(found, here);
    }
    found
}

fn either(a: bool, b: bool) -> bool
    ensures { result ≡ (a || b) }
{
    a || b
}

/// Whether so many leading loops are there, and their bounds name no iterator of the band.
#[cycle(keeps)]
pub(crate) fn keeps_out(head: &Loop, count: u32, band: Band) -> bool
    ensures { result ≡ keeps_out band.first band.size count (front_of head.now) }
{
    if count == 0 {
        return true;
    }
    let start = names(&head.start, band);
    let limit = names(&head.limit, band);
    let inner = body_keeps_out(head.body.as_slice(), count - 1, band);
    let bounds = either(start, limit);
    unless(inner, bounds)
}

fn unless(a: bool, b: bool) -> bool
    ensures { result ≡ (a && not b) }
{
    a && !b
}

#[cycle(keeps)]
fn body_keeps_out(body: &[Stmt], count: u32, band: Band) -> bool
    ensures { result ≡ keeps_out band.first band.size count (only_loops (map front_in body.now)) }
{
    match body {
        [only] => stmt_keeps_out(only, count, band),
        _ => count == 0,
    }
}

#[cycle(keeps)]
fn stmt_keeps_out(stmt: &Stmt, count: u32, band: Band) -> bool
    ensures { result ≡ keeps_out band.first band.size count (front_in stmt.now) }
{
    match stmt {
        Stmt::For(head) => keeps_out(head, count, band),
        Stmt::Block(body) => body_keeps_out(body.as_slice(), count, band),
        Stmt::Assign { .. } => count == 0,
        Stmt::AddTo { .. } => count == 0,
        Stmt::Declare { .. } => count == 0,
        Stmt::SetLocal { .. } => count == 0,
        Stmt::If { .. } => count == 0,
    }
}

/// Whether so many perfectly nested loops, of which the first has this level, are there, and none of their bounds
/// names the iterator of one of them.
pub fn is_band(head: &Loop, level: u32, size: u32) -> bool
    ensures { result ≡ is_band level (front_of head.now) size }
{
    keeps_out(head, size, Band { first: level, size })
}

/// Whether a band of one loop more is there, and 32 bits hold its size.
fn has_longer(head: &Loop, level: u32, size: u32) -> bool
    ensures { result ≡ (nat_lt size 4294967295 && is_band level (front_of head.now) (size + 1)) }
{
    size < u32::MAX && is_band(head, level, size + 1)
}

/// How many perfectly nested loops, of which the first has this level, have bounds that name none of their iterators. The
/// greatest number of 32 bits stands for all that they do not hold.
#[tactic(auto, using(crate::proofs::FrontLaws::there))]
pub fn perfect_depth(head: &Loop, level: u32) -> u32
    ensures { (n : ℕ) × IsLongestBand level (front_of head.now) n × (result ≡ min n 4294967295) }
{
    let mut depth = 0;
    while has_longer(head, level, depth) {
        depth += 1;
    }
    depth
}
