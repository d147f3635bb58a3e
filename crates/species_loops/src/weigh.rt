//! The weight of a unit: the turns of its loops in all.

ghost use Rattle.std.specs.Prelude.{◌≡◌, ◌≤◌, ◌<◌, ◌+◌, ◌*◌, ◌/◌, ◌^◌, ◌-ℤ◌, ◌∷◌, [], ◌++◌, min, map, take, length, false, IfOk, OnOk, IsTrue, unsigned_abs};
ghost use Rattle.species_ast.specs.declared.tree.Loop.{out-Loop, fold-Loop};
ghost use Rattle.species_ast.specs.Scope.Hulls as hulls;
ghost use Rattle.species_ast.specs.Scope.Loops.{Nesting};
ghost use Rattle.species_ast.specs.Scope.WellMade.{IsWellMade, Made, made, made_at, made_loop, list_keeps};
ghost use Rattle.species_linear.specs.Box.{HasSmallEnds};
ghost use Rattle.species_loops.specs.Ranges.{range_seen, ranges_seen};
ghost use Rattle.species_loops.specs.Weights.{turns_of, weight_in, weight_in_list, weight_in_loop, weight_of, most_weight, IsAround};

use crate::header::{Header, has_empty};
use crate::path::Path;
use species_ast::{Loop, OutOfMemory, Stmt, Unit};
use species_linear::LoopRange;
use std::alloc::Global;

/// The greatest weight that is told from greater ones.
const MOST_WEIGHT: u128 = 1267650600228229401496703205376;

fn limited(n: u128) -> u128
    ensures { result ≡ min n most_weight }
{
    n.min(MOST_WEIGHT)
}

fn sum(a: u128, b: u128) -> u128
    ensures { result ≡ min (a + b) most_weight }
{
    match a.checked_add(b) {
        Some(n) => limited(n),
        None => MOST_WEIGHT,
    }
}

fn product(a: u128, b: u128) -> u128
    ensures { result ≡ min (a * b) most_weight }
{
    match a.checked_mul(b) {
        Some(n) => limited(n),
        None => MOST_WEIGHT,
    }
}

/// From one end of a range to the other.
fn way(range: LoopRange) -> u64
    requires { HasSmallEnds range }
    ensures value { result ≡ unsigned_abs (range.high -ℤ range.low) }
    ensures small { result ≤ 2 ^ 41 }
{
    (range.high - range.low).unsigned_abs()
}

/// As many steps as are not longer than the way.
fn steps(way: u64, step: i32) -> u64
    requires { way ≤ 2 ^ 41 }
    ensures value { result ≡ way / unsigned_abs step }
    ensures small { result ≤ 2 ^ 41 }
{
    let size = u64::from(step.unsigned_abs());
    if size == 0 { 0 } else { way / size }
}

/// The turns of a loop with this range in loops with these.
fn turns(path: &[LoopRange], range: LoopRange) -> u64
    requires { HasSmallEnds range }
    ensures { result ≡ turns_of (ranges_seen path.now) (range_seen range) }
{
    if range.high < range.low {
        return 0;
    }
    if has_empty(path) {
        return 0;
    }
    steps(way(range), range.step) + 1
}

/// Goes into a loop that keeps the limit Hull, and gives how many turns it has.
fn enter(alloc: Global, head: &Loop, path: &mut Path) -> Result<u64, OutOfMemory>
    ensures turns { IfOk result (λ n. hulls.passes_hull path.old (out-Loop head.now) ≡ false → n ≡ turns_of path.old (hulls.range_of path.old (out-Loop head.now))) }
    ensures kept { OnOk result (take (length path.old) path.new ≡ path.old) }
    ensures open { OnOk result (hulls.passes_hull path.old (out-Loop head.now) ≡ false → length path.old < 16 → path.new ≡ path.old ++ hulls.range_of path.old (out-Loop head.now) ∷ []) }
{
    let header = Header::of(alloc, head)?;
    if header.passes_hull(path.as_slice()) {
        return Ok(0);
    }
    let range = header.range(alloc, path.as_slice())?;
    let turns = turns(path.as_slice(), range);
    path.enter(range)?;
    Ok(turns)
}

#[cycle(weigh)]
fn weigh_all(alloc: Global, all: &[Stmt], path: &mut Path) -> Result<u128, OutOfMemory>
    ensures value { IfOk result (λ w. (n : Nesting) → IsAround path.old n → IsTrue (list_keeps (map made all.now) n) → w ≡ min (weight_in_list all.now path.old) most_weight) }
    ensures same { OnOk result (path.new ≡ path.old) }
{
    let mut total = 0;
    for stmt in all {
        let more = weigh(alloc, stmt, path)?;
        total = sum(total, more);
    }
    Ok(total)
}

#[cycle(weigh)]
fn weigh(alloc: Global, stmt: &Stmt, path: &mut Path) -> Result<u128, OutOfMemory>
    ensures value { IfOk result (λ w. (n : Nesting) → IsAround path.old n → IsTrue ((made stmt.now).keeps n) → w ≡ min (weight_in stmt.now path.old) most_weight) }
    ensures same { OnOk result (path.new ≡ path.old) }
{
    match stmt {
        Stmt::For(head) => {
            let weight = weigh_loop(alloc, head, path)?;
            Ok(weight)
        }
        Stmt::If {
            body,
            otherwise,
            ..
        } => {
            let first = weigh_all(alloc, body.as_slice(), path)?;
            let second = weigh_all(alloc, otherwise.as_slice(), path)?;
            Ok(sum(first, second))
        }
        Stmt::Block(body) => {
            let weight = weigh_all(alloc, body.as_slice(), path)?;
            Ok(weight)
        }
        Stmt::Assign { .. } => Ok(0),
        Stmt::AddTo { .. } => Ok(0),
        Stmt::Declare { .. } => Ok(0),
        Stmt::SetLocal { .. } => Ok(0),
    }
}

#[cycle(weigh)]
fn weigh_loop(alloc: Global, head: &Loop, path: &mut Path) -> Result<u128, OutOfMemory>
    ensures value { IfOk result (λ w. (n : Nesting) → IsAround path.old n → IsTrue ((fold-Loop Made Made made_at made_loop head.now).keeps n) → w ≡ min (weight_in_loop head.now path.old) most_weight) }
    ensures same { OnOk result (path.new ≡ path.old) }
{
    let depth = path.len();
    let turns = enter(alloc, head, path)?;
    let inside = weigh_all(alloc, head.body.as_slice(), path)?;
    path.leave(depth);
    Ok(product(u128::from(turns), inside.max(1)))
}

/// The weight of a unit: the turns of its outermost loops, each times what the loops in it weigh. A weight past 2^100 counts
/// as 2^100.
pub fn weight(alloc: Global, unit: &Unit) -> Result<u128, OutOfMemory>
    ensures { IsWellMade unit.now → IfOk result (λ w. w ≡ min (weight_of unit.now) most_weight) }
{
    let mut path = Path::new(alloc);
    let total = weigh_all(alloc, unit.body.as_slice(), &mut path)?;
    Ok(total)
}
