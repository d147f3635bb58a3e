//! The headers of loops, and the ranges of their iterators.

ghost use Rattle.std.specs.Prelude.{◌≡◌, ◌≤◌, ◌^◌, ◌/◌, ◌-ℤ◌, ◌*ℤ◌, pos, ◌&&◌, not, true, false, IfOk, unsigned_abs};
ghost use Rattle.species_ast.specs.declared.tree.Loop.{out-Loop};
ghost use Rattle.species_ast.specs.Scope.Hulls as hulls;
ghost use Rattle.species_ast.specs.Scope.Magnitudes.{passes_bound};
ghost use Rattle.species_linear.specs.Point.{IsShort};
ghost use Rattle.species_linear.specs.Box.{HasSmallEnds, HasSmallPath};
ghost use Rattle.species_loops.specs.Ranges.{range_seen, ranges_seen};
ghost use Rattle.species_loops.specs.Bounds.{IsAffine};
ghost use Rattle.species_loops.specs.Headers.{header_of, passes_hull, range_in, loose_range, far_end, is_taken};

use crate::bound::{Bound, counted};
use crate::magnitude::passes_bound;
use species_ast::{Loop, OutOfMemory};
use species_linear::LoopRange;
use std::alloc::Global;

/// The bounds and the step of a loop. A bound that is not affine, which no lawful loop has, counts as 0.
#[derive(Drop)]
pub struct Header<'a> {
    start: Bound<'a>,
    last: Bound<'a>,
    step: i32,
}

impl<'a> Header<'a> {
    /// The header of a loop whose bounds are affine.
    fn affine(head: &'a Loop) -> Header<'a>
        requires start { IsAffine (out-Loop head.now).start }
        requires limit { IsAffine (out-Loop head.now).limit }
        ensures { result ≡ header_of (out-Loop head.now) }
    {
        Header {
            start: Bound::first(Some(&head.start)),
            last: Bound::last(head.test, Some(&head.limit)),
            step: head.step,
        }
    }

    /// The header of any loop.
    pub fn of(alloc: Global, head: &'a Loop) -> Result<Header<'a>, OutOfMemory>
        ensures { IfOk result (λ h. h ≡ header_of (out-Loop head.now)) }
    {
        let start = counted(alloc, &head.start)?;
        let limit = counted(alloc, &head.limit)?;
        Ok(Header {
            start: Bound::first(start),
            last: Bound::last(head.test, limit),
            step: head.step,
        })
    }

    /// Whether an extreme of the start or of the last value is past the limit, over ranges of which none is empty.
    pub fn passes_hull(&self, path: &[LoopRange]) -> bool
        requires short { IsShort path.now }
        requires ends { HasSmallPath path.now }
        ensures { result ≡ passes_hull (ranges_seen path.now) self.now }
    {
        if has_empty(path) {
            return false;
        }
        let start = self.start.has_ends(path);
        let last = self.last.has_ends(path);
        !(start && last)
    }

    /// The range of the loop's iterator in loops with these ranges.
    pub fn range(&self, alloc: Global, path: &[LoopRange]) -> Result<LoopRange, OutOfMemory>
        requires short { IsShort path.now }
        requires ends { HasSmallPath path.now }
        requires hull { passes_hull (ranges_seen path.now) self.now ≡ false }
        ensures value { IfOk result (λ r. range_seen r ≡ range_in (ranges_seen path.now) self.now) }
        ensures small { IfOk result HasSmallEnds }
    {
        let first = self.start.constant(alloc)?;
        let last = self.last.constant(alloc)?;
        match first {
            Some(a) => match last {
                Some(b) => Ok(fixed_range(self.step, a, b)),
                None => Ok(self.loose_range(path, Some(a), false)),
            },
            None => Ok(self.loose_range(path, None, last.is_some())),
        }
    }

    /// The range where not both bounds are constants.
    fn loose_range(&self, path: &[LoopRange], start: Option<i64>, fixed: bool) -> LoopRange
        requires short { IsShort path.now }
        requires ends { HasSmallPath path.now }
        requires hull { passes_hull (ranges_seen path.now) self.now ≡ false }
        ensures empty { hulls.has_empty (ranges_seen path.now) ≡ true → range_seen result ≡ record (hulls.no_range self.now.step self.now.start self.now.last) { start = start; fixed = fixed } }
        ensures full { hulls.has_empty (ranges_seen path.now) ≡ false → range_seen result ≡ loose_range (ranges_seen path.now) self.now start fixed }
        ensures small { HasSmallEnds result }
    {
        if has_empty(path) {
            return LoopRange {
                low: 1,
                high: 0,
                step: self.step,
                start,
                fixed,
            };
        }
        let low = self.lowest(path);
        let high = self.highest(path);
        LoopRange {
            low,
            high,
            step: self.step,
            start,
            fixed,
        }
    }

    /// The least value of the iterator, over ranges of which none is empty.
    fn lowest(&self, path: &[LoopRange]) -> i64
        requires short { IsShort path.now }
        requires ends { HasSmallPath path.now }
        requires start { hulls.has_ends (ranges_seen path.now) self.now.start ≡ true }
        requires last { hulls.has_ends (ranges_seen path.now) self.now.last ≡ true }
        ensures value { result ≡ (hulls.wide_range (ranges_seen path.now) self.now.step self.now.start self.now.last).low }
        ensures small { unsigned_abs result ≤ hulls.most_end }
    {
        if self.step < 0 {
            narrow(self.last.least(path))
        } else {
            narrow(self.start.least(path))
        }
    }

    /// The greatest.
    fn highest(&self, path: &[LoopRange]) -> i64
        requires short { IsShort path.now }
        requires ends { HasSmallPath path.now }
        requires start { hulls.has_ends (ranges_seen path.now) self.now.start ≡ true }
        requires last { hulls.has_ends (ranges_seen path.now) self.now.last ≡ true }
        ensures value { result ≡ (hulls.wide_range (ranges_seen path.now) self.now.step self.now.start self.now.last).high }
        ensures small { unsigned_abs result ≤ hulls.most_end }
    {
        if self.step < 0 {
            narrow(self.start.greatest(path))
        } else {
            narrow(self.last.greatest(path))
        }
    }
}

/// An end of a loop's values, as a smaller word.
fn narrow(n: i128) -> i64
    requires { unsigned_abs n ≤ hulls.most_end }
    ensures { result ≡ n }
{
    n as i64
}

/// Whether one of the ranges is empty.
pub(crate) fn has_empty(path: &[LoopRange]) -> bool
    ensures { result ≡ hulls.has_empty (ranges_seen path.now) }
{
    for range in path {
        if range.high < range.low {
            return true;
        }
    }
    false
}

/// The range from a constant to a constant: its far end becomes the last value taken.
fn fixed_range(step: i32, first: i64, last: i64) -> LoopRange
    requires first { unsigned_abs first ≤ 2 ^ 32 }
    requires last { unsigned_abs last ≤ 2 ^ 32 }
    ensures value { range_seen result ≡ hulls.fixed_range step first last }
    ensures small { HasSmallEnds result }
{
    let far = far_end(step, first, last);
    if step < 0 {
        LoopRange {
            low: far,
            high: first,
            step,
            start: Some(first),
            fixed: true,
        }
    } else {
        LoopRange {
            low: first,
            high: far,
            step,
            start: Some(first),
            fixed: true,
        }
    }
}

/// The last value that is taken on the way from one number to another, or the other if none is.
fn far_end(step: i32, first: i64, last: i64) -> i64
    requires first { unsigned_abs first ≤ 2 ^ 32 }
    requires last { unsigned_abs last ≤ 2 ^ 32 }
    ensures value { result ≡ far_end step first last }
    ensures small { unsigned_abs result ≤ 2 ^ 40 }
{
    if is_taken(step, first, last) {
        last_value(step, first, last)
    } else {
        last
    }
}

/// Whether the first number is not past the last, in the direction of the step.
fn is_taken(step: i32, first: i64, last: i64) -> bool
    ensures { result ≡ is_taken step first last }
{
    if step < 0 {
        last <= first
    } else {
        first <= last
    }
}

/// The last of first, first plus step and so on that is not past a number, where the first is not.
fn last_value(step: i32, first: i64, last: i64) -> i64
    requires first { unsigned_abs first ≤ 2 ^ 32 }
    requires last { unsigned_abs last ≤ 2 ^ 32 }
    ensures value { result ≡ hulls.last_value step first last }
    ensures small { unsigned_abs result ≤ 2 ^ 40 }
{
    first + whole_steps(step, distance(first, last))
}

fn distance(first: i64, last: i64) -> u64
    requires first { unsigned_abs first ≤ 2 ^ 32 }
    requires last { unsigned_abs last ≤ 2 ^ 32 }
    ensures value { result ≡ unsigned_abs (last -ℤ first) }
    ensures small { result ≤ 2 ^ 33 }
{
    (last - first).unsigned_abs()
}

/// As many steps as are not longer than the way.
fn whole_steps(step: i32, way: u64) -> i64
    requires { way ≤ 2 ^ 33 }
    ensures value { result ≡ pos (way / unsigned_abs step) *ℤ step }
    ensures small { unsigned_abs result ≤ 2 ^ 33 }
{
    let size = u64::from(step.unsigned_abs());
    if size == 0 {
        return 0;
    }
    times((way / size) as i64, step)
}

fn times(turns: i64, step: i32) -> i64
    requires { unsigned_abs (turns *ℤ step) ≤ 2 ^ 33 }
    ensures { result ≡ turns *ℤ step }
{
    turns * i64::from(step)
}

/// Whether the bounds of a loop keep the limits Hull and Bound in loops with these ranges.
pub fn bounds_fit(head: &Loop, path: &[LoopRange]) -> bool
    requires start { IsAffine (out-Loop head.now).start }
    requires limit { IsAffine (out-Loop head.now).limit }
    requires short { IsShort path.now }
    requires ends { HasSmallPath path.now }
    ensures { result ≡ (not (hulls.passes_hull (ranges_seen path.now) (out-Loop head.now)) && not (passes_bound (ranges_seen path.now) (out-Loop head.now))) }
{
    let hull = Header::affine(head).passes_hull(path);
    let bound = passes_bound(head, path);
    !hull && !bound
}

/// The range of the iterator of a loop in loops with these ranges.
pub fn range_of(alloc: Global, head: &Loop, path: &[LoopRange]) -> Result<LoopRange, OutOfMemory>
    requires start { IsAffine (out-Loop head.now).start }
    requires limit { IsAffine (out-Loop head.now).limit }
    requires short { IsShort path.now }
    requires ends { HasSmallPath path.now }
    requires hull { hulls.passes_hull (ranges_seen path.now) (out-Loop head.now) ≡ false }
    ensures value { IfOk result (λ r. range_seen r ≡ hulls.range_of (ranges_seen path.now) (out-Loop head.now)) }
    ensures small { IfOk result HasSmallEnds }
{
    let range = Header::affine(head).range(alloc, path)?;
    Ok(range)
}
