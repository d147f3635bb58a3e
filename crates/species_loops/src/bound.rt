//! The bounds of a loop, and their extremes over the ranges of the loops around it.

ghost use Rattle.std.specs.Prelude.{◌≡◌, ◌≤◌, ◌^◌, true, false, pos, IfOk, IfSome, unsigned_abs};
ghost use Rattle.species_ast.specs.Scope.Hulls as hulls;
ghost use Rattle.species_affine.specs.Limited.{IsWithin};
ghost use Rattle.species_linear.specs.Point.{IsShort};
ghost use Rattle.species_linear.specs.Box.{HasSmallEnds, HasSmallPath};
ghost use Rattle.species_linear.specs.Corner.{end_of};
ghost use Rattle.species_loops.specs.Lines.{IsLineOf};
ghost use Rattle.species_loops.specs.Ranges.{range_seen, ranges_seen};
ghost use Rattle.species_loops.specs.Bounds.{form_in, HasForm};
ghost use Rattle.species_loops.specs.Extremes.{extreme_product, extreme_of};

use crate::line::{Line, constant, line_at};
use species_affine::{Subscript, constant_of, form_of};
use species_ast::{Expr, OutOfMemory, Test};
use species_linear::LoopRange;
use std::alloc::Global;
use std::marker::Model;

/// The greatest size of an end of a loop's values.
const MOST_END: u128 = 1073741824;

/// A bound: an affine expression, or none, which counts as 0, and a number that is added to it.
#[derive(Drop)]
pub(crate) struct Bound<'a> {
    expr: Option<&'a Expr>,
    more: i64,
}

impl<'a> Model for Bound<'a> {
    ghost use Rattle.species_ast.specs.Scope.Forms.{Form};
    ghost use Rattle.species_loops.specs.Bounds.{form_in, moved, IsBound};

    ghost Value = { Form };

    ghost view = { λ b. moved b.more (form_in b.expr) };

    ghost invariant = { λ b. IsBound b.expr b.more };
}

impl<'a> Bound<'a> {
    /// What the iterator starts with.
    pub(crate) fn first(expr: Option<&'a Expr>) -> Bound<'a>
        requires { HasForm expr }
        ensures { result ≡ form_in expr.entry }
    {
        Bound { expr, more: 0 }
    }

    /// The last number that passes a test against the bound.
    pub(crate) fn last(test: Test, expr: Option<&'a Expr>) -> Bound<'a>
        requires { HasForm expr }
        ensures { result ≡ hulls.last_form test (form_in expr.entry) }
    {
        match test {
            Test::Lt => Bound { expr, more: -1 },
            Test::Le => Bound { expr, more: 0 },
            Test::Gt => Bound { expr, more: 1 },
            Test::Ge => Bound { expr, more: 0 },
        }
    }

    /// Its constant, and its coefficient of a level.
    fn line(&self, level: u32) -> Line
        ensures value { IsLineOf result level self.now }
        ensures constant { unsigned_abs result.constant ≤ 2 ^ 32 }
        ensures slope { IsWithin result.slope }
    {
        let line = match self.expr {
            Some(e) => line_at(e, level),
            None => constant(0),
        };
        Line {
            constant: line.constant + self.more,
            slope: line.slope,
        }
    }

    /// Its least value over these ranges, none of which is empty, or its greatest.
    fn extreme(&self, lower: bool, path: &[LoopRange]) -> i128
        requires short { IsShort path.now }
        requires ends { HasSmallPath path.now }
        ensures value { result ≡ extreme_of lower (ranges_seen path.now) self.now }
        ensures small { unsigned_abs result ≤ 2 ^ 80 }
    {
        let mut total = i128::from(self.line(0).constant);
        for (level, range) in path.iter().enumerate() {
            let slope = self.line(level as u32).slope;
            total += product(lower, slope, *range);
        }
        total
    }

    pub(crate) fn least(&self, path: &[LoopRange]) -> i128
        requires short { IsShort path.now }
        requires ends { HasSmallPath path.now }
        ensures value { result ≡ hulls.least_of (ranges_seen path.now) self.now }
    {
        self.extreme(true, path)
    }

    pub(crate) fn greatest(&self, path: &[LoopRange]) -> i128
        requires short { IsShort path.now }
        requires ends { HasSmallPath path.now }
        ensures value { result ≡ hulls.greatest_of (ranges_seen path.now) self.now }
    {
        self.extreme(false, path)
    }

    /// Whether its extremes over these ranges are such as the ends of a loop's values may be.
    pub(crate) fn has_ends(&self, path: &[LoopRange]) -> bool
        requires short { IsShort path.now }
        requires ends { HasSmallPath path.now }
        ensures { result ≡ hulls.has_ends (ranges_seen path.now) self.now }
    {
        let low = is_end(self.least(path));
        let high = is_end(self.greatest(path));
        low && high
    }

    /// Its value, where it is a constant.
    pub(crate) fn constant(&self, alloc: Global) -> Result<Option<i64>, OutOfMemory>
        ensures value { IfOk result (λ n. n ≡ hulls.start_constant self.now) }
        ensures small { IfOk result (λ n. IfSome n (λ m. unsigned_abs m ≤ 2 ^ 32)) }
    {
        let number = match self.expr {
            Some(e) => constant_of(alloc, e)?,
            None => Some(0),
        };
        match number {
            Some(n) => Ok(Some(n + self.more)),
            None => Ok(None),
        }
    }
}

/// An expression, if it is affine. Another counts as 0 where it is a bound.
pub(crate) fn counted<'a>(alloc: Global, e: &'a Expr) -> Result<Option<&'a Expr>, OutOfMemory>
    ensures form { IfOk result HasForm }
    ensures same { IfOk result (λ o. form_in o ≡ hulls.bound_form e.now) }
{
    match form_of(alloc, e)? {
        Subscript::Affine(_) => Ok(Some(e)),
        Subscript::Other => Ok(None),
    }
}

fn is_end(n: i128) -> bool
    ensures { result ≡ hulls.is_end n }
{
    n.unsigned_abs() <= MOST_END
}

/// The end of a range at which a product with the slope is least, or at which it is greatest.
fn end_of(lower: bool, slope: i64, range: LoopRange) -> i64
    ensures { result ≡ end_of lower slope range }
{
    let falls = slope < 0;
    if lower {
        if falls { range.high } else { range.low }
    } else {
        if falls { range.low } else { range.high }
    }
}

/// The least product of a slope and a number of the range, or the greatest.
fn product(lower: bool, slope: i64, range: LoopRange) -> i128
    requires slope { IsWithin slope }
    requires ends { HasSmallEnds range }
    ensures value { result ≡ extreme_product lower slope (range_seen range) }
    ensures small { unsigned_abs result ≤ 2 ^ 72 }
{
    i128::from(slope) * i128::from(end_of(lower, slope, range))
}
