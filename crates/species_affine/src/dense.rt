//! Forms with a coefficient for each level up to the last, within the limit.

ghost use Rattle.std.specs.Prelude.{◌≡◌, ◌≤◌, ◌^◌, if◌then◌else◌, Some, None, length, IfOk, IfSome, All, ◌+ℤ◌, ◌*ℤ◌, neg_ℤ};
ghost use Rattle.std.specs.List.{list_all};
ghost use Rattle.species_ast.specs.Scope.Forms as text;
ghost use Rattle.species_affine.specs.Limited.{IsWithin};

use species_ast::OutOfMemory;
use std::alloc::Global;
use std::marker::Model;

/// The greatest size of a number in a form.
const FORM_LIMIT: u64 = 2147483647;

/// A constant, and the coefficients of the iterators: that of level 0 first. All are within the limit.
#[derive(Drop)]
pub(crate) struct Dense {
    constant: i64,
    coefficients: Vec<i64>,
}

impl Model for Dense {
    ghost use Rattle.species_ast.specs.Scope.Forms.{Form};
    ghost use Rattle.species_affine.specs.Limited.{IsLimited};

    ghost Value = { Form };

    ghost view = { λ d. record { constant = d.constant; coefficients = d.coefficients.items } };

    ghost invariant = { λ d. IsLimited (record { constant = d.constant; coefficients = d.coefficients.items }) };
}

impl Dense {
    /// The form, if its numbers are within the limit.
    pub(crate) fn limited(constant: i64, coefficients: Vec<i64>) -> Option<Dense>
        requires { length coefficients.items ≤ 2 ^ 32 }
        ensures { result ≡ text.limited (record { constant = constant; coefficients = coefficients.items }) }
    {
        if is_within(constant) && are_within(coefficients.as_slice()) {
            Some(Dense {
                constant,
                coefficients,
            })
        } else {
            None
        }
    }

    /// The form of the iterator of a level.
    pub(crate) fn iterator(alloc: Global, level: u32) -> Result<Dense, OutOfMemory>
        ensures { IfOk result (λ f. f ≡ text.iterator_form level) }
    {
        let mut coefficients = Vec::new(alloc);
        for _lower in 0..level {
            coefficients.push(0i64)?;
        }
        coefficients.push(1)?;
        Ok(Dense {
            constant: 0,
            coefficients,
        })
    }

    pub(crate) fn constant(&self) -> i64
        ensures value { result ≡ self.now.constant }
        ensures small { IsWithin result }
    {
        self.constant
    }

    /// The coefficients, that of level 0 first.
    pub(crate) fn coefficients(&self) -> &[i64]
        ensures value { result.now ≡ self.now.coefficients }
        ensures small { All IsWithin result.now }
        ensures short { length result.now ≤ 2 ^ 32 }
    {
        self.coefficients.as_slice()
    }

    /// Whether no iterator has a coefficient other than 0.
    fn is_constant(&self) -> bool
        ensures { result ≡ text.is_constant self.now }
    {
        self.coefficients.as_slice().iter().all(|c| *c == 0)
    }

    /// The constant of a constant form.
    pub(crate) fn alone(&self) -> Option<i64>
        ensures small { IfSome result IsWithin }
        ensures value { result ≡ (if text.is_constant self.now then Some self.now.constant else None) }
    {
        if self.is_constant() {
            Some(self.constant())
        } else {
            None
        }
    }

    /// Each number times n.
    fn scaled(&self, alloc: Global, n: i64) -> Result<Option<Dense>, OutOfMemory>
        requires { IsWithin n }
        ensures { IfOk result (λ f. f ≡ text.limited (text.scaled n self.now)) }
    {
        let mut coefficients = Vec::new(alloc);
        for c in self.coefficients() {
            coefficients.push(product(n, *c))?;
        }
        Ok(Dense::limited(product(n, self.constant()), coefficients))
    }

    /// Each number with the other sign.
    pub(crate) fn negated(&self, alloc: Global) -> Result<Dense, OutOfMemory>
        ensures { IfOk result (λ f. f ≡ text.negated self.now) }
    {
        let mut coefficients = Vec::new(alloc);
        for c in self.coefficients() {
            coefficients.push(negative(*c))?;
        }
        Ok(Dense {
            constant: negative(self.constant()),
            coefficients,
        })
    }

    /// Each number with the other sign, if all are within the limit, as they are.
    pub(crate) fn negation(&self, alloc: Global) -> Result<Option<Dense>, OutOfMemory>
        ensures { IfOk result (λ f. f ≡ text.limited (text.negated self.now)) }
    {
        let Dense {
            constant,
            coefficients,
        } = self.negated(alloc)?;
        Ok(Dense::limited(constant, coefficients))
    }

    /// The sum, if its numbers are within the limit.
    pub(crate) fn plus(&self, alloc: Global, other: &Dense) -> Result<Option<Dense>, OutOfMemory>
        ensures { IfOk result (λ f. f ≡ text.limited (text.sum_form self.now other.now)) }
    {
        let mut coefficients = Vec::new(alloc);
        let levels = self.coefficients().len().max(other.coefficients().len());
        for level in 0..levels {
            coefficients.push(sum(self.coefficient(level), other.coefficient(level)))?;
        }
        Ok(Dense::limited(sum(self.constant(), other.constant()), coefficients))
    }

    /// The coefficient of a level, 0 past the end.
    fn coefficient(&self, level: usize) -> i64
        ensures value { result ≡ text.coefficient_at self.now level }
        ensures small { IsWithin result }
    {
        match self.coefficients().get(level) {
            Some(n) => *n,
            None => 0,
        }
    }

    /// The product of two forms of which one is constant.
    pub(crate) fn times(&self, alloc: Global, other: &Dense) -> Result<Option<Dense>, OutOfMemory>
        ensures { IfOk result (λ f. f ≡ text.product_form self.now other.now) }
    {
        if self.is_constant() {
            Ok(other.scaled(alloc, self.constant())?)
        } else if other.is_constant() {
            Ok(self.scaled(alloc, other.constant())?)
        } else {
            Ok(None)
        }
    }
}

fn is_within(n: i64) -> bool
    ensures { result ≡ text.is_within n }
{
    n.unsigned_abs() <= FORM_LIMIT
}

fn are_within(numbers: &[i64]) -> bool
    ensures { result ≡ list_all text.is_within numbers.now }
{
    numbers.iter().all(|n| is_within(*n))
}

fn negative(n: i64) -> i64
    requires { IsWithin n }
    ensures value { result ≡ neg_ℤ n }
    ensures small { IsWithin result }
{
    -n
}

fn product(n: i64, m: i64) -> i64
    requires left { IsWithin n }
    requires right { IsWithin m }
    ensures { result ≡ n *ℤ m }
{
    n * m
}

fn sum(n: i64, m: i64) -> i64
    requires left { IsWithin n }
    requires right { IsWithin m }
    ensures { result ≡ n +ℤ m }
{
    n + m
}
