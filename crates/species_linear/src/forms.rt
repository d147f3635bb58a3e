//! Sparse affine forms and their values.

ghost use Rattle.std.specs.Prelude.{◌≡◌, ◌≢◌, ◌≤◌, ◌<◌, ◌^◌, pos, ◌+ℤ◌, ◌*ℤ◌, length, List, [], ◌∷◌, ◌++◌, All, OnOk, OnErr};
ghost use Rattle.std.specs.Int.RustNames.{unsigned_abs};
ghost use Rattle.species_linear.specs.Rising.{IsRising};
ghost use Rattle.species_linear.specs.Point.{IsShort, HasSmallIters, point_of};
ghost use Rattle.species_linear.specs.Value.{form_at, NamesOnly, HasSmallForm};

use std::alloc::{AllocError, Global};
use std::marker::Model;

/// The coefficient of the iterator of one level.
#[derive(Clone, Copy, Debug, PartialEq, Eq)]
pub struct Term {
    pub level: u32,
    pub coefficient: i128,
}

/// Terms whose levels rise, none with the coefficient 0.
#[derive(Debug, Drop)]
pub struct Terms {
    list: Vec<Term>,
}

impl Model for Terms {
    ghost use Rattle.std.specs.Prelude.{List};
    ghost use Rattle.species_linear.specs.declared.forms.Term.{Term};
    ghost use Rattle.species_linear.specs.Rising.{IsRising};

    ghost Value = { List Term };

    ghost view = { λ t. t.list.items };

    ghost invariant = { λ t. IsRising t.list.items };
}

impl Terms {
    /// No terms. It takes no memory.
    pub fn new(alloc: Global) -> Self
        ensures { result ≡ [] }
    {
        Terms {
            list: Vec::new(alloc),
        }
    }

    /// Adds a term at a level above those of the terms so far.
    pub fn push(&mut self, term: Term) -> Result<(), AllocError>
        requires above { All (λ t. t.level < term.level) self.old }
        requires nonzero { term.coefficient ≢ pos 0 }
        ensures ok { OnOk result (self.new ≡ self.old ++ term ∷ []) }
        ensures err { OnErr result (self.new ≡ self.old) }
    {
        self.list.push(term)?;
        Ok(())
    }

    /// The terms, in rising order of their levels.
    pub fn as_slice(&self) -> &[Term]
        ensures value { result.now ≡ self.now }
        ensures rising { IsRising result.now }
    {
        self.list.as_slice()
    }
}

/// A constant plus whole coefficients of iterators.
#[derive(Debug, Drop)]
pub struct Form {
    pub constant: i128,
    pub terms: Terms,
}

/// A total and one product more.
pub(crate) fn add_term(total: i128, term: Term, at: i64) -> i128
    requires small_total { unsigned_abs total ≤ 2 ^ 115 }
    requires small_coefficient { unsigned_abs term.coefficient < 2 ^ 70 }
    requires small_at { unsigned_abs at ≤ 2 ^ 40 }
    ensures { result ≡ total +ℤ term.coefficient *ℤ at }
{
    total + term.coefficient * (at as i128)
}

/// The value at the iterators of the levels 0, 1, and so on.
pub fn value(form: &Form, iters: &[i64]) -> i128
    requires short { IsShort iters.now }
    requires named { NamesOnly form.now (length iters.now) }
    requires small_form { HasSmallForm form.now }
    requires small_iters { HasSmallIters iters.now }
    ensures value { result ≡ form_at form.now (point_of iters.now) }
    ensures size { unsigned_abs result ≤ 2 ^ 115 }
{
    let mut total = form.constant;
    for term in form.terms.as_slice() {
        let at = iters[term.level as usize];
        total = add_term(total, *term, at);
    }
    total
}
