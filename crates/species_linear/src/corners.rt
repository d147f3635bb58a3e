//! The least and the greatest value of a form over a box, found at corners of the box.

ghost use Rattle.std.specs.Prelude.{◌≡◌, ◌≤◌, ◌^◌, length};
ghost use Rattle.std.specs.Int.RustNames.{unsigned_abs};
ghost use Rattle.species_linear.specs.Rising.{IsRising};
ghost use Rattle.species_linear.specs.Point.{IsShort};
ghost use Rattle.species_linear.specs.Value.{form_at, NamesOnly, HasSmallForm};
ghost use Rattle.species_linear.specs.Box.{HasSmallPath, IsFull, IsLeast, IsGreatest};
ghost use Rattle.species_linear.specs.Corner.{end_of, corner_of};

use crate::forms::{Form, Term, add_term};
use crate::loops::LoopRange;

/// The end of a range at which a term is least, or at which it is greatest.
fn end_of(lower: bool, term: Term, range: LoopRange) -> i64
    ensures { result ≡ end_of lower term.coefficient range }
{
    let falls = term.coefficient < 0;
    if lower {
        if falls { range.high } else { range.low }
    } else {
        if falls { range.low } else { range.high }
    }
}

/// The value at the corner of the box where each term is least, or where each is greatest.
fn corner(lower: bool, form: &Form, path: &[LoopRange]) -> i128
    requires short { IsShort path.now }
    requires named { NamesOnly form.now (length path.now) }
    requires small_form { HasSmallForm form.now }
    requires small_path { HasSmallPath path.now }
    ensures value { result ≡ form_at form.now (corner_of lower form.now path.now) }
    ensures rising { IsRising form.now.terms }
{
    let mut total = form.constant;
    for term in form.terms.as_slice() {
        let range = path[term.level as usize];
        total = add_term(total, *term, end_of(lower, *term, range));
    }
    total
}

/// The least value over all points of the box. `path` has the ranges of the loops by level.
pub fn least(form: &Form, path: &[LoopRange]) -> i128
    requires short { IsShort path.now }
    requires named { NamesOnly form.now (length path.now) }
    requires small_form { HasSmallForm form.now }
    requires small_path { HasSmallPath path.now }
    requires full { IsFull path.now }
    ensures least { IsLeast form.now path.now result }
    ensures size { unsigned_abs result ≤ 2 ^ 115 }
{
    corner(true, form, path)
}

/// The greatest value over all points of the box. `path` has the ranges of the loops by level.
pub fn greatest(form: &Form, path: &[LoopRange]) -> i128
    requires short { IsShort path.now }
    requires named { NamesOnly form.now (length path.now) }
    requires small_form { HasSmallForm form.now }
    requires small_path { HasSmallPath path.now }
    requires full { IsFull path.now }
    ensures greatest { IsGreatest form.now path.now result }
    ensures size { unsigned_abs result ≤ 2 ^ 115 }
{
    corner(false, form, path)
}
