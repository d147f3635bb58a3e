//! References that no test tells apart.

ghost use Rattle.std.specs.Prelude.{◌≡◌, ◌≤◌, ◌<◌, length, IsTrue};
ghost use Rattle.species_depend.specs.Alike.{IsAlike, HasTwin};

use species_affine::Subscript;
use species_arcs::Dir;
use species_linear::{Form, LoopRange, Term};
use species_references::Reference;

fn same_term(a: Term, b: Term) -> bool
    ensures { IsTrue result → a ≡ b }
{
    a.level == b.level && a.coefficient == b.coefficient
}

fn same_start(a: Option<i64>, b: Option<i64>) -> bool
    ensures { IsTrue result → a ≡ b }
{
    match a {
        None => match b {
            None => true,
            Some(_) => false,
        },
        Some(x) => match b {
            None => false,
            Some(y) => x == y,
        },
    }
}

fn same_range(a: LoopRange, b: LoopRange) -> bool
    ensures { IsTrue result → a ≡ b }
{
    a.low == b.low
        && a.high == b.high
        && a.step == b.step
        && same_start(a.start, b.start)
        && a.fixed == b.fixed
}

fn same_dir(a: Dir, b: Dir) -> bool
    ensures { IsTrue result → a ≡ b }
{
    a == b
}

fn same_terms(a: &[Term], b: &[Term]) -> bool
    ensures { IsTrue result → a.now ≡ b.now }
{
    if a.len() != b.len() {
        return false;
    }
    for i in 0..a.len() {
        if !same_term(a[i], b[i]) {
            return false;
        }
    }
    true
}

fn same_path(a: &[LoopRange], b: &[LoopRange]) -> bool
    ensures { IsTrue result → a.now ≡ b.now }
{
    if a.len() != b.len() {
        return false;
    }
    for i in 0..a.len() {
        if !same_range(a[i], b[i]) {
            return false;
        }
    }
    true
}

fn same_form(f: &Form, g: &Form) -> bool
    ensures { IsTrue result → f.now ≡ g.now }
{
    f.constant == g.constant && same_terms(f.terms.as_slice(), g.terms.as_slice())
}

fn same_subscript(s: &Subscript, t: &Subscript) -> bool
    ensures { IsTrue result → s.now ≡ t.now }
{
    match s {
        Subscript::Affine(f) => match t {
            Subscript::Affine(g) => same_form(f, g),
            Subscript::Other => false,
        },
        Subscript::Other => match t {
            Subscript::Affine(_) => false,
            Subscript::Other => true,
        },
    }
}

fn same_subscripts(a: &[Subscript], b: &[Subscript]) -> bool
    ensures { IsTrue result → a.now ≡ b.now }
{
    if a.len() != b.len() {
        return false;
    }
    for i in 0..a.len() {
        if !same_subscript(&a[i], &b[i]) {
            return false;
        }
    }
    true
}

/// Whether two references are alike.
fn is_alike(p: &Reference, q: &Reference) -> bool
    ensures { IsTrue result → IsAlike p.now q.now }
{
    p.array == q.array
        && same_dir(p.dir, q.dir)
        && same_subscripts(p.subs.as_slice(), q.subs.as_slice())
        && same_path(p.path.as_slice(), q.path.as_slice())
}

/// Whether one reference may stand for another: they are alike, and its number lies from `least` to that
/// of the other.
fn is_twin(p: &Reference, q: &Reference, least: u32) -> bool
    ensures alike { IsTrue result → IsAlike p.now q.now }
    ensures above { IsTrue result → least ≤ p.now.number }
    ensures below { IsTrue result → p.now.number ≤ q.now.number }
{
    least <= p.number && p.number <= q.number && is_alike(p, q)
}

/// Whether a reference stands between two places that may stand for the one at the second of them.
/// The nearest are looked at first.
pub(crate) fn has_twin(refs: &[Reference], from: usize, at: usize, least: u32) -> bool
    requires { at < length refs.now }
    ensures { IsTrue result → HasTwin refs.now at least }
{
    let mut place = at;
    while from < place {
        place -= 1;
        if is_twin(&refs[place], &refs[at], least) {
            return true;
        }
    }
    false
}
