//! Pairs of references that meet in no pair of iterations of a direction, by the tests.

ghost use Rattle.std.specs.Prelude.{◌↔◌, IsTrue, slice_index_or};
ghost use Rattle.species_affine.specs.declared.subscript.Subscript.TheVariants.{Other};
ghost use Rattle.species_region.specs.Asked.{ShareLoops, IsSmallPath, IsFormOver};
ghost use Rattle.species_depend.specs.Refuted.{IsTestable, IsSubscriptOver, FormsRuleOut, RulesOut, SomeRulesOut, IsRefuted};

use species_affine::Subscript;
use species_banerjee::{excluded, region_empty};
use species_gcd::divides;
use species_linear::{Direction, Form, LoopRange};
use species_references::Reference;

/// Whether two forms of one dimension rule a pair out.
fn forms_rule_out(
    f: &Form,
    g: &Form,
    at: &Direction,
    p_path: &[LoopRange],
    q_path: &[LoopRange],
) -> bool
    requires loops { ShareLoops at.now p_path.now q_path.now }
    requires first_path { IsSmallPath p_path.now }
    requires second_path { IsSmallPath q_path.now }
    requires first_form { IsFormOver p_path.now f.now }
    requires second_form { IsFormOver q_path.now g.now }
    ensures { IsTrue result ↔ FormsRuleOut at.now p_path.now q_path.now f.now g.now }
{
    if divides(f, g, at, p_path, q_path) {
        excluded(f, g, at, p_path, q_path)
    } else {
        true
    }
}

/// Whether two subscripts of one dimension rule a pair out.
fn rules_out(
    p: &Subscript,
    q: &Subscript,
    at: &Direction,
    p_path: &[LoopRange],
    q_path: &[LoopRange],
) -> bool
    requires loops { ShareLoops at.now p_path.now q_path.now }
    requires first_path { IsSmallPath p_path.now }
    requires second_path { IsSmallPath q_path.now }
    requires first_form { IsSubscriptOver p_path.now p.now }
    requires second_form { IsSubscriptOver q_path.now q.now }
    ensures { IsTrue result ↔ RulesOut at.now p_path.now q_path.now p.now q.now }
{
    match p {
        Subscript::Affine(f) => match q {
            Subscript::Affine(g) => forms_rule_out(f, g, at, p_path, q_path),
            Subscript::Other => false,
        },
        Subscript::Other => false,
    }
}

/// Whether one dimension rules a pair out. Past the last one there are no forms.
fn dimension_rules_out(p: &Reference, q: &Reference, at: &Direction, dimension: usize) -> bool
    requires { IsTestable at.now p.now q.now }
    ensures { IsTrue result ↔ RulesOut at.now p.now.path q.now.path (slice_index_or p.now.subs dimension Other) (slice_index_or q.now.subs dimension Other) }
{
    let first = p.subs.as_slice();
    let second = q.subs.as_slice();
    if dimension < first.len() {
        if dimension < second.len() {
            rules_out(
                &first[dimension],
                &second[dimension],
                at,
                p.path.as_slice(),
                q.path.as_slice(),
            )
        } else {
            false
        }
    } else {
        false
    }
}

/// Whether some dimension rules a pair out.
fn some_rules_out(p: &Reference, q: &Reference, at: &Direction) -> bool
    requires { IsTestable at.now p.now q.now }
    ensures { IsTrue result ↔ SomeRulesOut at.now p.now.path q.now.path p.now.subs q.now.subs }
{
    for dimension in 0..p.subs.len() {
        if dimension_rules_out(p, q, at, dimension) {
            return true;
        }
    }
    false
}

/// Whether the tests refute a pair of references to one array in the direction: no two iterations that
/// differ as it says touch one place with them.
pub fn refuted(p: &Reference, q: &Reference, at: &Direction) -> bool
    requires { IsTestable at.now p.now q.now }
    ensures { IsTrue result ↔ IsRefuted at.now p.now q.now }
{
    some_rules_out(p, q, at) || region_empty(at, p.path.as_slice(), q.path.as_slice())
}
