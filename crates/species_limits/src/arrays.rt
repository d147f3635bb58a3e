//! What is refused of the arrays of a unit.

ghost use Rattle.std.specs.Prelude.{◌≡◌, true, nat_le};
ghost use Rattle.std.specs.List.{list_all};
ghost use Rattle.species_ast.specs.Evaluation.{product};
ghost use Rattle.species_ast.specs.Scope.Limits.{most_elements, has_lawful_sizes};
ghost use Rattle.species_names.specs.Kept.{kept};
ghost use Rattle.species_limits.specs.Found.{array_found, arrays_found};

use species_ast::Array;
use species_names::{Findings, Limit, Refusal};

const MOST_DIMENSIONS: usize = 4;

const MOST_ELEMENTS: u64 = 16777216;

/// Notes what is refused of arrays, each at the place of its name.
#[tactic(auto, using(crate::proofs::ArrayFindings::places_done, crate::proofs::ArrayFindings::arrays_done))]
pub fn note_arrays(arrays: &[Array], places: &[u32], limits: &mut Findings)
    ensures { limits.new ≡ kept limits.old (arrays_found arrays.now places.now) }
{
    let mut i = 0;
    for array in arrays {
        if i >= places.len() {
            return;
        }
        note_array(array, places[i], limits);
        i += 1;
    }
}

fn note_array(array: &Array, place: u32, limits: &mut Findings)
    ensures { limits.new ≡ kept limits.old (array_found array.now place) }
{
    let many = array.dims.as_slice().len() > MOST_DIMENSIONS;
    let lawful = are_lawful(array);
    limits.note_if(many, Refusal::LimitPassed(Limit::Dims), place);
    limits.note_if(!lawful, Refusal::LimitPassed(Limit::Elements), place);
}

/// Whether the sizes are at least 1, and the elements not too many.
fn are_lawful(array: &Array) -> bool
    ensures { result ≡ has_lawful_sizes array.now }
{
    let sizes = array.dims.as_slice();
    has_no_zero(sizes) && is_product_within(sizes)
}

fn has_no_zero(sizes: &[u32]) -> bool
    ensures { result ≡ list_all (nat_le 1) sizes.now }
{
    sizes.iter().all(|size| 1 <= *size)
}

/// Whether an array of these sizes, none of which is 0, has no more elements than may be.
fn is_product_within(sizes: &[u32]) -> bool
    ensures { list_all (nat_le 1) sizes.now ≡ true → result ≡ nat_le (product sizes.now) most_elements }
{
    let mut elements = 1u64;
    for size in sizes {
        elements *= u64::from(*size);
        if elements > MOST_ELEMENTS {
            return false;
        }
    }
    true
}
