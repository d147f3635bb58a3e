//! Programs: the unit that one becomes, or the refusal that is reported.

ghost use Rattle.std.specs.Prelude.{◌≡◌, [], true, map, IfOk};
ghost use Rattle.std.specs.Option.{option_map};
ghost use Rattle.species_ast.specs.declared.raw.RawUnit.{RawUnit};
ghost use Rattle.species_ast.specs.Scope.Programs.{program_of};
ghost use Rattle.species_ast.specs.Scope.Conditions as conditions;
ghost use Rattle.species_ast.specs.Scope.Conditions.{refused_references};
ghost use Rattle.species_ast.specs.Scope.Loops.{no_loops};
ghost use Rattle.species_ast.specs.Scope.Refusals.{first_in, first_of_groups};
ghost use Rattle.species_ast.specs.Scope.References.{HasReadSize};
ghost use Rattle.species_ast.specs.Scope.WellMade.{IsWellMade};
ghost use Rattle.species_ast.specs.Scope.WellMade as well_made;
ghost use Rattle.species_ast.specs.Scope.Written.{IsWritten};
ghost use Rattle.species_lawful.specs.Walks.{taken_in};
ghost use Rattle.species_names.specs.Refused.{finding_seen};
ghost use Rattle.species_scope.specs.Answers.{Answers};
ghost use Rattle.species_scope.specs.Whole.{no_heads, heads_of, whole_of, unit_groups, form_groups};

use crate::builder::Builder;
use crate::gathers::gather_all;
use crate::globals::{Heads, note_declared, read_items};
use crate::references::note_references;
use crate::refusal::{ScopeRefusal, refusal_of};
use crate::statements::statements;
use species_ast::{Includes, Name, OutOfMemory, RawUnit, Unit};
use species_limits::first_limit;
use species_names::{Finding, Findings, Iterators, Meaning, Place};
use sqlite_items::Items;
use std::alloc::Global;

/// What is built of a program.
#[derive(Drop)]
pub(crate) struct Built {
    pub(crate) unit: Unit,
    /// The places of the arrays' names.
    pub(crate) places: Items<u32>,
    pub(crate) found: Findings,
    pub(crate) forms: Findings,
}

/// Nothing yet, where these locals are the iterators of loops.
fn no_heads<'a>(alloc: Global, taken: &[u32]) -> Result<Heads<'a>, OutOfMemory>
    ensures { IfOk result (λ h. h ≡ no_heads taken.now) }
{
    let iterators = Iterators::new(alloc, taken)?;
    Ok(Heads {
        builder: Builder {
            place: Place::new(alloc, iterators),
            found: Findings::new(),
            forms: Findings::new(),
            locals: Items::new(alloc),
        },
        includes: Includes::new(alloc),
        arrays: Items::new(alloc),
        places: Items::new(alloc),
    })
}

/// What stands before the body, where these locals are the iterators of loops.
fn read_heads<'a>(alloc: Global, raw: &RawUnit<'a>, taken: &[u32]) -> Result<Heads<'a>, OutOfMemory>
    ensures { IfOk result (λ h. h ≡ heads_of raw.now taken.now) }
{
    let mut heads = no_heads(alloc, taken)?;
    read_items(alloc, raw.items.as_slice(), &mut heads)?;
    note_declared(&raw.function, &mut heads.builder);
    heads
        .builder
        .place
        .declare(&raw.function, Meaning::Function)?;
    Ok(heads)
}

/// The locals that loops without `int` have as their iterators.
#[tactic(auto, using(crate::proofs::WholeLaws::all_taken))]
fn iterators_in(alloc: Global, raw: &RawUnit) -> Result<Items<u32>, OutOfMemory>
    ensures { IfOk result (λ its. its ≡ taken_in raw.now) }
{
    let mut heads = read_heads(alloc, raw, &[])?;
    let mut taken = Items::new(alloc);
    gather_all(raw.body.as_slice(), &mut heads.builder.place, &mut taken)?;
    Ok(taken)
}

/// What a program becomes, where these locals are the iterators of loops.
fn build(alloc: Global, raw: &RawUnit, taken: &[u32]) -> Result<Built, OutOfMemory>
    ensures { IfOk result (λ b. b ≡ whole_of raw.now taken.now) }
{
    let mut heads = read_heads(alloc, raw, taken)?;
    let mut body = Items::new(alloc);
    statements(alloc, raw.body.as_slice(), &mut heads.builder, &mut body)?;
    let function = Name::new(alloc, raw.function.text)?;
    let Heads {
        builder,
        includes,
        arrays,
        places,
    } = heads;
    let Builder {
        found,
        forms,
        locals,
        ..
    } = builder;
    Ok(Built {
        unit: Unit {
            includes,
            arrays,
            locals,
            function,
            body,
        },
        places,
        found,
        forms,
    })
}

/// The refusal that is reported of array references, where the loops keep the other limits.
fn refusal_of_references(alloc: Global, unit: &Unit) -> Result<Option<Finding>, OutOfMemory>
    ensures { well_made.list_keeps (map well_made.made unit.now.body) no_loops ≡ true → IfOk result (λ f. option_map finding_seen f ≡ first_in (refused_references unit.now)) }
{
    let mut references = Findings::new();
    note_references(alloc, unit, &mut references)?;
    Ok(references.first())
}

/// The refusal that is reported of limits and marks, and where there is none, of references.
fn refusal_of_unit(alloc: Global, built: &Built) -> Result<Option<Finding>, OutOfMemory>
    ensures { (u : RawUnit) → built.now ≡ whole_of u (taken_in u) → IfOk result (λ f. option_map finding_seen f ≡ first_of_groups (unit_groups (program_of u))) }
{
    match first_limit(alloc, &built.unit, built.places.as_slice())? {
        Some(first) => Ok(Some(first)),
        None => {
            let found = refusal_of_references(alloc, &built.unit)?;
            Ok(found)
        }
    }
}

/// The refusal that is reported of bounds, sizes and steps, and where there is none, of what follows.
fn refusal_of_forms(alloc: Global, built: &Built) -> Result<Option<Finding>, OutOfMemory>
    ensures { (u : RawUnit) → built.now ≡ whole_of u (taken_in u) → IfOk result (λ f. option_map finding_seen f ≡ first_of_groups (form_groups (program_of u))) }
{
    match built.forms.first() {
        Some(first) => Ok(Some(first)),
        None => {
            let found = refusal_of_unit(alloc, built)?;
            Ok(found)
        }
    }
}

/// The refusal that is reported: names are looked at first, then bounds, sizes and steps, then limits and marks, and then
/// references.
fn first_refusal(alloc: Global, built: &Built) -> Result<Option<Finding>, OutOfMemory>
    ensures { (u : RawUnit) → built.now ≡ whole_of u (taken_in u) → IfOk result (λ f. option_map finding_seen f ≡ conditions.refusal_of (program_of u)) }
{
    match built.found.first() {
        Some(first) => Ok(Some(first)),
        None => {
            let found = refusal_of_forms(alloc, built)?;
            Ok(found)
        }
    }
}

/// The unit of a lawful program, or the refusal of any other that is reported: that of the first group that has one, which is
/// names, then bounds, sizes and steps, then limits and marks, then array references; of a group that at the least place, and
/// there that of the least number.
pub fn resolve(alloc: Global, raw: &RawUnit) -> Result<Unit, ScopeRefusal>
    requires { IsWritten raw.now }
    ensures answers { Answers result (conditions.resolved raw.now) }
    ensures made { IfOk result IsWellMade }
    ensures size { IfOk result HasReadSize }
{
    let taken = iterators_in(alloc, raw)?;
    let built = build(alloc, raw, taken.as_slice())?;
    match first_refusal(alloc, &built)? {
        Some(finding) => Err(refusal_of(finding)),
        None => Ok(built.unit),
    }
}
