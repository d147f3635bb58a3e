//! References kept by array.

ghost use Rattle.std.specs.Prelude.{◌≡◌, ◌↔◌, IfOk, IsTrue};
ghost use Rattle.species_references.specs.Groups.{places_of, HasGroup, AreGroups};

use crate::nest::Reference;
use species_ast::OutOfMemory;
use std::alloc::Global;
use std::marker::Model;

/// The places of the references to one array.
#[derive(Debug, Drop)]
pub(crate) struct ArrayPlaces {
    array: u32,
    places: Vec<usize>,
}

/// References, kept by array.
#[derive(Drop)]
pub struct Grouped {
    list: Vec<Reference>,
    groups: Vec<ArrayPlaces>,
}

impl Model for Grouped {
    ghost use Rattle.std.specs.Prelude.{List};
    ghost use Rattle.species_references.specs.declared.nest.Reference.{Reference};
    ghost use Rattle.species_references.specs.Groups.{AreGroups};

    ghost Value = { List Reference };

    ghost view = { λ g. g.list.items };

    ghost invariant = { λ g. AreGroups g.list.items g.groups.items };
}

impl Grouped {
    /// The references in their order.
    pub fn as_slice(&self) -> &[Reference]
        ensures { result.now ≡ self.now }
    {
        self.list.as_slice()
    }

    /// The places in the list of the references to an array, in rising order.
    pub fn places_of(&self, array: u32) -> &[usize]
        ensures { result.now ≡ places_of array self.now }
    {
        for group in self.groups.as_slice() {
            if group.array == array {
                return group.places.as_slice();
            }
        }
        &[]
    }
}

/// The references, kept by array. They are dropped where memory runs out.
pub fn group(alloc: Global, refs: Vec<Reference>) -> Result<Grouped, OutOfMemory>
    ensures { IfOk result (λ grouped. grouped ≡ refs.items) }
{
    let groups = groups_of(alloc, refs.as_slice())?;
    Ok(Grouped { list: refs, groups })
}

/// The groups of references.
fn groups_of(alloc: Global, refs: &[Reference]) -> Result<Vec<ArrayPlaces>, OutOfMemory>
    ensures { IfOk result (λ groups. AreGroups refs.now groups.items) }
{
    let mut groups = Vec::new(alloc);
    for reference in refs {
        let array = reference.array;
        if has_group(groups.as_slice(), array) {
            continue;
        }
        let places = places_of(alloc, refs, array)?;
        groups.push(ArrayPlaces { array, places })?;
    }
    Ok(groups)
}

fn has_group(groups: &[ArrayPlaces], array: u32) -> bool
    ensures { IsTrue result ↔ HasGroup groups.now array }
{
    for group in groups {
        if group.array == array {
            return true;
        }
    }
    false
}

/// The places of the references to an array.
fn places_of(alloc: Global, refs: &[Reference], array: u32) -> Result<Vec<usize>, OutOfMemory>
    ensures { IfOk result (λ places. places.items ≡ places_of array refs.now) }
{
    let mut places = Vec::new(alloc);
    for (place, reference) in refs.iter().enumerate() {
        if reference.array == array {
            places.push(place)?;
        }
    }
    Ok(places)
}
