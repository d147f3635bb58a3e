//! Lines as they are read, and the names that they are read with.

use species_arcs::Dir;
use species_ast::Name;
use species_linear::Form;
use sqlite_items::Items;

/// The names of a program's arrays by number, of the iterators in force by level, and of its locals by
/// number.
#[derive(Debug, Drop)]
pub struct Names {
    pub arrays: Items<Name>,
    pub iters: Items<Name>,
    pub locals: Items<Name>,
}

/// One dimension of a given arc.
#[derive(Debug, Drop)]
pub struct GivenDim {
    pub at: Form,
    pub a: i128,
    pub b: i128,
    pub stride: u128,
}

/// An arc as a line gives it.
#[derive(Debug, Drop)]
pub struct GivenArc {
    /// The number of the array, if there is one of this name.
    pub array: Option<u32>,
    pub dir: Dir,
    pub dims: Items<GivenDim>,
    pub exact: bool,
    /// Whether each name after `at` is that of an iterator.
    pub known: bool,
}

/// A line that was read. A sequential line has no arcs.
#[derive(Debug, Drop)]
pub struct SpeciesLine {
    pub arcs: Items<GivenArc>,
}
