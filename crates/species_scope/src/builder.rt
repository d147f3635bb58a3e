//! What is known of a program before a place in it.

use species_ast::LocalInfo;
use species_names::{Findings, Place};
use sqlite_items::Items;

/// What the names mean at a place, and of all that stands before it: the finding that is reported of its names and that of
/// its bounds, sizes and steps, and the locals that keep their declaration.
#[derive(Drop)]
pub(crate) struct Builder<'a> {
    pub(crate) place: Place<'a>,
    pub(crate) found: Findings,
    pub(crate) forms: Findings,
    pub(crate) locals: Items<LocalInfo>,
}
