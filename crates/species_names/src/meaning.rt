//! What a name can mean.

use species_ast::Kind;

/// A local variable: its number among all that are declared.
#[derive(Clone, Copy, Debug, PartialEq, Eq)]
pub struct Local {
    pub serial: u32,
    pub kind: Kind,
    pub initialised: bool,
}

/// What a name means.
#[derive(Clone, Copy, Debug, PartialEq, Eq)]
pub enum Meaning {
    Array(u32, u32),
    Variable(Local),
    Iterator(u32),
    Function,
}
