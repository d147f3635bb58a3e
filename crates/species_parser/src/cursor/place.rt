//! The place where the tokens go on.
ghost use Rattle.std.specs.Prelude.{◌≡◌};
ghost use Rattle.species_parser.specs.Finished.{next_place};

use super::Cursor;

impl<'t, 'a> Cursor<'t, 'a> {
    /// The place of the next token, or none at the end of the program.
    pub(crate) fn place(&self) -> Option<u32>
        ensures { result ≡ next_place self.now }
    {
        match self.first {
            Some(first) => Some(first.place),
            None => None,
        }
    }
}
