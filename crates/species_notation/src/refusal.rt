//! Why a text is not read.
use std::alloc::{AllocError, AllocFailed};

/// Why a text is not read.
#[derive(Clone, Copy, Debug, PartialEq, Eq)]
pub enum NotationRefusal {
    /// It is not that of a line.
    Syntax,
    /// Memory ran out.
    Memory,
}

impl From<AllocError> for NotationRefusal {
    ghost use Rattle.std.specs.Prelude.{◌≡◌};
    ghost use Rattle.species_notation.specs.declared.refusal.NotationRefusal.TheVariants.{Memory};

    ghost from_gives = { λ _ e. e ≡ Memory };

    fn from(_: AllocError) -> NotationRefusal {
        NotationRefusal::Memory
    }
}

impl<T: Drop> From<AllocFailed<T>> for NotationRefusal {
    ghost use Rattle.std.specs.Prelude.{◌≡◌};
    ghost use Rattle.species_notation.specs.declared.refusal.NotationRefusal.TheVariants.{Memory};

    ghost from_gives = { λ _ e. e ≡ Memory };

    fn from(_: AllocFailed<T>) -> NotationRefusal {
        NotationRefusal::Memory
    }
}
