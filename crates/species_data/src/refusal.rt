//! Why a text is no data.

use species_ast::OutOfMemory;
use std::alloc::{AllocError, AllocFailed};

/// Why a text is no data of a program's arrays.
#[derive(Clone, Copy, Debug, PartialEq, Eq)]
pub enum DataRefusal {
    /// At this place something else is wanted.
    Syntax(u32),
    Memory,
}

impl From<AllocError> for DataRefusal {
    ghost use Rattle.std.specs.Prelude.{◌≡◌};
    ghost use Rattle.species_data.specs.declared.refusal.DataRefusal.TheVariants.{Memory};

    ghost from_gives = { λ _ e. e ≡ Memory };

    fn from(_: AllocError) -> DataRefusal {
        DataRefusal::Memory
    }
}

impl<T: Drop> From<AllocFailed<T>> for DataRefusal {
    ghost use Rattle.std.specs.Prelude.{◌≡◌};
    ghost use Rattle.species_data.specs.declared.refusal.DataRefusal.TheVariants.{Memory};

    ghost from_gives = { λ _ e. e ≡ Memory };

    fn from(_: AllocFailed<T>) -> DataRefusal {
        DataRefusal::Memory
    }
}

impl From<OutOfMemory> for DataRefusal {
    ghost use Rattle.std.specs.Prelude.{◌≡◌};
    ghost use Rattle.species_data.specs.declared.refusal.DataRefusal.TheVariants.{Memory};

    ghost from_gives = { λ _ e. e ≡ Memory };

    fn from(_: OutOfMemory) -> DataRefusal {
        DataRefusal::Memory
    }
}
