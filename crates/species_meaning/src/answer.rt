use species_ast::{OutOfMemory, Trap};

/// Why a run gives no arrays.
#[derive(Clone, Copy, Debug, PartialEq, Eq)]
pub enum RunAnswer {
    /// The program is undefined: why, and the place of the statement.
    Undefined(Trap, u32),
    /// There was not enough memory.
    Memory,
}

impl From<OutOfMemory> for RunAnswer {
    ghost use Rattle.std.specs.Prelude.{◌≡◌};
    ghost use Rattle.species_meaning.specs.declared.answer.RunAnswer.TheVariants.{Memory};

    ghost from_gives = { λ _ e. e ≡ Memory };

    fn from(_: OutOfMemory) -> RunAnswer {
        RunAnswer::Memory
    }
}
