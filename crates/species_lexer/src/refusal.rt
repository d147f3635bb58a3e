//! Why a text that came in pieces has no table of tokens.
use species_ast::{LexRefusal, OutOfMemory};
use std::alloc::AllocError;
use thiserror::Error;

/// Why a text that came in pieces has no table of tokens.
#[derive(Clone, Copy, Debug, PartialEq, Eq, Error)]
pub enum CutRefusal {
    /// The text has no tokens from some place on.
    #[error("not a token of the language")]
    Lex(LexRefusal),
    /// Memory ran out.
    #[error("out of memory")]
    Memory,
}

impl From<OutOfMemory> for CutRefusal {
    ghost use Rattle.std.specs.Prelude.{◌≡◌};
    ghost use Rattle.species_lexer.specs.declared.refusal.CutRefusal.TheVariants.{Memory};

    ghost from_gives = { λ _ e. e ≡ Memory };

    fn from(_: OutOfMemory) -> CutRefusal {
        CutRefusal::Memory
    }
}

impl From<AllocError> for CutRefusal {
    ghost use Rattle.std.specs.Prelude.{◌≡◌};
    ghost use Rattle.species_lexer.specs.declared.refusal.CutRefusal.TheVariants.{Memory};

    ghost from_gives = { λ _ e. e ≡ Memory };

    fn from(_: AllocError) -> CutRefusal {
        CutRefusal::Memory
    }
}
