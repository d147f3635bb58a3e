//! Why a text was not read.
use species_ast::LexRefusal;
use std::alloc::{AllocError, AllocFailed};
use thiserror::Error;

/// Why a text was not read. A place is a byte offset into it.
#[derive(Clone, Copy, Debug, PartialEq, Eq, Error)]
pub enum ReadRefusal {
    /// The text has no tokens from some place on.
    #[error("not a token of the language")]
    Lex(LexRefusal),
    /// With the token that stands here an unfinished statement, and the lists around it, have more
    /// than 2,000 tokens.
    #[error("byte {0}: the statement around it is too large")]
    Load(u32),
    /// The first token with which no program goes on, or the length of the text where it ends too
    /// early.
    #[error("byte {0}: syntax error")]
    Syntax(u32),
    /// Memory ran out.
    #[error("out of memory")]
    Memory,
}

impl From<LexRefusal> for ReadRefusal {
    ghost use Rattle.std.specs.Prelude.{◌≡◌};
    ghost use Rattle.species_parser.specs.declared.refusal.ReadRefusal.TheVariants.{Lex};

    ghost from_gives = { λ r e. e ≡ Lex r };

    fn from(refusal: LexRefusal) -> ReadRefusal {
        ReadRefusal::Lex(refusal)
    }
}

impl From<AllocError> for ReadRefusal {
    ghost use Rattle.std.specs.Prelude.{◌≡◌};
    ghost use Rattle.species_parser.specs.declared.refusal.ReadRefusal.TheVariants.{Memory};

    ghost from_gives = { λ _ e. e ≡ Memory };

    fn from(_: AllocError) -> ReadRefusal {
        ReadRefusal::Memory
    }
}

impl<T: Drop> From<AllocFailed<T>> for ReadRefusal {
    ghost use Rattle.std.specs.Prelude.{◌≡◌};
    ghost use Rattle.species_parser.specs.declared.refusal.ReadRefusal.TheVariants.{Memory};

    ghost from_gives = { λ _ e. e ≡ Memory };

    fn from(_: AllocFailed<T>) -> ReadRefusal {
        ReadRefusal::Memory
    }
}

/// Why a program was not read from the table of its tokens. A place is a byte offset into it.
#[derive(Clone, Copy, Debug, PartialEq, Eq, Error)]
pub enum TableRefusal {
    /// With the token that stands here an unfinished statement, and the lists around it, have more
    /// than 2,000 tokens.
    #[error("byte {0}: the statement around it is too large")]
    Load(u32),
    /// The first token with which no program goes on, or the length of the program where it ends
    /// too early.
    #[error("byte {0}: syntax error")]
    Syntax(u32),
    /// Memory ran out.
    #[error("out of memory")]
    Memory,
}

impl From<AllocError> for TableRefusal {
    ghost use Rattle.std.specs.Prelude.{◌≡◌};
    ghost use Rattle.species_parser.specs.declared.refusal.TableRefusal.TheVariants.{Memory};

    ghost from_gives = { λ _ e. e ≡ Memory };

    fn from(_: AllocError) -> TableRefusal {
        TableRefusal::Memory
    }
}

impl From<TableRefusal> for ReadRefusal {
    ghost use Rattle.std.specs.Prelude.{◌≡◌};
    ghost use Rattle.species_parser.specs.Tabled.{of_text};

    ghost from_gives = { λ r e. e ≡ of_text r };

    fn from(refusal: TableRefusal) -> ReadRefusal {
        match refusal {
            TableRefusal::Load(place) => ReadRefusal::Load(place),
            TableRefusal::Syntax(place) => ReadRefusal::Syntax(place),
            TableRefusal::Memory => ReadRefusal::Memory,
        }
    }
}
