//! Why a program is not read.

ghost use Rattle.std.specs.Prelude.{◌≡◌};
ghost use Rattle.species_parser.specs.Tabled as tabled;
ghost use Rattle.species_reading.specs.Refusals as refusals;

use species_lexer::CutRefusal;
use species_parser::{ReadRefusal, TableRefusal};
use species_scope::ScopeRefusal;
use thiserror::Error;

/// Why a program is not read.
#[derive(Clone, Copy, Debug, PartialEq, Eq, Error)]
pub enum ProgramRefusal {
    /// Its text is refused.
    #[error("the text is refused")]
    Read(ReadRefusal),
    /// Its names, forms or limits are refused.
    #[error("the program is refused")]
    Scope(ScopeRefusal),
    /// Memory ran out.
    #[error("out of memory")]
    Memory,
}

/// Why a program is not read from a source.
#[derive(Clone, Copy, Debug, PartialEq, Eq, Error)]
pub enum InputRefusal {
    #[error("a read failed")]
    ReadFault,
    #[error("the input is longer than the limit")]
    TooLong,
    /// The bytes of the source are refused.
    #[error("the program is refused")]
    Program(ProgramRefusal),
    /// Memory ran out.
    #[error("out of memory")]
    Memory,
}

/// A refusal of a text.
pub(crate) fn of_text(refusal: ReadRefusal) -> ProgramRefusal
    ensures { result ≡ refusals.of_text refusal }
{
    match refusal {
        ReadRefusal::Lex(r) => ProgramRefusal::Read(ReadRefusal::Lex(r)),
        ReadRefusal::Load(place) => ProgramRefusal::Read(ReadRefusal::Load(place)),
        ReadRefusal::Syntax(place) => ProgramRefusal::Read(ReadRefusal::Syntax(place)),
        ReadRefusal::Memory => ProgramRefusal::Memory,
    }
}

/// A refusal of a text that is cut.
pub(crate) fn of_cut(refusal: CutRefusal) -> ProgramRefusal
    ensures { result ≡ refusals.of_cut refusal }
{
    match refusal {
        CutRefusal::Lex(r) => ProgramRefusal::Read(ReadRefusal::Lex(r)),
        CutRefusal::Memory => ProgramRefusal::Memory,
    }
}

/// A refusal of the tokens of a text.
pub(crate) fn of_table(refusal: TableRefusal) -> ProgramRefusal
    ensures { result ≡ refusals.of_text (tabled.of_text refusal) }
{
    match refusal {
        TableRefusal::Load(place) => ProgramRefusal::Read(ReadRefusal::Load(place)),
        TableRefusal::Syntax(place) => ProgramRefusal::Read(ReadRefusal::Syntax(place)),
        TableRefusal::Memory => ProgramRefusal::Memory,
    }
}

/// A refusal of names, forms or limits.
pub(crate) fn of_scope(refusal: ScopeRefusal) -> ProgramRefusal
    ensures { result ≡ refusals.of_scope refusal }
{
    match refusal {
        ScopeRefusal::Unknown(p) => ProgramRefusal::Scope(ScopeRefusal::Unknown(p)),
        ScopeRefusal::Duplicate(p) => ProgramRefusal::Scope(ScopeRefusal::Duplicate(p)),
        ScopeRefusal::DimensionCount(p) => ProgramRefusal::Scope(ScopeRefusal::DimensionCount(p)),
        ScopeRefusal::IteratorAssigned(p) => {
            ProgramRefusal::Scope(ScopeRefusal::IteratorAssigned(p))
        }
        ScopeRefusal::IteratorOutside(p) => ProgramRefusal::Scope(ScopeRefusal::IteratorOutside(p)),
        ScopeRefusal::NotStatic(p) => ProgramRefusal::Scope(ScopeRefusal::NotStatic(p)),
        ScopeRefusal::BadStep(p) => ProgramRefusal::Scope(ScopeRefusal::BadStep(p)),
        ScopeRefusal::BadMark(p) => ProgramRefusal::Scope(ScopeRefusal::BadMark(p)),
        ScopeRefusal::Limit(limit, p) => ProgramRefusal::Scope(ScopeRefusal::Limit(limit, p)),
        ScopeRefusal::Memory => ProgramRefusal::Memory,
    }
}
