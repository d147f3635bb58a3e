//! Why a program is refused.

ghost use Rattle.std.specs.Prelude.{◌≡◌, Some};
ghost use Rattle.species_names.specs.Refused.{finding_seen};
ghost use Rattle.species_scope.specs.Answers.{finding_of};

use species_ast::OutOfMemory;
use species_names::{Finding, Limit, Refusal};
use thiserror::Error;

/// Why a program is refused. A place is a byte offset into it.
#[derive(Clone, Copy, Debug, PartialEq, Eq, Error)]
pub enum ScopeRefusal {
    /// A name is used that has no declaration in scope.
    #[error("byte {0}: unknown name")]
    Unknown(u32),
    /// A name is declared where it already has a meaning.
    #[error("byte {0}: the name is declared already")]
    Duplicate(u32),
    /// A name has another number of subscripts than it takes.
    #[error("byte {0}: wrong number of subscripts")]
    DimensionCount(u32),
    /// An iterator is assigned to in its loop, or a loop has a name that cannot be its iterator.
    #[error("byte {0}: assignment to an iterator")]
    IteratorAssigned(u32),
    /// A local that is the iterator of a loop is used outside such loops.
    #[error("byte {0}: an iterator outside of its loop")]
    IteratorOutside(u32),
    /// A bound is not affine, or a size is no constant.
    #[error("byte {0}: not a constant or affine expression")]
    NotStatic(u32),
    /// The header of a loop has two variables, or a step that is no constant or goes the wrong way.
    #[error("byte {0}: not a step of a counted loop")]
    BadStep(u32),
    /// A parallel mark stands in a parallel nest or does not fit its loops.
    #[error("byte {0}: the parallel mark does not fit")]
    BadMark(u32),
    /// A limit is passed.
    #[error("byte {1}: past the limit")]
    Limit(Limit, u32),
    /// Memory ran out.
    #[error("out of memory")]
    Memory,
}

impl From<OutOfMemory> for ScopeRefusal {
    ghost use Rattle.std.specs.Prelude.{◌≡◌};
    ghost use Rattle.species_scope.specs.declared.refusal.ScopeRefusal.TheVariants.{Memory};

    ghost from_gives = { λ _ e. e ≡ Memory };

    fn from(_: OutOfMemory) -> ScopeRefusal {
        ScopeRefusal::Memory
    }
}

/// The refusal of a finding.
pub(crate) fn refusal_of(finding: Finding) -> ScopeRefusal
    ensures { finding_of result ≡ Some (finding_seen finding) }
{
    let place = finding.place;
    match finding.refusal {
        Refusal::Unknown => ScopeRefusal::Unknown(place),
        Refusal::Duplicate => ScopeRefusal::Duplicate(place),
        Refusal::DimensionCount => ScopeRefusal::DimensionCount(place),
        Refusal::IteratorAssigned => ScopeRefusal::IteratorAssigned(place),
        Refusal::IteratorOutside => ScopeRefusal::IteratorOutside(place),
        Refusal::NotStatic => ScopeRefusal::NotStatic(place),
        Refusal::BadStep => ScopeRefusal::BadStep(place),
        Refusal::LimitPassed(limit) => ScopeRefusal::Limit(limit, place),
        Refusal::BadMark => ScopeRefusal::BadMark(place),
    }
}
