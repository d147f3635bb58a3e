//! Refusals with their places, and their order.

ghost use Rattle.std.specs.Prelude.{◌≡◌};
ghost use Rattle.species_ast.specs.Scope.Refusals.{number, rank, is_before, is_earlier};
ghost use Rattle.species_names.specs.Refused.{refusal_seen, finding_seen};

/// The limits that a program may pass.
#[derive(Clone, Copy, Debug, PartialEq, Eq)]
pub enum Limit {
    Loops,
    Dims,
    Elements,
    References,
    Hull,
    Step,
    Bound,
}

#[derive(Clone, Copy, Debug, PartialEq, Eq)]
pub enum Refusal {
    Unknown,
    Duplicate,
    DimensionCount,
    IteratorAssigned,
    IteratorOutside,
    NotStatic,
    BadStep,
    LimitPassed(Limit),
    BadMark,
}

/// A refusal and its place.
#[derive(Clone, Copy, Debug, PartialEq, Eq)]
pub struct Finding {
    pub refusal: Refusal,
    pub place: u32,
}

impl Refusal {
    fn number(self) -> u32
        ensures { result ≡ number (refusal_seen self) }
    {
        match self {
            Refusal::Unknown => 5,
            Refusal::Duplicate => 6,
            Refusal::DimensionCount => 7,
            Refusal::IteratorAssigned => 8,
            Refusal::IteratorOutside => 9,
            Refusal::NotStatic => 10,
            Refusal::BadStep => 11,
            Refusal::LimitPassed(_) => 12,
            Refusal::BadMark => 13,
        }
    }

    fn rank(self) -> u32
        ensures { result ≡ rank (refusal_seen self) }
    {
        match self {
            Refusal::LimitPassed(Limit::Loops) => 0,
            Refusal::LimitPassed(Limit::Dims) => 1,
            Refusal::LimitPassed(Limit::Elements) => 2,
            Refusal::LimitPassed(Limit::References) => 3,
            Refusal::LimitPassed(Limit::Hull) => 4,
            Refusal::LimitPassed(Limit::Step) => 5,
            Refusal::LimitPassed(Limit::Bound) => 6,
            Refusal::Unknown => 0,
            Refusal::Duplicate => 0,
            Refusal::DimensionCount => 0,
            Refusal::IteratorAssigned => 0,
            Refusal::IteratorOutside => 0,
            Refusal::NotStatic => 0,
            Refusal::BadStep => 0,
            Refusal::BadMark => 0,
        }
    }

    fn is_before(self, other: Refusal) -> bool
        ensures { result ≡ is_before (refusal_seen self) (refusal_seen other) }
    {
        let (a, b) = (self.number(), other.number());
        let (c, d) = (self.rank(), other.rank());
        a < b || a == b && c < d
    }
}

impl Finding {
    pub fn is_earlier(&self, other: &Finding) -> bool
        ensures { result ≡ is_earlier (finding_seen self.now) (finding_seen other.now) }
    {
        let before = self.refusal.is_before(other.refusal);
        self.place < other.place || self.place == other.place && before
    }
}
