//! What is refused of names, and what is kept of it.

ghost use Rattle.std.specs.Prelude.{◌≡◌, ℕ, None, Some, [], ◌∷◌};
ghost use Rattle.std.specs.Option.{option_map};
ghost use Rattle.species_ast.specs.Scope.Conditions as conditions;
ghost use Rattle.species_ast.specs.Spelling.{Spelling};
ghost use Rattle.species_ast.specs.Scope.Meanings.{Assigned, InHeader};
ghost use Rattle.species_names.specs.Seen.{seen};
ghost use Rattle.species_names.specs.Refused.{refusal_seen, finding_seen};
ghost use Rattle.species_names.specs.Kept.{sooner, kept, refused_if};
ghost use Rattle.species_names.specs.Noted.{noted, name_seen};

use crate::finding::{Finding, Refusal};
use crate::iterators::Iterators;
use crate::meaning::{Local, Meaning};
use species_ast::{Kind, RawName};
use std::marker::Model;

/// What a name is used for where it stands.
#[derive(Clone, Copy, Debug, PartialEq, Eq)]
pub enum Role {
    Declared,
    Taken(usize),
    Assigned(usize),
    Iterates,
    InHeader,
}

/// The finding so far that is reported.
#[derive(Drop)]
pub struct Findings {
    first: Option<Finding>,
}

impl Model for Findings {
    ghost use Rattle.std.specs.Prelude.{Option};
    ghost use Rattle.std.specs.Option.{option_map};
    ghost use Rattle.species_ast.specs.Scope.Refusals.{Finding};
    ghost use Rattle.species_names.specs.Refused.{finding_seen};

    ghost Value = { Option Finding };

    ghost view = { λ all. option_map finding_seen all.first };
}

impl Findings {
    pub fn new() -> Findings
        ensures { result ≡ None }
    {
        Findings { first: None }
    }

    pub fn first(&self) -> Option<Finding>
        ensures { option_map finding_seen result ≡ self.now }
    {
        self.first
    }

    pub fn note(&mut self, refusal: Refusal, place: u32)
        ensures { self.new ≡ sooner self.old (record { refusal = refusal_seen refusal; place = place }) }
    {
        let finding = Finding { refusal, place };
        match self.first {
            None => self.first = Some(finding),
            Some(first) => {
                if finding.is_earlier(&first) {
                    self.first = Some(finding);
                }
            }
        }
    }

    pub fn note_if(&mut self, holds: bool, refusal: Refusal, place: u32)
        ensures { self.new ≡ kept self.old (refused_if holds (refusal_seen refusal) place) }
    {
        if holds {
            self.note(refusal, place);
        }
    }

    /// Notes what is refused of a name.
    pub fn note_name(
        &mut self,
        name: &RawName,
        role: Role,
        means: &Option<Meaning>,
        iterators: &Iterators,
    )
        ensures { self.new ≡ noted iterators.now self.old (name_seen name.now role means.now ∷ []) }
    {
        let place = name.place;
        self.note_if(is_unknown(role, means), Refusal::Unknown, place);
        self.note_if(is_duplicate(role, means), Refusal::Duplicate, place);
        self.note_if(is_miscounted(role, means), Refusal::DimensionCount, place);
        self.note_if(is_assigned(role, means), Refusal::IteratorAssigned, place);
        self.note_if(
            is_outside(role, means, iterators),
            Refusal::IteratorOutside,
            place,
        );
    }
}

/// What a name means where it is used: the function's name means nothing there.
fn usable(means: &Option<Meaning>) -> Option<Meaning>
    ensures { option_map seen result ≡ conditions.usable (option_map seen means.now) }
{
    match means {
        Some(Meaning::Function) => None,
        Some(Meaning::Array(a, n)) => Some(Meaning::Array(*a, *n)),
        Some(Meaning::Variable(x)) => Some(Meaning::Variable(*x)),
        Some(Meaning::Iterator(level)) => Some(Meaning::Iterator(*level)),
        None => None,
    }
}

fn is_unknown(role: Role, means: &Option<Meaning>) -> bool
    ensures { (name : Spelling) → result ≡ conditions.is_unknown (name_seen name role means.now) }
{
    let means = usable(means);
    match role {
        Role::Declared => false,
        Role::Taken(_) => means.is_none(),
        Role::Assigned(_) => means.is_none(),
        Role::Iterates => means.is_none(),
        Role::InHeader => means.is_none(),
    }
}

fn is_duplicate(role: Role, means: &Option<Meaning>) -> bool
    ensures { (name : Spelling) → result ≡ conditions.is_duplicate (name_seen name role means.now) }
{
    match role {
        Role::Declared => means.is_some(),
        Role::Taken(_) => false,
        Role::Assigned(_) => false,
        Role::Iterates => false,
        Role::InHeader => false,
    }
}

fn takes(means: &Meaning, n: usize) -> bool
    ensures { result ≡ conditions.takes (seen means.now) n }
{
    match means {
        Meaning::Array(_, dimensions) => n == *dimensions as usize,
        Meaning::Variable(_) => n == 0,
        Meaning::Iterator(_) => n == 0,
        Meaning::Function => n == 0,
    }
}

fn is_miscounted(role: Role, means: &Option<Meaning>) -> bool
    ensures { (name : Spelling) → result ≡ conditions.is_miscounted (name_seen name role means.now) }
{
    let means = usable(means);
    match role {
        Role::Declared => false,
        Role::Taken(n) => match means {
            Some(m) => !takes(&m, n),
            None => false,
        },
        Role::Assigned(n) => match means {
            Some(m) => !takes(&m, n),
            None => false,
        },
        Role::Iterates => false,
        Role::InHeader => false,
    }
}

fn is_int(kind: Kind) -> bool
    ensures { result ≡ conditions.is_int kind }
{
    match kind {
        Kind::Int => true,
        Kind::Unsigned => false,
        Kind::Long => false,
        Kind::UnsignedLong => false,
    }
}

fn is_free(means: &Meaning) -> bool
    ensures { result ≡ conditions.is_free (seen means.now) }
{
    match means {
        Meaning::Variable(x) => is_int(x.kind) && !x.initialised,
        Meaning::Array(_, _) => false,
        Meaning::Iterator(_) => false,
        Meaning::Function => false,
    }
}

fn is_iterator(means: &Meaning) -> bool
    ensures { (n : ℕ) → result ≡ conditions.is_assigned_as (Assigned n) (Some (seen means.now)) }
{
    match means {
        Meaning::Iterator(_) => true,
        Meaning::Variable(_) => false,
        Meaning::Array(_, _) => false,
        Meaning::Function => false,
    }
}

fn is_assigned(role: Role, means: &Option<Meaning>) -> bool
    ensures { (name : Spelling) → result ≡ conditions.is_assigned_iterator (name_seen name role means.now) }
{
    let means = usable(means);
    match role {
        Role::Declared => false,
        Role::Taken(_) => false,
        Role::Assigned(_) => match means {
            Some(m) => is_iterator(&m),
            None => false,
        },
        Role::Iterates => match means {
            Some(m) => !is_free(&m),
            None => false,
        },
        Role::InHeader => false,
    }
}

/// Whether it is a local that a loop has as its iterator.
fn is_taken_local(means: &Option<Meaning>, iterators: &Iterators) -> bool
    ensures { result ≡ conditions.is_outside_as iterators.now InHeader (option_map seen means.now) }
{
    match means {
        Some(Meaning::Variable(x)) => iterators.has(x.serial),
        Some(Meaning::Array(_, _)) => false,
        Some(Meaning::Iterator(_)) => false,
        Some(Meaning::Function) => false,
        None => false,
    }
}

fn is_outside(role: Role, means: &Option<Meaning>, iterators: &Iterators) -> bool
    ensures { (name : Spelling) → result ≡ conditions.is_outside iterators.now (name_seen name role means.now) }
{
    match role {
        Role::Declared => false,
        Role::Taken(_) => is_taken_local(means, iterators),
        Role::Assigned(_) => is_taken_local(means, iterators),
        Role::Iterates => false,
        Role::InHeader => is_taken_local(means, iterators),
    }
}
