//! How far a walk is: the answers that are left, and the actions that are still to be passed.
ghost use Rattle.std.specs.Prelude.{◌≡◌};
ghost use Rattle.bones_meaning.specs.Tapes.{came, fault_of, change, ask};

use species_ast::{Action, OutOfMemory, Value};
use std::marker::Model;

/// Why a walk ends before what it walks through does: at the action that was looked for, or because
/// there are fewer actions.
pub(crate) type Halt = Option<Action>;

/// Why a walk through statements ends.
#[derive(Clone, Copy)]
pub(crate) enum Stop {
    At(Halt),
    /// There was not enough memory.
    Memory,
}

impl From<OutOfMemory> for Stop {
    ghost use Rattle.std.specs.Prelude.{◌≡◌};
    ghost use Rattle.bones_meaning.specs.declared.tape.Stop.TheVariants.{Memory};

    ghost from_gives = { λ _ e. e ≡ Memory };

    fn from(_: OutOfMemory) -> Stop {
        Stop::Memory
    }
}

#[derive(Drop)]
pub(crate) struct Tape<'a> {
    answers: &'a [Value],
    done: u64,
}

impl<'a> Model for Tape<'a> {
    ghost use Rattle.bones_meaning.specs.Tapes.{Tape as Reel};

    ghost Value = { Reel };

    ghost view = { λ t. record { answers = t.answers.now; done = t.done } };
}

impl<'a> Tape<'a> {
    pub(crate) fn new(answers: &'a [Value], done: u64) -> Tape<'a>
        ensures { result ≡ record { answers = answers.now; done = done } }
    {
        Tape { answers, done }
    }

    /// What is undefined, or what no iteration may do.
    pub(crate) fn fault(&self) -> Halt
        ensures { result ≡ fault_of self.now.done }
    {
        if self.done == 0 {
            Some(Action::Fault)
        } else {
            None
        }
    }

    /// A write or an addition.
    pub(crate) fn change(&mut self, action: Action) -> Result<(), Halt>
        ensures { came result self.new ≡ change action tt self.old }
    {
        if self.done == 0 {
            return Err(Some(action));
        }
        self.done -= 1;
        Ok(())
    }

    /// A read, and its answer.
    pub(crate) fn ask(&mut self, action: Action) -> Result<Value, Halt>
        ensures { came result self.new ≡ ask action self.old }
    {
        if self.done == 0 {
            return Err(Some(action));
        }
        match self.answers {
            [] => Err(None),
            [answer, rest @ ..] => {
                self.answers = rest;
                self.done -= 1;
                Ok(*answer)
            }
        }
    }
}
