//! The iterators in force, by level, and the locals by number.
ghost use Rattle.std.specs.Prelude.{◌≡◌, IfOk, OnOk, take, length, ◌-◌};
ghost use Rattle.species_ast.specs.Evaluation.{iterator, local_of, with_local};
ghost use Rattle.species_ast.specs.Run.{inside};

use species_ast::{OutOfMemory, Value};
use std::alloc::Global;
use std::marker::Model;

/// Where an iteration begins: the values of the iterators around it, by level, and of the locals by
/// number, with None for one that has no value.
#[derive(Drop)]
pub struct Frame {
    iters: Vec<i32>,
    locals: Vec<Option<Value>>,
}

impl Model for Frame {
    ghost use Rattle.species_ast.specs.Evaluation.{Frame as Place};

    ghost Value = { Place };

    ghost view = { λ f. record { iters = f.iters.items; locals = f.locals.items } };
}

impl Frame {
    pub fn new(iters: Vec<i32>, locals: Vec<Option<Value>>) -> Frame
        ensures { result ≡ record { iters = iters.items; locals = locals.items } }
    {
        Frame { iters, locals }
    }

    /// A frame with the same values.
    pub fn copy(&self, alloc: Global) -> Result<Frame, OutOfMemory>
        ensures { IfOk result (λ f. f ≡ self.now) }
    {
        Ok(Frame {
            iters: Vec::from_slice(alloc, self.iters.as_slice())?,
            locals: Vec::from_slice(alloc, self.locals.as_slice())?,
        })
    }

    pub(crate) fn iter(&self, level: u32) -> i32
        ensures { result ≡ iterator self.now level }
    {
        let level = level as usize;
        if level < self.iters.len() {
            self.iters[level]
        } else {
            0
        }
    }

    pub(crate) fn local(&self, x: u32) -> Option<Value>
        ensures { result ≡ local_of self.now x }
    {
        let x = x as usize;
        if x < self.locals.len() {
            self.locals[x]
        } else {
            None
        }
    }

    pub(crate) fn set(&mut self, x: u32, value: Option<Value>)
        ensures { self.new ≡ with_local self.old x value }
    {
        let x = x as usize;
        if x < self.locals.len() {
            self.locals[x] = value;
        }
    }

    /// Into a turn.
    pub(crate) fn enter(&mut self, at: i32) -> Result<(), OutOfMemory>
        ensures { OnOk result (self.new ≡ inside self.old at) }
    {
        self.iters.push(at)?;
        Ok(())
    }

    /// Out of a turn.
    pub(crate) fn leave(&mut self)
        ensures { self.new ≡ record self.old { iters = take (length self.old.iters - 1) self.old.iters } }
    {
        self.iters.pop();
    }
}
