//! Where something stands: the names, and the loops around it.

ghost use Rattle.std.specs.Prelude.{◌≡◌, OnOk, OnErr};
ghost use Rattle.std.specs.Option.{option_map};
ghost use Rattle.species_ast.specs.Scope.Meanings.{meaning_of, local_number, scope_with, scope_with_local, in_loop, behind};
ghost use Rattle.species_ast.specs.Scope.Programs.{first_scope};
ghost use Rattle.species_names.specs.Seen.{seen};
ghost use Rattle.species_names.specs.Inside.{Within, Marks, IsInside};

use crate::iterators::Iterators;
use crate::meaning::{Local, Meaning};
use crate::table::Names;
use species_ast::{Kind, OutOfMemory, RawName};
use std::alloc::Global;
use std::marker::Model;

/// Where something stands.
#[derive(Drop)]
pub struct Place<'a> {
    names: Names<'a>,
    level: u32,
    serials: u32,
    iterators: Iterators,
}

impl<'a> Model for Place<'a> {
    ghost use Rattle.species_ast.specs.Scope.Meanings.{Scope};

    ghost Value = { Scope };

    ghost view = { λ p. record { names = p.names; level = p.level; serials = p.serials; iterators = p.iterators } };
}

/// What a scope goes back to at its end.
#[derive(Clone, Copy)]
pub struct ScopeMark {
    pub depth: usize,
    pub level: u32,
}

impl<'a> Place<'a> {
    /// Where nothing is declared.
    pub fn new(alloc: Global, iterators: Iterators) -> Place<'a>
        ensures { result ≡ first_scope iterators }
    {
        Place {
            names: Names::new(alloc),
            level: 0,
            serials: 0,
            iterators,
        }
    }

    pub fn meaning(&self, name: &RawName) -> Option<Meaning>
        ensures { option_map seen result ≡ meaning_of self.now name.now }
    {
        self.names.meaning(name.text)
    }

    pub fn number(&self, serial: u32) -> u32
        ensures { result ≡ local_number self.now serial }
    {
        self.iterators.number(serial)
    }

    pub fn iterators(&self) -> &Iterators
        ensures { result.now ≡ self.now.iterators }
    {
        &self.iterators
    }

    pub fn level(&self) -> u32
        ensures { result ≡ self.now.level }
    {
        self.level
    }

    pub fn serials(&self) -> u32
        ensures { result ≡ self.now.serials }
    {
        self.serials
    }

    pub fn mark(&self) -> ScopeMark
        ensures { Marks result self.now }
    {
        ScopeMark {
            depth: self.names.len(),
            level: self.level,
        }
    }

    /// Declares a name that is no local.
    pub fn declare(&mut self, name: &RawName<'a>, means: Meaning) -> Result<(), OutOfMemory>
        ensures { OnOk result (self.new ≡ scope_with name.now (seen means) self.old) }
    {
        self.names.declare(name.text, means)?;
        Ok(())
    }

    pub fn declare_local(
        &mut self,
        name: &RawName<'a>,
        kind: Kind,
        initialised: bool,
    ) -> Result<(), OutOfMemory>
        ensures { OnOk result (self.new ≡ scope_with_local name.now (record { serial = self.old.serials; kind = kind; initialised = initialised }) self.old) }
    {
        let serial = self.serials;
        let next = serial.checked_add(1).ok_or(OutOfMemory)?;
        let local = Local {
            serial,
            kind,
            initialised,
        };
        self.names.declare(name.text, Meaning::Variable(local))?;
        self.serials = next;
        Ok(())
    }

    pub fn enter_loop(&mut self, iter: &RawName<'a>) -> Result<(), OutOfMemory>
        ensures { OnOk result (self.new ≡ in_loop iter.now self.old) }
    {
        let next = self.level.checked_add(1).ok_or(OutOfMemory)?;
        self.names
            .declare(iter.text, Meaning::Iterator(self.level))?;
        self.level = next;
        Ok(())
    }

    /// Goes back to what was declared at the mark.
    pub fn leave(&mut self, mark: ScopeMark)
        ensures { Within mark self.old self.new }
    {
        self.names.leave(mark.depth);
        self.level = mark.level;
    }
}
