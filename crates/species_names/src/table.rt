//! The declarations in force, looked up by name.

ghost use Rattle.std.specs.Prelude.{◌≡◌, ℕ, List, ◌++◌, ◌<◌, length, drop, [], ◌∷◌, OnOk, OnErr};
ghost use Rattle.std.specs.Option.{option_map};
ghost use Rattle.species_ast.specs.Scope.Meanings.{meaning_in};
ghost use Rattle.species_names.specs.Seen.{seen};
ghost use Rattle.species_names.specs.Naming.{Naming};

use crate::meaning::Meaning;
use indexmap::IndexMap;
use species_ast::OutOfMemory;
use std::alloc::Global;
use std::marker::Model;

/// A declaration: what its name means, and what it meant before.
#[derive(Clone, Copy)]
pub(crate) struct Declared<'a> {
    name: &'a [u8],
    means: Meaning,
    before: Option<Meaning>,
}

/// The names that are declared where something stands.
#[derive(Drop)]
pub struct Names<'a> {
    table: IndexMap<&'a [u8], Option<Meaning>>,
    declared: Vec<Declared<'a>>,
}

impl<'a> Model for Names<'a> {
    ghost use Rattle.std.specs.Prelude.{List, reverse};
    ghost use Rattle.species_names.specs.Naming.{Naming};
    ghost use Rattle.species_names.specs.Table.{names_in, Holds};

    ghost Value = { List Naming };

    ghost view = { λ n. names_in (reverse n.declared.items) };

    ghost invariant = { λ n. Holds n.table n.declared.items };
}

impl<'a> Names<'a> {
    pub fn new(alloc: Global) -> Names<'a>
        ensures { result ≡ [] }
    {
        Names {
            table: IndexMap::new(alloc),
            declared: Vec::new(alloc),
        }
    }

    pub fn meaning(&self, name: &[u8]) -> Option<Meaning>
        ensures { option_map seen result ≡ meaning_in self.now name.now }
    {
        match self.table.get(name) {
            Some(means) => *means,
            None => None,
        }
    }

    pub fn declare(&mut self, name: &'a [u8], means: Meaning) -> Result<(), OutOfMemory>
        ensures ok { OnOk result (self.new ≡ (name.now, seen means) ∷ self.old) }
        ensures err { OnErr result (self.new ≡ self.old) }
    {
        let before = self.meaning(name);
        self.declared.push(Declared {
            name,
            means,
            before,
        })?;
        match self.table.insert(name, Some(means)) {
            Ok(_) => Ok(()),
            Err(_) => {
                let _ = self.declared.pop();
                Err(OutOfMemory)
            }
        }
    }

    pub fn len(&self) -> usize
        ensures { result ≡ length self.now }
    {
        self.declared.len()
    }

    /// Takes the last declaration back.
    fn undo(&mut self)
        requires { 0 < length self.old }
        ensures { self.new ≡ drop 1 self.old }
    {
        match self.declared.pop() {
            Some(last) => match self.table.insert(last.name, last.before) {
                Ok(_) => {}
                Err(_) => {}
            },
            None => {}
        }
    }

    /// Takes all but the first declarations back.
    pub fn leave(&mut self, depth: usize)
        ensures { (more rest : List Naming) → self.old ≡ more ++ rest → length rest ≡ depth → self.new ≡ rest }
    {
        while self.len() > depth {
            self.undo();
        }
    }
}
