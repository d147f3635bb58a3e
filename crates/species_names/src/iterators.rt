//! The locals that are the iterators of loops.

ghost use Rattle.std.specs.Prelude.{◌≡◌, ℕ, ◌||◌, false, nat_eq, get_or, IfOk, OnOk};
ghost use Rattle.species_ast.specs.Scope.Meanings.{is_among, count_before};
ghost use Rattle.species_names.specs.Counted.{counts_from};

use species_ast::OutOfMemory;
use std::alloc::Global;
use std::marker::Model;

/// The locals that are the iterators of loops.
#[derive(Drop)]
pub struct Iterators {
    serials: Vec<u32>,
    /// How many locals before each are no iterators, up to the last iterator.
    before: Vec<u32>,
}

impl Model for Iterators {
    ghost use Rattle.std.specs.Prelude.{List, ℕ};
    ghost use Rattle.species_names.specs.Counted.{Counts};

    ghost Value = { List ℕ };

    ghost view = { λ all. all.serials.items };

    ghost invariant = { λ all. Counts all.serials.items all.before.items };
}

impl Iterators {
    pub fn new(alloc: Global, serials: &[u32]) -> Result<Iterators, OutOfMemory>
        ensures { IfOk result (λ all. all ≡ serials.now) }
    {
        let flags = flags(alloc, serials)?;
        let before = counts(alloc, flags.as_slice())?;
        let serials = Vec::from_slice(alloc, serials)?;
        Ok(Iterators { serials, before })
    }

    pub fn has(&self, serial: u32) -> bool
        ensures { result ≡ is_among self.now serial }
    {
        let n = serial as usize;
        if n + 1 < self.before.len() {
            self.before[n] == self.before[n + 1]
        } else {
            false
        }
    }

    /// How many of the first locals are no iterators.
    pub fn number(&self, serial: u32) -> u32
        ensures { result ≡ count_before self.now serial }
    {
        let n = serial as usize;
        let last = self.before.len() - 1;
        if n < last {
            self.before[n]
        } else {
            self.before[last] + (n - last) as u32
        }
    }
}

/// Whether each local is an iterator, up to the last that is one.
fn flags(alloc: Global, serials: &[u32]) -> Result<Vec<bool>, OutOfMemory>
    ensures { IfOk result (λ all. (n : ℕ) → get_or all.items n false ≡ is_among serials.now n) }
{
    let mut all = Vec::new(alloc);
    for serial in serials {
        set_flag(&mut all, *serial as usize)?;
    }
    Ok(all)
}

/// Sets a flag, behind as many flags as it takes.
fn set_flag(all: &mut Vec<bool>, at: usize) -> Result<(), OutOfMemory>
    ensures { OnOk result ((n : ℕ) → get_or all.new.items n false ≡ (nat_eq n at || get_or all.old.items n false)) }
{
    while all.len() <= at {
        all.push(false)?;
    }
    all[at] = true;
    Ok(())
}

/// How many flags before each are not set.
fn counts(alloc: Global, flags: &[bool]) -> Result<Vec<u32>, OutOfMemory>
    ensures { IfOk result (λ all. all.items ≡ counts_from 0 flags.now) }
{
    let mut all = Vec::new(alloc);
    let mut count: u32 = 0;
    for flag in flags {
        all.push(count)?;
        if !*flag {
            count = count.checked_add(1).ok_or(OutOfMemory)?;
        }
    }
    all.push(count)?;
    Ok(all)
}
