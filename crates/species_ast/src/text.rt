//! Names, sizes, headers and the texts of lines: small types that contracts see as lists.

ghost use Rattle.std.specs.Prelude.{◌≡◌, ◌↔◌, ◌++◌, [], ◌∷◌, IfOk, OnOk, OnErr, IsTrue};

use crate::memory::OutOfMemory;
use sqlite_items::Items;
use std::alloc::Global;
use std::marker::Model;

/// A name of the program: its bytes, in the program's own spelling.
#[derive(Debug, Drop)]
pub struct Name {
    bytes: Vec<u8>,
}

impl Model for Name {
    ghost use Rattle.std.specs.Prelude.{List, ℕ};

    ghost Value = { List ℕ };

    ghost view = { λ name. name.bytes.items };
}

impl Name {
    /// The name that these bytes spell.
    pub fn new(alloc: Global, bytes: &[u8]) -> Result<Name, OutOfMemory>
        ensures { IfOk result (λ name. name ≡ bytes.now) }
    {
        Ok(Name {
            bytes: Vec::from_slice(alloc, bytes)?,
        })
    }

    pub fn from_vec(bytes: Vec<u8>) -> Name
        ensures { result ≡ bytes.items }
    {
        Name { bytes }
    }

    pub fn as_slice(&self) -> &[u8]
        ensures { result.now ≡ self.now }
    {
        self.bytes.as_slice()
    }

    pub fn copy(&self, alloc: Global) -> Result<Name, OutOfMemory>
        ensures { IfOk result (λ name. name ≡ self.now) }
    {
        Name::new(alloc, self.bytes.as_slice())
    }

    /// Whether the two names are spelled alike.
    pub fn is(&self, other: &Name) -> bool
        ensures { IsTrue result ↔ (self.now ≡ other.now) }
    {
        self.bytes.as_slice() == other.bytes.as_slice()
    }
}

/// The sizes of an array, outermost dimension first.
#[derive(Debug, Drop)]
pub struct Dims {
    sizes: Vec<u32>,
}

impl Model for Dims {
    ghost use Rattle.std.specs.Prelude.{List, ℕ};

    ghost Value = { List ℕ };

    ghost view = { λ dims. dims.sizes.items };
}

impl Dims {
    pub fn from_vec(sizes: Vec<u32>) -> Dims
        ensures { result ≡ sizes.items }
    {
        Dims { sizes }
    }

    pub fn as_slice(&self) -> &[u32]
        ensures { result.now ≡ self.now }
    {
        self.sizes.as_slice()
    }

    pub fn copy(&self, alloc: Global) -> Result<Dims, OutOfMemory>
        ensures { IfOk result (λ dims. dims ≡ self.now) }
    {
        Ok(Dims {
            sizes: Vec::from_slice(alloc, self.sizes.as_slice())?,
        })
    }
}

/// The headers that a program includes, each with its brackets or quotes, in the program's order.
#[derive(Debug, Drop)]
pub struct Includes {
    headers: Items<Name>,
}

impl Model for Includes {
    ghost use Rattle.std.specs.Prelude.{List, ℕ};

    ghost Value = { List (List ℕ) };

    ghost view = { λ includes. includes.headers };
}

impl Includes {
    pub fn new(alloc: Global) -> Includes
        ensures { result ≡ [] }
    {
        Includes {
            headers: Items::new(alloc),
        }
    }

    pub fn as_slice(&self) -> &[Name]
        ensures { result.now ≡ self.now }
    {
        self.headers.as_slice()
    }

    pub fn push(&mut self, header: Name) -> Result<(), OutOfMemory>
        ensures ok { OnOk result (self.new ≡ self.old ++ header ∷ []) }
        ensures err { OnErr result (self.new ≡ self.old) }
    {
        self.headers.push(header)?;
        Ok(())
    }

    pub fn copy(&self, alloc: Global) -> Result<Includes, OutOfMemory>
        ensures { IfOk result (λ includes. includes ≡ self.now) }
    {
        let mut headers = Items::new(alloc);
        for header in self.headers.as_slice() {
            headers.push(header.copy(alloc)?)?;
        }
        Ok(Includes { headers })
    }
}

/// The text of a species line, and the place of its `#` in the program.
#[derive(Debug, Drop)]
pub struct LineText {
    bytes: Vec<u8>,
    place: u32,
}

impl Model for LineText {
    ghost use Rattle.species_ast.specs.Line.{Line};

    ghost Value = { Line };

    ghost view = { λ line. record { text = line.bytes.items; place = line.place } };
}

impl LineText {
    pub fn new(bytes: Vec<u8>, place: u32) -> LineText
        ensures { result ≡ record { text = bytes.items; place = place } }
    {
        LineText { bytes, place }
    }

    pub fn text(&self) -> &[u8]
        ensures { result.now ≡ self.now.text }
    {
        self.bytes.as_slice()
    }

    pub fn place(&self) -> u32
        ensures { result ≡ self.now.place }
    {
        self.place
    }

    pub fn copy(&self, alloc: Global) -> Result<LineText, OutOfMemory>
        ensures { IfOk result (λ line. line ≡ self.now) }
    {
        Ok(LineText {
            bytes: Vec::from_slice(alloc, self.bytes.as_slice())?,
            place: self.place,
        })
    }
}
