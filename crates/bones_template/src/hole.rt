ghost use Rattle.std.specs.Prelude.{◌≡◌};

/// What a template leaves open.
#[derive(Clone, Copy, Debug, PartialEq, Eq)]
pub enum Hole {
    Indent,
    Species,
    Collapse,
    Loop,
}

impl Hole {
    ghost use Rattle.bones_template.specs.Holes.{hole_text};
    ghost use Rattle.bones_template.specs.Filling.{is_as_often};

    /// How the hole is written in a template.
    pub(crate) fn text(self) -> &'static [u8]
        ensures { result.now ≡ hole_text self }
    {
        match self {
            Hole::Indent => b"<indent>",
            Hole::Species => b"<species>",
            Hole::Collapse => b"<collapse>",
            Hole::Loop => b"<loop>",
        }
    }

    /// Whether a hole that stands this often stands as often as it has to.
    pub(crate) fn is_as_often(self, count: usize) -> bool
        ensures { result ≡ is_as_often self count }
    {
        match self {
            Hole::Indent => 1 <= count,
            Hole::Species | Hole::Collapse | Hole::Loop => count == 1,
        }
    }
}

/// The bytes that stand in place of each hole.
#[derive(Debug, Drop)]
pub struct Holes {
    pub indent: Vec<u8>,
    pub species: Vec<u8>,
    pub collapse: Vec<u8>,
    pub loop_text: Vec<u8>,
}

impl Holes {
    ghost use Rattle.bones_template.specs.Holes.{contents_of, text_for};

    pub(crate) fn text_for(&self, hole: Hole) -> &[u8]
        ensures { result.now ≡ text_for (contents_of self.now) hole }
    {
        match hole {
            Hole::Indent => self.indent.as_slice(),
            Hole::Species => self.species.as_slice(),
            Hole::Collapse => self.collapse.as_slice(),
            Hole::Loop => self.loop_text.as_slice(),
        }
    }
}
