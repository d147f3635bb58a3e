//! The laws of reading back: what is printed is read again as what it was.
#![tactic(auto)]

ghost use Rattle.species_readback.specs.Law.{TakesSpeciesBack};
ghost use Rattle.species_readback.specs.Texts.{TakesTexts};
ghost use Rattle.species_readback.specs.ReadBack.{ReadsBack, LawfulReadsBack, MarkedReadsBack};

/// A species text that is taken from a line is taken again, byte for byte, from the line that is
/// printed with it.
pub fn law_species_text()
    ensures { TakesSpeciesBack }
{}

/// The canonical text of each unit that can be written, and whose names mean what they should, is cut
/// into exactly one list of tokens, and these derive the unit, up to places.
pub fn law_read_back()
    ensures { ReadsBack }
{}

/// What a text becomes that is read, and in which nothing is refused, is read back from its canonical text.
pub fn law_lawful_read_back()
    ensures { LawfulReadsBack }
{}

/// So is each unit with the same source, whatever its species lines, its parallel marks and its atomic
/// additions are, as long as the lines and marks can be written.
pub fn law_marked_read_back()
    ensures { MarkedReadsBack }
{}

/// A text without comments, backslashes and line feeds, with no blank at its ends, whose first word is
/// not `endkernel`, or is followed by `[`, is a species text that can be written.
pub fn law_line_text()
    ensures { TakesTexts }
{}
