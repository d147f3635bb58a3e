//! The law of written programs: what is read from a text is no larger than the text.
#![tactic(auto)]

ghost use Rattle.species_written.specs.Law.{ReadsWrittenTrees};

/// A tree that is read from a text of at most so many bytes as a program may have is written: its
/// names and its statements together are no more than those bytes, and no parallel mark in it has
/// depth 0.
pub fn law_written()
    ensures { ReadsWrittenTrees }
{}
