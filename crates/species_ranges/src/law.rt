//! The loops of a well made unit fit.

ghost use Rattle.species_ranges.specs.Law.{LoopsFit, OutermostLoopsFit};

/// The ranges of the loops of each nest of a well made unit can be found where the nest stands.
pub fn law_fits()
    ensures fit { LoopsFit }
    ensures outermost { OutermostLoopsFit }
{}
