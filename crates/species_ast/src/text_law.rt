//! The laws of texts and their tokens.

ghost use Rattle.species_ast.specs.Text.Law.{CutsOneWay, ReadsAhead, TakesTheLongest};

/// Each text is cut into tokens, or refused, in exactly one way. What a piece of it is, is known when
/// one byte more than it has is at hand. A punctuator is the longest that stands at its place.
pub fn law_text()
    ensures cut { CutsOneWay }
    ensures ahead { ReadsAhead }
    ensures longest { TakesTheLongest }
{}
