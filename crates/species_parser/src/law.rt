//! What is true of the grammar by itself.
ghost use Rattle.std.specs.Prelude.{ℕ, List, Bool};
ghost use Rattle.species_ast.specs.Token.{Token};
ghost use Rattle.species_ast.specs.Reading.{ReadsOneWay};
ghost use Rattle.species_ast.specs.Grammar.Expressions.{Expression, place_of};
ghost use Rattle.species_ast.specs.Grammar.Declarations.{LocalDeclaration};
ghost use Rattle.species_ast.specs.Grammar.Statements.{Statement};
ghost use Rattle.species_ast.specs.Grammar.Law.{DerivesOneWay};
ghost use Rattle.species_ast.specs.declared.raw.RawExpr.{RawExpr};
ghost use Rattle.species_ast.specs.declared.raw.RawStmt.{RawStmt};
ghost use Rattle.species_parser.specs.Places.{StartsAt, after_pragmas, statement_place_of};

/// A list of tokens derives one unit, or goes wrong at one place.
pub fn law_grammar()
    ensures { DerivesOneWay }
{}

/// A text is accepted with one tree, or refused for one reason at one place.
pub fn law_reading()
    ensures { ReadsOneWay }
{}

/// The place of an expression or a declaration is that of its first token, and the place of a
/// statement that of its first token after any pragma.
pub fn law_places()
    ensures expression { (level : ℕ) (x : RawExpr) (ts : List Token) → Expression level x ts → StartsAt (place_of x) ts }
    ensures declaration { (s : RawStmt) (ts : List Token) → LocalDeclaration s ts → StartsAt (statement_place_of s) ts }
    ensures statement { (last_if : Bool) (s : RawStmt) (ts : List Token)
        → Statement last_if s ts → StartsAt (statement_place_of s) (after_pragmas ts) }
{}
