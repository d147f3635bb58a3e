//! What the punctuators of binary operators spell.
ghost use Rattle.std.specs.Prelude.{◌≡◌, option_map};
ghost use Rattle.species_ast.specs.Signs.{find_sign};
ghost use Rattle.species_ast.specs.Grammar.Expressions.{operation_sign, level_of};
ghost use Rattle.species_parser.specs.Words.{all_operations};
ghost use Rattle.species_parser.specs.Operators.{seen_operator};

use species_ast::Binary;

/// A binary operator, with those that need not evaluate their right operand.
#[derive(Clone, Copy, Debug, PartialEq, Eq)]
pub(crate) enum Operator {
    Strict(Binary),
    And,
    Or,
}

/// The binary operator of this spelling.
pub(crate) fn operator_of(text: &[u8]) -> Option<Operator>
    ensures { option_map seen_operator result ≡ find_sign operation_sign all_operations text.now }
{
    match Binary::of_sign(text) {
        Some(operator) => Some(Operator::Strict(operator)),
        None => match text {
            b"&&" => Some(Operator::And),
            b"||" => Some(Operator::Or),
            _ => None,
        },
    }
}

impl Operator {
    /// How tightly the operator binds: products 10, down to `||` with 1.
    pub(crate) fn level(self) -> u8
        ensures { result ≡ level_of (seen_operator self) }
    {
        match self {
            Operator::Strict(operator) => operator.level(),
            Operator::And => 2,
            Operator::Or => 1,
        }
    }
}
