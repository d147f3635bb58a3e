//! A cursor over the tokens of a program, and the words of the grammar at its front.
ghost use Rattle.std.specs.Prelude.{◌≡◌, ◌<◌, ◌≤◌, length, is_some, IfOk};
ghost use Rattle.species_grammar.specs.Reader.{Answer, is_of, starts, one, word, mapped, maybe_word};
ghost use Rattle.species_lexer.specs.Tokens.{seen_token};
ghost use Rattle.species_parser.specs.Words.{punctuator_of, keyword_of, names, numbers, includes, species_lines, atomic_lines, is_punctuator, spelling_of, unary_operators, assignment_operators, operators_at, tests, is_loop, is_type};
ghost use Rattle.species_parser.specs.Reading.{parallel_reader};
ghost use Rattle.species_parser.specs.Operators.{seen_operator, placed_number};
ghost use Rattle.species_parser.specs.Given.{Gives, GivesSeen, seen_tokens};

mod front;
mod place;

use crate::left::Left;
use crate::operators::{Operator, operator_of};
use crate::stop::Stop;
use species_ast::{RawName, RawOp, RawUnary, Schedule, Test, TokenKind, Value};
use species_lexer::{Token, TokenTable};
use std::marker::Model;

/// The tokens that are left, the next one of them at hand. Contracts see them as a list.
#[derive(Drop)]
pub(crate) struct Cursor<'t, 'a> {
    /// None at the end.
    first: Option<Token<'a>>,
    /// What stands behind it.
    left: Left<'t, 'a>,
}

impl<'t, 'a> Model for Cursor<'t, 'a> {
    ghost use Rattle.std.specs.Prelude.{List};
    ghost use Rattle.species_ast.specs.Token as ast;
    ghost use Rattle.species_parser.specs.Front.{before};
    ghost use Rattle.species_parser.specs.Left.{seen_left};

    ghost Value = { List ast.Token };

    ghost view = { λ c. before c.first (seen_left c.left) };
}

fn is_the_punctuator(token: &Token<'_>, punctuator: &[u8]) -> bool
    ensures { result ≡ is_of (punctuator_of punctuator.now) (seen_token token.now) }
{
    matches!(token.kind, TokenKind::Punct) && token.text == punctuator
}

fn is_the_keyword(token: &Token<'_>, keyword: &[u8]) -> bool
    ensures { result ≡ is_of (keyword_of keyword.now) (seen_token token.now) }
{
    matches!(token.kind, TokenKind::Keyword) && token.text == keyword
}

fn is_punctuator(token: &Token<'_>) -> bool
    ensures { result ≡ is_punctuator (seen_token token.now).kind }
{
    matches!(token.kind, TokenKind::Punct)
}

/// The bytes of a token where they stand.
fn spelling_of<'a>(token: &Token<'a>) -> RawName<'a>
    ensures { result ≡ spelling_of (seen_token token.now) }
{
    RawName {
        text: token.text,
        place: token.place,
    }
}

impl<'t, 'a> Cursor<'t, 'a> {
    ghost use Rattle.species_ast.specs.Text.Stream as text;
    ghost use Rattle.species_parser.specs.Left.{seen_left};

    /// A cursor before the first of these.
    fn new(left: Left<'t, 'a>) -> Cursor<'t, 'a>
        ensures { result ≡ seen_left left.entry }
    {
        let mut left = left;
        let first = left.next();
        Cursor { first, left }
    }

    /// A cursor over a list of tokens.
    pub(crate) fn listed(tokens: &'t [Token<'a>]) -> Cursor<'t, 'a>
        ensures { result ≡ seen_tokens tokens.now }
    {
        Cursor::new(Left::Listed(tokens))
    }

    /// A cursor over the tokens of a table that the grammar sees.
    pub(crate) fn over(table: &'a TokenTable) -> Cursor<'t, 'a>
        ensures { result ≡ text.grammar_tokens table.now.tokens }
    {
        Cursor::new(Left::Table(table.cursor()))
    }

    /// Whether this punctuator stands next.
    pub(crate) fn is_at_punctuator(&self, punctuator: &[u8]) -> bool
        ensures { result ≡ starts (is_of (punctuator_of punctuator.now)) self.now }
    {
        match self.first {
            Some(first) => is_the_punctuator(&first, punctuator),
            None => false,
        }
    }

    /// Whether this keyword stands next.
    pub(crate) fn is_at_keyword(&self, keyword: &[u8]) -> bool
        ensures { result ≡ starts (is_of (keyword_of keyword.now)) self.now }
    {
        match self.first {
            Some(first) => is_the_keyword(&first, keyword),
            None => false,
        }
    }

    /// The place of this punctuator, which has to stand next.
    pub(crate) fn punctuator(&mut self, punctuator: &[u8]) -> Result<u32, Stop>
        ensures value { Gives result self.new (word (punctuator_of punctuator.now) self.old) }
        ensures shorter { IfOk result (λ _. length self.new < length self.old) }
    {
        let next = self.first;
        match next {
            Some(first) if is_the_punctuator(&first, punctuator) => {
                self.first = self.left.next();
                Ok(first.place)
            }
            _ => Err(Stop::Syntax),
        }
    }

    /// The place of this keyword, which has to stand next.
    pub(crate) fn keyword(&mut self, keyword: &[u8]) -> Result<u32, Stop>
        ensures value { Gives result self.new (word (keyword_of keyword.now) self.old) }
        ensures shorter { IfOk result (λ _. length self.new < length self.old) }
    {
        let next = self.first;
        match next {
            Some(first) if is_the_keyword(&first, keyword) => {
                self.first = self.left.next();
                Ok(first.place)
            }
            _ => Err(Stop::Syntax),
        }
    }

    /// The name that has to stand next.
    pub(crate) fn name(&mut self) -> Result<RawName<'a>, Stop>
        ensures value { Gives result self.new (word names self.old) }
        ensures shorter { IfOk result (λ _. length self.new < length self.old) }
    {
        let next = self.first;
        match next {
            Some(first) if matches!(first.kind, TokenKind::Name) => {
                self.first = self.left.next();
                Ok(spelling_of(&first))
            }
            _ => Err(Stop::Syntax),
        }
    }

    /// Whether a number stands next.
    pub(crate) fn is_at_number(&self) -> bool
        ensures { result ≡ starts (is_of numbers) self.now }
    {
        matches!(
            self.first,
            Some(Token {
                kind: TokenKind::Number(_),
                ..
            })
        )
    }

    /// The place and the value of the number that has to stand next.
    pub(crate) fn number(&mut self) -> Result<(u32, Value), Stop>
        ensures value { Gives result self.new (mapped placed_number (word numbers) self.old) }
        ensures shorter { IfOk result (λ _. length self.new < length self.old) }
    {
        let next = self.first;
        match next {
            Some(first) => match first.kind {
                TokenKind::Number(value) => {
                    self.first = self.left.next();
                    Ok((first.place, value))
                }
                _ => Err(Stop::Syntax),
            },
            None => Err(Stop::Syntax),
        }
    }

    /// Whether a unary operator stands next.
    pub(crate) fn is_at_unary_operator(&self) -> bool
        ensures { result ≡ starts (is_of unary_operators) self.now }
    {
        match self.first {
            Some(first) => is_punctuator(&first) && RawUnary::of_sign(first.text).is_some(),
            None => false,
        }
    }

    /// The unary operator that has to stand next, with its place.
    pub(crate) fn unary_operator(&mut self) -> Result<(u32, RawUnary), Stop>
        ensures value { Gives result self.new (word unary_operators self.old) }
        ensures shorter { IfOk result (λ _. length self.new < length self.old) }
    {
        let next = self.first;
        match next {
            Some(first) if is_punctuator(&first) => match RawUnary::of_sign(first.text) {
                Some(operator) => {
                    self.first = self.left.next();
                    Ok((first.place, operator))
                }
                None => Err(Stop::Syntax),
            },
            _ => Err(Stop::Syntax),
        }
    }

    /// Whether a binary operator of this level stands next.
    pub(crate) fn is_at_binary_operator(&self, level: u8) -> bool
        ensures { result ≡ starts (λ t. is_some (operators_at level t)) self.now }
    {
        match self.first {
            Some(first) if is_punctuator(&first) => match operator_of(first.text) {
                Some(operator) => operator.level() == level,
                None => false,
            },
            _ => false,
        }
    }

    /// The binary operator of this level that has to stand next.
    pub(crate) fn binary_operator(&mut self, level: u8) -> Result<(u32, Operator), Stop>
        ensures value { GivesSeen (λ x. (x.0, seen_operator x.1)) result self.new (one (operators_at level) self.old) }
        ensures shorter { IfOk result (λ _. length self.new < length self.old) }
    {
        let next = self.first;
        match next {
            Some(first) if is_punctuator(&first) => match operator_of(first.text) {
                Some(operator) if operator.level() == level => {
                    self.first = self.left.next();
                    Ok((first.place, operator))
                }
                _ => Err(Stop::Syntax),
            },
            _ => Err(Stop::Syntax),
        }
    }

    /// The assignment operator that has to stand next.
    pub(crate) fn assignment_operator(&mut self) -> Result<(u32, RawOp), Stop>
        ensures value { Gives result self.new (word assignment_operators self.old) }
        ensures shorter { IfOk result (λ _. length self.new < length self.old) }
    {
        let next = self.first;
        match next {
            Some(first) if is_punctuator(&first) => match RawOp::of_sign(first.text) {
                Some(operator) => {
                    self.first = self.left.next();
                    Ok((first.place, operator))
                }
                None => Err(Stop::Syntax),
            },
            _ => Err(Stop::Syntax),
        }
    }

    /// The comparison that has to stand next in the header of a loop.
    pub(crate) fn comparison(&mut self) -> Result<(u32, Test), Stop>
        ensures value { Gives result self.new (word tests self.old) }
        ensures shorter { IfOk result (λ _. length self.new < length self.old) }
    {
        let next = self.first;
        match next {
            Some(first) if is_punctuator(&first) => match Test::of_sign(first.text) {
                Some(test) => {
                    self.first = self.left.next();
                    Ok((first.place, test))
                }
                None => Err(Stop::Syntax),
            },
            _ => Err(Stop::Syntax),
        }
    }

    /// The place of this keyword, if it stands next.
    pub(crate) fn optional_keyword(&mut self, keyword: &[u8]) -> Option<u32>
        ensures value { maybe_word (keyword_of keyword.now) self.old ≡ Answer.read result self.new }
        ensures within { length self.new ≤ length self.old }
    {
        let next = self.first;
        match next {
            Some(first) if is_the_keyword(&first, keyword) => {
                self.first = self.left.next();
                Some(first.place)
            }
            _ => None,
        }
    }

    /// Whether an `#include` stands next.
    pub(crate) fn is_at_include(&self) -> bool
        ensures { result ≡ starts (is_of includes) self.now }
    {
        matches!(
            self.first,
            Some(Token {
                kind: TokenKind::Include,
                ..
            })
        )
    }

    /// The `#include` that has to stand next.
    pub(crate) fn include(&mut self) -> Result<RawName<'a>, Stop>
        ensures value { Gives result self.new (word includes self.old) }
        ensures shorter { IfOk result (λ _. length self.new < length self.old) }
    {
        let next = self.first;
        match next {
            Some(first) if matches!(first.kind, TokenKind::Include) => {
                self.first = self.left.next();
                Ok(spelling_of(&first))
            }
            _ => Err(Stop::Syntax),
        }
    }

    /// Whether a loop begins here: a pragma of one, or `for`.
    pub(crate) fn is_at_loop(&self) -> bool
        ensures { result ≡ starts is_loop self.now }
    {
        match self.first {
            Some(first) => {
                matches!(first.kind, TokenKind::Species | TokenKind::Parallel(..))
                    || is_the_keyword(&first, b"for")
            }
            None => false,
        }
    }

    /// The species line, if one stands next.
    pub(crate) fn species_line(&mut self) -> Option<RawName<'a>>
        ensures value { maybe_word species_lines self.old ≡ Answer.read result self.new }
        ensures within { length self.new ≤ length self.old }
    {
        let next = self.first;
        match next {
            Some(first) if matches!(first.kind, TokenKind::Species) => {
                self.first = self.left.next();
                Some(spelling_of(&first))
            }
            _ => None,
        }
    }

    /// The depth and the schedule of OpenMP's pragma of a loop, if one stands next.
    pub(crate) fn parallel_line(&mut self) -> Option<(u32, Schedule)>
        ensures value { parallel_reader self.old ≡ Answer.read result self.new }
        ensures within { length self.new ≤ length self.old }
    {
        let next = self.first;
        match next {
            Some(first) => match first.kind {
                TokenKind::Parallel(depth, schedule) => {
                    self.first = self.left.next();
                    Some((depth, schedule))
                }
                _ => None,
            },
            None => None,
        }
    }

    /// Whether the pragma of an atomic addition stands next.
    pub(crate) fn is_at_atomic(&self) -> bool
        ensures { result ≡ starts (is_of atomic_lines) self.now }
    {
        matches!(
            self.first,
            Some(Token {
                kind: TokenKind::Atomic,
                ..
            })
        )
    }

    /// The pragma of an atomic addition, which has to stand next.
    pub(crate) fn atomic_line(&mut self) -> Result<RawName<'a>, Stop>
        ensures value { Gives result self.new (word atomic_lines self.old) }
        ensures shorter { IfOk result (λ _. length self.new < length self.old) }
    {
        let next = self.first;
        match next {
            Some(first) if matches!(first.kind, TokenKind::Atomic) => {
                self.first = self.left.next();
                Ok(spelling_of(&first))
            }
            _ => Err(Stop::Syntax),
        }
    }

    /// Whether a type begins here.
    pub(crate) fn is_at_type(&self) -> bool
        ensures { result ≡ starts is_type self.now }
    {
        self.is_at_keyword(b"int") || self.is_at_keyword(b"unsigned") || self.is_at_keyword(b"long")
    }
}
