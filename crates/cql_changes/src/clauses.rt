//! USING and WHERE: what several statements share.

ghost use Rattle.std.specs.Prelude.{◌≡◌};
ghost use Rattle.cql_phrases.specs.Inner.Reading.{Gives};
ghost use Rattle.cql_changes.specs.Inner.ChangeReading.{operator_at, use_at};

use crate::syntax::{Operator, Relation, Use};
use cql_lex::Mark;
use cql_phrases::front::{after_word, name, number, word};
use cql_phrases::lists::Part;
use cql_phrases::{Keyword, Lexeme, ParseFault, Term};
use std::alloc::Global;

impl Part for Use {
    ghost use Rattle.cql_changes.specs.Inner.ChangeReading.{use_at};

    ghost reads = { use_at };

    #[tactic(auto, unfolding(crate::specs::Inner::ChangeReading::use_at))]
    fn read(_alloc: Global, input: &[Lexeme]) -> Result<(Self, &[Lexeme]), ParseFault> {
        match after_word(input, Keyword::Timestamp) {
            Some(rest) => {
                let (n, rest) = number(rest)?;
                Ok((Use::Timestamp(n), rest))
            }
            None => {
                let rest = word(input, Keyword::Ttl)?;
                let (n, rest) = number(rest)?;
                Ok((Use::Ttl(n), rest))
            }
        }
    }
}

#[tactic(auto, unfolding(crate::specs::Inner::ChangeReading::operator_at))]
fn operator(input: &[Lexeme]) -> Result<(Operator, &[Lexeme]), ParseFault>
    ensures { Gives (λ x. (x.0, x.1.now)) result (operator_at input.now) }
{
    match input {
        [Lexeme::Mark(Mark::Equals), rest @ ..] => Ok((Operator::Equal, rest)),
        [Lexeme::Mark(Mark::Less), rest @ ..] => Ok((Operator::Less, rest)),
        [Lexeme::Mark(Mark::AtMost), rest @ ..] => Ok((Operator::AtMost, rest)),
        [Lexeme::Mark(Mark::Greater), rest @ ..] => Ok((Operator::Greater, rest)),
        [Lexeme::Mark(Mark::AtLeast), rest @ ..] => Ok((Operator::AtLeast, rest)),
        _ => Err(ParseFault::Syntax),
    }
}

impl Part for Relation {
    ghost use Rattle.cql_changes.specs.Inner.ChangeReading.{relation_at};

    ghost reads = { relation_at };

    #[tactic(auto, unfolding(crate::specs::Inner::ChangeReading::relation_at))]
    fn read(alloc: Global, input: &[Lexeme]) -> Result<(Self, &[Lexeme]), ParseFault> {
        let (column, rest) = name(alloc, input)?;
        let (operator, rest) = operator(rest)?;
        let (value, rest) = Term::read(alloc, rest)?;
        let relation = Relation {
            column,
            operator,
            value,
        };
        Ok((relation, rest))
    }
}
