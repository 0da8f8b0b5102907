//! Tables' names and orders: what several statements share.

ghost use Rattle.std.specs.Prelude.{◌≡◌};
ghost use Rattle.cql_phrases.specs.Inner.Reading.{Gives};
ghost use Rattle.cql_tables.specs.Inner.TableReading.{table_at};

use crate::syntax::{ColumnOrder, TableName};
use cql_lex::Mark;
use cql_phrases::front::{after_mark, after_word, name};
use cql_phrases::lists::Part;
use cql_phrases::{Keyword, Lexeme, ParseFault};
use std::alloc::Global;

/// A table, perhaps with its keyspace.
#[tactic(auto, unfolding(crate::specs::Inner::TableReading::table_at))]
#[inline(always)]
pub fn table(alloc: Global, input: &[Lexeme]) -> Result<(TableName, &[Lexeme]), ParseFault>
    ensures { Gives (λ x. (x.0, x.1.now)) result (table_at input.now) }
{
    let (first, rest) = name(alloc, input)?;
    match after_mark(rest, Mark::Dot) {
        Some(after) => {
            let (second, rest) = name(alloc, after)?;
            let keyspace = Some(first);
            Ok((
                TableName {
                    keyspace,
                    name: second,
                },
                rest,
            ))
        }
        None => Ok((
            TableName {
                keyspace: None,
                name: first,
            },
            rest,
        )),
    }
}

impl Part for ColumnOrder {
    ghost use Rattle.cql_tables.specs.Inner.TableReading.{column_order_at};

    ghost reads = { column_order_at };

    #[tactic(auto, unfolding(crate::specs::Inner::TableReading::column_order_at))]
    fn read(alloc: Global, input: &[Lexeme]) -> Result<(Self, &[Lexeme]), ParseFault> {
        let (name, rest) = name(alloc, input)?;
        if let Some(after) = after_word(rest, Keyword::Desc) {
            let descending = true;
            return Ok((ColumnOrder { name, descending }, after));
        }
        let descending = false;
        match after_word(rest, Keyword::Asc) {
            Some(after) => Ok((ColumnOrder { name, descending }, after)),
            None => Ok((ColumnOrder { name, descending }, rest)),
        }
    }
}
