//! The name of a table as a word of a command.

ghost use Rattle.std.specs.Prelude.{◌≡◌, length, IfOk};
ghost use Rattle.cql_lex.specs.Lexes.{Lexes};
ghost use Rattle.cql_phrases.specs.Inner.Reading.{Gives};
ghost use Rattle.cql_tables.specs.Inner.TableReading.{table_alone, table_of};
ghost use Rattle.cql_tables.specs.TableNames.{IsAnswer};
ghost use Rattle.cql_tables.specs.TableNames.{are_joined, SpellsTable, OneTable};
ghost use Rattle.cql_tables.specs.declared.syntax.TableName.{TableName};

use crate::clauses::table;
use crate::syntax::TableName;
use cql_lex::{LexFault, Token, tokens};
use cql_phrases::lexemes::lexemes;
use cql_phrases::{Lexeme, ParseFault};
use std::alloc::Global;

/// Whether the tokens stand side by side and fill a text of this length.
fn are_joined(tokens: &[Token], length: usize) -> bool
    ensures { result ≡ are_joined 0 tokens.now length }
{
    let mut end = 0;
    for token in tokens {
        if token.start != end {
            return false;
        }
        end = token.end;
    }
    end == length
}

/// The table whose name the lexemes are, all of them.
#[tactic(auto, unfolding(crate::specs::Inner::TableReading::table_alone))]
fn table_alone(alloc: Global, input: &[Lexeme]) -> Result<TableName, ParseFault>
    ensures { Gives (λ t. t) result (table_alone input.now) }
{
    let (table, rest) = table(alloc, input)?;
    match rest {
        [] => Ok(table),
        [_first, _rest @ ..] => Err(ParseFault::Syntax),
    }
}

#[tactic(auto, unfolding(crate::specs::Inner::TableReading::table_of))]
fn table_of(alloc: Global, tokens: &[Token], word: &[u8]) -> Result<TableName, ParseFault>
    ensures { Gives (λ t. t) result (table_of word.now tokens.now) }
{
    if !are_joined(tokens, word.len()) {
        return Err(ParseFault::Syntax);
    }
    let lexemes = lexemes(alloc, tokens, word)?;
    table_alone(alloc, &lexemes)
}

/// The table whose name the word is: a name or two with a point between, each of which may be in
/// quotes. It is refused as syntax where anything else stands in the word, as a blank, a comment or a
/// semicolon.
pub fn table_name(alloc: Global, word: &str) -> Result<TableName, ParseFault>
    // What is read is spelt so,
    ensures found { IfOk result (λ t. SpellsTable word.now t) }
    // and what is spelt so is read, as the one table that it is.
    ensures only { (t : TableName) → SpellsTable word.now t → IsAnswer t result }
{
    match tokens(alloc, word) {
        Ok(tokens) => table_of(alloc, &tokens, word.as_bytes()),
        Err(LexFault::Syntax) => Err(ParseFault::Syntax),
        Err(LexFault::Mem) => Err(ParseFault::Mem),
    }
}

/// A word spells at most one table.
pub fn one_table()
    ensures { OneTable }
{}
