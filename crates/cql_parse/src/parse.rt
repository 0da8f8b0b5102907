//! A whole statement.

ghost use Rattle.std.specs.Prelude.{◌≡◌, Err, IfOk, Option};
ghost use Rattle.cql_phrases.specs.Inner.Reading.{Gives};
ghost use Rattle.cql_parse.specs.Inner.StatementReading.{definition_at, change_at, statement_at, semicolon_at, whole_statement, statement_of};
ghost use Rattle.cql_parse.specs.Means.{Means, IsAnswer, LineMeans, OneStatement};
ghost use Rattle.cql_phrases.specs.declared.fault.ParseFault.TheVariants as faults;
ghost use Rattle.cql_parse.specs.declared.syntax.Statement.{Statement};

use crate::select::select;
use crate::syntax::Statement;
use cql_changes::changes::{delete, insert, update};
use cql_lex::{Mark, Token};
use cql_phrases::front::{after_mark, after_word};
use cql_phrases::lexemes::{lexemes, line_lexemes};
use cql_phrases::{Keyword, Lexeme, ParseFault};
use cql_tables::define::{alter, create};
use std::alloc::Global;
use std::mem::drop;

#[tactic(auto, unfolding(crate::specs::Inner::StatementReading::definition_at))]
fn definition(alloc: Global, input: &[Lexeme]) -> Result<(Statement, &[Lexeme]), ParseFault>
    ensures { Gives (λ x. (x.0, x.1.now)) result (definition_at input.now) }
{
    if let Some(rest) = after_word(input, Keyword::Create) {
        let (create, rest) = create(alloc, rest)?;
        return Ok((Statement::Create(create), rest));
    }
    match after_word(input, Keyword::Alter) {
        Some(rest) => {
            let (alter, rest) = alter(alloc, rest)?;
            Ok((Statement::Alter(alter), rest))
        }
        None => Err(ParseFault::Syntax),
    }
}

#[tactic(auto, unfolding(crate::specs::Inner::StatementReading::change_at))]
fn change(alloc: Global, input: &[Lexeme]) -> Result<(Statement, &[Lexeme]), ParseFault>
    ensures { Gives (λ x. (x.0, x.1.now)) result (change_at input.now) }
{
    if let Some(rest) = after_word(input, Keyword::Insert) {
        let (insert, rest) = insert(alloc, rest)?;
        return Ok((Statement::Insert(insert), rest));
    }
    if let Some(rest) = after_word(input, Keyword::Update) {
        let (update, rest) = update(alloc, rest)?;
        return Ok((Statement::Update(update), rest));
    }
    if let Some(rest) = after_word(input, Keyword::Delete) {
        let (delete, rest) = delete(alloc, rest)?;
        return Ok((Statement::Delete(delete), rest));
    }
    definition(alloc, input)
}

#[tactic(auto, unfolding(crate::specs::Inner::StatementReading::statement_at))]
fn any(alloc: Global, input: &[Lexeme]) -> Result<(Statement, &[Lexeme]), ParseFault>
    ensures { Gives (λ x. (x.0, x.1.now)) result (statement_at input.now) }
{
    if let Some(rest) = after_word(input, Keyword::Select) {
        let (select, rest) = select(alloc, rest)?;
        return Ok((Statement::Select(select), rest));
    }
    change(alloc, input)
}

#[tactic(auto, unfolding(crate::specs::Inner::StatementReading::semicolon_at))]
fn after_semicolon(input: &[Lexeme]) -> &[Lexeme]
    ensures { semicolon_at input.now ≡ Some (tt, result.now) }
{
    match after_mark(input, Mark::Semicolon) {
        Some(rest) => rest,
        None => input,
    }
}

/// The statement that the lexemes spell, all of them.
#[tactic(auto, unfolding(crate::specs::Inner::StatementReading::whole_statement))]
fn whole_statement(alloc: Global, input: &[Lexeme]) -> Result<Statement, ParseFault>
    ensures { Gives (λ s. s) result (whole_statement input.now) }
{
    let (statement, rest) = any(alloc, input)?;
    match after_semicolon(rest) {
        [] => Ok(statement),
        [_first, _rest @ ..] => {
            drop(statement);
            Err(ParseFault::Syntax)
        }
    }
}

#[tactic(auto, unfolding(crate::specs::Inner::StatementReading::statement_of))]
fn parsed(alloc: Global, tokens: &[Token], source: &str) -> Result<Statement, ParseFault>
    ensures { Gives (λ s. s) result (statement_of source.now tokens.now) }
{
    let lexemes = lexemes(alloc, tokens, source.as_bytes())?;
    whole_statement(alloc, &lexemes)
}

/// The statement that the tokens of the source spell, all of them. A literal within a literal is
/// kept as its span.
pub fn statement(alloc: Global, tokens: &[Token], source: &str) -> Result<Statement, ParseFault>
    // What is read is in the grammar, and is this statement.
    ensures found { IfOk result (λ s. Means source.now tokens.now s) }
    // What is in the grammar is read, as the one statement that it spells.
    ensures only { (s : Statement) → Means source.now tokens.now s → IsAnswer s result }
{
    parsed(alloc, tokens, source)
}

/// The statement that a line spells; none where it has no tokens.
pub fn line_statement(alloc: Global, source: &str) -> Result<Option<Statement>, ParseFault>
    // What is read is what the line means,
    ensures found { IfOk result (λ read. LineMeans source.now read) }
    // and a line that is refused means nothing.
    ensures refused { result ≡ Err faults.Syntax → (read : Option Statement) → LineMeans source.now read → ⊥ }
{
    let lexemes = line_lexemes(alloc, source)?;
    match lexemes.as_slice() {
        [] => Ok(None),
        [_first, ..] => Ok(Some(whole_statement(alloc, &lexemes)?)),
    }
}

/// Tokens spell at most one statement.
pub fn one_statement()
    ensures { OneStatement }
{}
