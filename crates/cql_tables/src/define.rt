//! CREATE TABLE and ALTER TABLE, each after its first word.

ghost use Rattle.std.specs.Prelude.{◌≡◌, [], option_map};
ghost use Rattle.cql_phrases.specs.Inner.Reading.{Gives};
ghost use Rattle.cql_tables.specs.Inner.TableReading.{first_type_of, native_at, one_in_angles, two_in_angles, type_at, key_flag, names_closed};
ghost use Rattle.cql_tables.specs.Inner.TableReading.{partition_at, key_at, suboptions_closed, option_value_at, named_option_at, after_words};
ghost use Rattle.cql_tables.specs.Inner.TableReading.{clustering_order_at, create_at, alter_at};

use crate::clauses::table;
use crate::syntax::{
    AddedColumn, AlterTable, ColumnOrder, ColumnType, CreateTable, DefinedColumn, Item,
    NamedOption, OptionValue, PrimaryKey, Suboption, TableOption,
};
use cas_types::{List, Text, TypeTag};
use cql_lex::Mark;
use cql_phrases::front::{after_mark, after_word, close_brace, flag, mark, name, word};
use cql_phrases::lists::{Part, Separator, in_parens, list, list_behind, list_from, only};
use cql_phrases::terms::{constant, setting};
use cql_phrases::{Keyword, Lexeme, ParseFault};
use std::alloc::Global;

/// The words of the types.
const NATIVES: [(Keyword, TypeTag); 14] = [
    (Keyword::Ascii, TypeTag::Ascii),
    (Keyword::BigInt, TypeTag::BigInt),
    (Keyword::Blob, TypeTag::Blob),
    (Keyword::Boolean, TypeTag::Boolean),
    (Keyword::Date, TypeTag::Date),
    (Keyword::Int, TypeTag::Int),
    (Keyword::SmallInt, TypeTag::SmallInt),
    (Keyword::Text, TypeTag::Text),
    (Keyword::Time, TypeTag::Time),
    (Keyword::Timestamp, TypeTag::Timestamp),
    (Keyword::TimeUuid, TypeTag::TimeUuid),
    (Keyword::TinyInt, TypeTag::TinyInt),
    (Keyword::Uuid, TypeTag::Uuid),
    (Keyword::VarChar, TypeTag::Text),
];

/// The type of the first of the table's words that stands here. The table is of a fixed length.
#[tactic(auto, unfolding(crate::specs::Inner::TableReading::first_type_of))]
fn first_type_of<'a>(
    table: &[(Keyword, TypeTag)],
    input: &'a [Lexeme],
) -> Result<(TypeTag, &'a [Lexeme]), ParseFault>
    ensures { Gives (λ x. (x.0, x.1.now)) result (first_type_of table.now input.now) }
{
    match table {
        [] => Err(ParseFault::Syntax),
        [(keyword, tag), others @ ..] => match after_word(input, *keyword) {
            Some(rest) => Ok((*tag, rest)),
            None => first_type_of(others, input),
        },
    }
}

#[tactic(auto, unfolding(crate::specs::Inner::TableReading::native_at))]
fn native(input: &[Lexeme]) -> Result<(TypeTag, &[Lexeme]), ParseFault>
    ensures { Gives (λ x. (x.0, x.1.now)) result (native_at input.now) }
{
    first_type_of(&NATIVES, input)
}

#[tactic(auto, unfolding(crate::specs::Inner::TableReading::one_in_angles))]
fn one_in_angles(input: &[Lexeme]) -> Result<(TypeTag, &[Lexeme]), ParseFault>
    ensures { Gives (λ x. (x.0, x.1.now)) result (one_in_angles input.now) }
{
    let rest = mark(input, Mark::Less)?;
    let (tag, rest) = native(rest)?;
    let rest = mark(rest, Mark::Greater)?;
    Ok((tag, rest))
}

#[tactic(auto, unfolding(crate::specs::Inner::TableReading::two_in_angles))]
fn two_in_angles(input: &[Lexeme]) -> Result<(ColumnType, &[Lexeme]), ParseFault>
    ensures { Gives (λ x. (x.0, x.1.now)) result (two_in_angles input.now) }
{
    let rest = mark(input, Mark::Less)?;
    let (key, rest) = native(rest)?;
    let rest = mark(rest, Mark::Comma)?;
    let (value, rest) = native(rest)?;
    let rest = mark(rest, Mark::Greater)?;
    Ok((ColumnType::MapOf(key, value), rest))
}

#[tactic(auto, unfolding(crate::specs::Inner::TableReading::type_at))]
fn column_type(input: &[Lexeme]) -> Result<(ColumnType, &[Lexeme]), ParseFault>
    ensures { Gives (λ x. (x.0, x.1.now)) result (type_at input.now) }
{
    if let Some(rest) = after_word(input, Keyword::Set) {
        let (tag, rest) = one_in_angles(rest)?;
        return Ok((ColumnType::SetOf(tag), rest));
    }
    if let Some(rest) = after_word(input, Keyword::List) {
        let (tag, rest) = one_in_angles(rest)?;
        return Ok((ColumnType::ListOf(tag), rest));
    }
    if let Some(rest) = after_word(input, Keyword::Map) {
        return two_in_angles(rest);
    }
    let (tag, rest) = native(input)?;
    Ok((ColumnType::One(tag), rest))
}

/// Whether PRIMARY KEY stands after a column.
#[tactic(auto, unfolding(crate::specs::Inner::TableReading::key_flag))]
fn key_flag(input: &[Lexeme]) -> Result<(bool, &[Lexeme]), ParseFault>
    ensures { Gives (λ x. (x.0, x.1.now)) result (key_flag input.now) }
{
    match after_word(input, Keyword::Primary) {
        Some(after) => {
            let rest = word(after, Keyword::Key)?;
            Ok((true, rest))
        }
        None => Ok((false, input)),
    }
}

impl Part for DefinedColumn {
    ghost use Rattle.cql_tables.specs.Inner.TableReading.{defined_at};

    ghost reads = { defined_at };

    #[tactic(auto, unfolding(crate::specs::Inner::TableReading::defined_at))]
    fn read(alloc: Global, input: &[Lexeme]) -> Result<(Self, &[Lexeme]), ParseFault> {
        let (name, rest) = name(alloc, input)?;
        let (column_type, rest) = column_type(rest)?;
        let (is_static, rest) = flag(rest, Keyword::Static);
        let (is_key, rest) = key_flag(rest)?;
        let column = DefinedColumn {
            name,
            column_type,
            is_static,
            is_key,
        };
        Ok((column, rest))
    }
}

impl Part for AddedColumn {
    ghost use Rattle.cql_tables.specs.Inner.TableReading.{added_at};

    ghost reads = { added_at };

    #[tactic(auto, unfolding(crate::specs::Inner::TableReading::added_at))]
    fn read(alloc: Global, input: &[Lexeme]) -> Result<(Self, &[Lexeme]), ParseFault> {
        let (name, rest) = name(alloc, input)?;
        let (column_type, rest) = column_type(rest)?;
        let (is_static, rest) = flag(rest, Keyword::Static);
        let column = AddedColumn {
            name,
            column_type,
            is_static,
        };
        Ok((column, rest))
    }
}

/// Names, and the closing parenthesis.
#[tactic(auto, unfolding(crate::specs::Inner::TableReading::names_closed))]
fn names_closed(alloc: Global, input: &[Lexeme]) -> Result<(List<Text>, &[Lexeme]), ParseFault>
    ensures { Gives (λ x. (x.0, x.1.now)) result (names_closed input.now) }
{
    let (names, rest) = list::<Text>(alloc, Separator::Comma, input)?;
    let rest = mark(rest, Mark::CloseParen)?;
    Ok((names, rest))
}

/// The columns of a partition key: one name, or some in parentheses.
#[tactic(auto, unfolding(crate::specs::Inner::TableReading::partition_at))]
fn partition(alloc: Global, input: &[Lexeme]) -> Result<(List<Text>, &[Lexeme]), ParseFault>
    ensures { Gives (λ x. (x.0, x.1.now)) result (partition_at input.now) }
{
    match after_mark(input, Mark::OpenParen) {
        Some(rest) => names_closed(alloc, rest),
        None => {
            let (name, rest) = name(alloc, input)?;
            Ok((List::from_vec(only(alloc, name)?), rest))
        }
    }
}

/// What follows PRIMARY.
#[tactic(auto, unfolding(crate::specs::Inner::TableReading::key_at))]
fn primary_key(alloc: Global, input: &[Lexeme]) -> Result<(PrimaryKey, &[Lexeme]), ParseFault>
    ensures { Gives (λ x. (x.0, x.1.now)) result (key_at input.now) }
{
    let rest = word(input, Keyword::Key)?;
    let rest = mark(rest, Mark::OpenParen)?;
    let (partition, rest) = partition(alloc, rest)?;
    let (clustering, rest) = list_from::<Text>(alloc, Separator::Comma, Vec::new(alloc), rest)?;
    let rest = mark(rest, Mark::CloseParen)?;
    let key = PrimaryKey {
        partition,
        clustering,
    };
    Ok((key, rest))
}

impl Part for Item {
    ghost use Rattle.cql_tables.specs.Inner.TableReading.{item_at};

    ghost reads = { item_at };

    #[tactic(auto, unfolding(crate::specs::Inner::TableReading::item_at))]
    fn read(alloc: Global, input: &[Lexeme]) -> Result<(Self, &[Lexeme]), ParseFault> {
        match after_word(input, Keyword::Primary) {
            Some(rest) => {
                let (key, rest) = primary_key(alloc, rest)?;
                Ok((Item::PrimaryKey(key), rest))
            }
            None => {
                let (column, rest) = DefinedColumn::read(alloc, input)?;
                Ok((Item::Column(column), rest))
            }
        }
    }
}

impl Part for Suboption {
    ghost use Rattle.cql_tables.specs.Inner.TableReading.{suboption_at};

    ghost reads = { suboption_at };

    #[tactic(auto, unfolding(crate::specs::Inner::TableReading::suboption_at))]
    fn read(alloc: Global, input: &[Lexeme]) -> Result<(Self, &[Lexeme]), ParseFault> {
        let (key, rest) = setting(alloc, input)?;
        let rest = mark(rest, Mark::Colon)?;
        let (value, rest) = setting(alloc, rest)?;
        Ok((Suboption { key, value }, rest))
    }
}

/// What follows the opening brace of an option's map.
#[tactic(auto, unfolding(crate::specs::Inner::TableReading::suboptions_closed))]
fn suboptions_closed(
    alloc: Global,
    input: &[Lexeme],
) -> Result<(OptionValue, &[Lexeme]), ParseFault>
    ensures { Gives (λ x. (x.0, x.1.now)) result (suboptions_closed input.now) }
{
    let (all, rest) = list::<Suboption>(alloc, Separator::Comma, input)?;
    let rest = close_brace(rest)?;
    Ok((OptionValue::Suboptions(all), rest))
}

#[tactic(auto, unfolding(crate::specs::Inner::TableReading::option_value_at))]
fn option_value(alloc: Global, input: &[Lexeme]) -> Result<(OptionValue, &[Lexeme]), ParseFault>
    ensures { Gives (λ x. (x.0, x.1.now)) result (option_value_at input.now) }
{
    match input {
        [] => Err(ParseFault::Syntax),
        [Lexeme::Ratio(n), rest @ ..] => Ok((OptionValue::Ratio(*n), rest)),
        [Lexeme::OpenBrace(_at), rest @ ..] => suboptions_closed(alloc, rest),
        [_first, _rest @ ..] => {
            let (value, rest) = constant(alloc, input)?;
            Ok((OptionValue::Constant(value), rest))
        }
    }
}

#[tactic(auto, unfolding(crate::specs::Inner::TableReading::named_option_at))]
fn named_option_at(alloc: Global, input: &[Lexeme]) -> Result<(TableOption, &[Lexeme]), ParseFault>
    ensures { Gives (λ x. (x.0, x.1.now)) result (named_option_at input.now) }
{
    let (name, rest) = name(alloc, input)?;
    let rest = mark(rest, Mark::Equals)?;
    let (value, rest) = option_value(alloc, rest)?;
    Ok((TableOption::Named(NamedOption { name, value }), rest))
}

/// What follows two words, where they stand first.
#[tactic(auto, unfolding(crate::specs::Inner::TableReading::after_words))]
fn after_words(input: &[Lexeme], first: Keyword, second: Keyword) -> Option<&[Lexeme]>
    ensures { option_map (λ r. r.now) result ≡ after_words first second input.now }
{
    match after_word(input, first) {
        Some(rest) => after_word(rest, second),
        None => None,
    }
}

/// What follows CLUSTERING ORDER.
#[tactic(auto, unfolding(crate::specs::Inner::TableReading::clustering_order_at))]
fn clustering_order_at(
    alloc: Global,
    input: &[Lexeme],
) -> Result<(TableOption, &[Lexeme]), ParseFault>
    ensures { Gives (λ x. (x.0, x.1.now)) result (clustering_order_at input.now) }
{
    let rest = word(input, Keyword::By)?;
    let (columns, rest) = in_parens::<ColumnOrder>(alloc, rest)?;
    Ok((TableOption::ClusteringOrder(columns), rest))
}

impl Part for TableOption {
    ghost use Rattle.cql_tables.specs.Inner.TableReading.{option_at};

    ghost reads = { option_at };

    #[tactic(auto, unfolding(crate::specs::Inner::TableReading::option_at))]
    fn read(alloc: Global, input: &[Lexeme]) -> Result<(Self, &[Lexeme]), ParseFault> {
        match after_words(input, Keyword::Clustering, Keyword::Order) {
            Some(rest) => clustering_order_at(alloc, rest),
            None => named_option_at(alloc, input),
        }
    }
}

/// What follows CREATE.
#[tactic(auto, unfolding(crate::specs::Inner::TableReading::create_at))]
pub fn create(alloc: Global, input: &[Lexeme]) -> Result<(CreateTable, &[Lexeme]), ParseFault>
    ensures { Gives (λ x. (x.0, x.1.now)) result (create_at input.now) }
{
    let rest = word(input, Keyword::Table)?;
    let (table, rest) = table(alloc, rest)?;
    let (items, rest) = in_parens::<Item>(alloc, rest)?;
    let (options, rest) = list_behind::<TableOption>(alloc, Keyword::With, Separator::And, rest)?;
    let create = CreateTable {
        table,
        items,
        options,
    };
    Ok((create, rest))
}

/// What follows ALTER.
#[tactic(auto, unfolding(crate::specs::Inner::TableReading::alter_at))]
pub fn alter(alloc: Global, input: &[Lexeme]) -> Result<(AlterTable, &[Lexeme]), ParseFault>
    ensures { Gives (λ x. (x.0, x.1.now)) result (alter_at input.now) }
{
    let rest = word(input, Keyword::Table)?;
    let (table, rest) = table(alloc, rest)?;
    let rest = word(rest, Keyword::Add)?;
    let (added, rest) = list::<AddedColumn>(alloc, Separator::Comma, rest)?;
    Ok((AlterTable { table, added }, rest))
}
