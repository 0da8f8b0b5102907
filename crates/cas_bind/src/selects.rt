//! What a SELECT shows of each row, by the numbers of the columns.

ghost use Rattle.std.specs.Prelude.{◌≡◌, ◌≤◌, ◌+◌, ◌++◌, length, map, filter, IfOk, OnOk};
ghost use Rattle.std.specs.List.{enumerate_from, position_or_len};
ghost use Rattle.std.specs.Str.{bytes_eq};
ghost use Rattle.std.specs.BTreeMap.{insert_entry};
ghost use Rattle.cas_types.specs.Limits.{IsNarrow};
ghost use Rattle.cas_types.specs.Values.{bytes_cmp};
ghost use Rattle.cas_atoms.specs.declared.query.Pick.TheVariants as asked;
ghost use Rattle.cas_bind.specs.Inner.Parts.{is_of_part};
ghost use Rattle.cas_bind.specs.Selects.{by_name, named_numbers, key_numbers, all_numbers, number_named, asked_of, asked_by};

use cas_atoms::Pick as Asked;
use cas_terms::same_name;
use cas_types::{Bytes, Column, Kind, List};
use cql_parse::{Pick, Picks};
use std::alloc::{AllocError, Global};
use std::collections::BTreeMap;

fn number_from(number: u16, columns: &[Column], name: &str) -> u16
    requires { number + length columns.now ≤ 65535 }
    ensures { result ≡ number + position_or_len (λ c. bytes_eq c.name name.now) columns.now }
{
    match columns {
        [] => number,
        [column, rest @ ..] => {
            if same_name(column.name.as_str(), name) {
                number
            } else {
                number_from(number + 1, rest, name)
            }
        }
    }
}

#[tactic(auto, unfolding(crate::specs::Selects::number_named))]
fn number_named(columns: &[Column], name: &str) -> u16
    requires { IsNarrow columns.now }
    ensures { result ≡ number_named columns.now name.now }
{
    number_from(0, columns, name)
}

#[tactic(auto, unfolding(crate::specs::Selects::asked_of))]
fn asked_of(columns: &[Column], pick: &Pick) -> Asked
    requires { IsNarrow columns.now }
    ensures { result ≡ asked_of columns.now pick.now }
{
    match pick {
        Pick::Value(name) => Asked::Value(number_named(columns, name.as_str())),
        Pick::WriteTime(name) => Asked::WriteTime(number_named(columns, name.as_str())),
        Pick::Ttl(name) => Asked::Ttl(number_named(columns, name.as_str())),
    }
}

fn asked_of_each(
    alloc: Global,
    columns: &[Column],
    picks: &[Pick],
) -> Result<Vec<Asked>, AllocError>
    requires { IsNarrow columns.now }
    ensures { IfOk result (λ v. v.items ≡ map (asked_of columns.now) picks.now) }
{
    picks.iter().map(|p| asked_of(columns, p)).collect(alloc)
}

/// The columns of `*` come in four parts.
#[derive(Clone, Copy)]
pub(crate) enum Part {
    Partition,
    Clustering,
    Static,
    Regular,
}

fn is_of_part(part: Part, kind: Kind) -> bool
    ensures { result ≡ is_of_part part kind }
{
    match part {
        Part::Partition => kind.is_partition(),
        Part::Clustering => kind.is_clustering(),
        Part::Static => kind.is_static(),
        Part::Regular => kind.is_regular(),
    }
}

fn push_numbers(
    part: Part,
    number: u16,
    columns: &[Column],
    numbers: &mut Vec<u16>,
) -> Result<(), AllocError>
    requires { number + length columns.now ≤ 65535 }
    ensures { OnOk result (numbers.new.items ≡ numbers.old.items
        ++ map (λ p. p.0) (filter (λ p. is_of_part part p.1.kind) (enumerate_from number columns.now))) }
{
    match columns {
        [] => Ok(()),
        [column, rest @ ..] => {
            if is_of_part(part, column.kind) {
                numbers.push(number)?;
            }
            push_numbers(part, number + 1, rest, numbers)
        }
    }
}

fn put_name(
    alloc: Global,
    names: &mut BTreeMap<Bytes, u16>,
    column: &Column,
    number: u16,
) -> Result<(), AllocError>
    ensures { OnOk result (names.new.entries ≡ insert_entry bytes_cmp names.old.entries column.now.name number) }
{
    let name = Bytes::copy_of(alloc, column.name.as_str().as_bytes())?;
    names.insert(name, number)?;
    Ok(())
}

fn names_of(
    alloc: Global,
    part: Part,
    number: u16,
    columns: &[Column],
) -> Result<BTreeMap<Bytes, u16>, AllocError>
    requires { number + length columns.now ≤ 65535 }
    ensures { IfOk result (λ m. m.entries ≡ by_name (filter (λ p. is_of_part part p.1.kind) (enumerate_from number columns.now))) }
{
    match columns {
        [] => Ok(BTreeMap::new(alloc)),
        [column, rest @ ..] => {
            let mut names = names_of(alloc, part, number + 1, rest)?;
            if is_of_part(part, column.kind) {
                put_name(alloc, &mut names, column, number)?;
            }
            Ok(names)
        }
    }
}

fn numbers_in(alloc: Global, names: BTreeMap<Bytes, u16>) -> Result<Vec<u16>, AllocError>
    ensures { IfOk result (λ v. v.items ≡ map (λ e. e.1) names.entries) }
{
    names.into_iter().map(|e| e.1).collect(alloc)
}

#[tactic(auto, unfolding(crate::specs::Selects::named_numbers))]
fn named_numbers(alloc: Global, part: Part, columns: &[Column]) -> Result<Vec<u16>, AllocError>
    requires { IsNarrow columns.now }
    ensures { IfOk result (λ v. v.items ≡ named_numbers (is_of_part part) columns.now) }
{
    let names = names_of(alloc, part, 0, columns)?;
    numbers_in(alloc, names)
}

#[tactic(auto, unfolding(crate::specs::Selects::key_numbers))]
fn key_numbers(alloc: Global, columns: &[Column]) -> Result<Vec<u16>, AllocError>
    requires { IsNarrow columns.now }
    ensures { IfOk result (λ v. v.items ≡ key_numbers columns.now) }
{
    let mut numbers = Vec::new(alloc);
    push_numbers(Part::Partition, 0, columns, &mut numbers)?;
    push_numbers(Part::Clustering, 0, columns, &mut numbers)?;
    Ok(numbers)
}

// The columns of `*`: those of the primary key, then the static ones and then the others by name.
#[tactic(auto, unfolding(crate::specs::Selects::all_numbers))]
fn all_numbers(alloc: Global, columns: &[Column]) -> Result<Vec<u16>, AllocError>
    requires { IsNarrow columns.now }
    ensures { IfOk result (λ v. v.items ≡ all_numbers columns.now) }
{
    let mut numbers = key_numbers(alloc, columns)?;
    numbers.extend_from_slice(&named_numbers(alloc, Part::Static, columns)?)?;
    numbers.extend_from_slice(&named_numbers(alloc, Part::Regular, columns)?)?;
    Ok(numbers)
}

fn values_asked(alloc: Global, numbers: &[u16]) -> Result<Vec<Asked>, AllocError>
    ensures { IfOk result (λ v. v.items ≡ map (λ n. asked.Value n) numbers.now) }
{
    numbers.iter().map(|n| Asked::Value(*n)).collect(alloc)
}

/// What a SELECT asks of each row, by the numbers of the columns.
#[tactic(auto, unfolding(crate::specs::Selects::asked_by))]
pub(crate) fn asked_by(
    alloc: Global,
    columns: &[Column],
    picks: &Picks,
) -> Result<List<Asked>, AllocError>
    requires { IsNarrow columns.now }
    ensures { IfOk result (λ l. l ≡ asked_by columns.now picks.now) }
{
    match picks {
        Picks::All => {
            let numbers = all_numbers(alloc, columns)?;
            Ok(List::from_vec(values_asked(alloc, &numbers)?))
        }
        Picks::These(picks) => {
            Ok(List::from_vec(asked_of_each(alloc, columns, picks.as_slice())?))
        }
    }
}
