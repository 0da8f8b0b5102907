//! Whether a statement changes something twice. What it changes is sorted where it is more than a few
//! names, so that this takes n log n steps for n changes.

ghost use Rattle.std.specs.Prelude.{◌≡◌, List, map, None, false, IfOk, OnOk};
ghost use Rattle.std.specs.List.Sorted.{IsPermutation, IsSorted};
ghost use Rattle.std.specs.Option.{option_copied, option_cmp};
ghost use Rattle.std.specs.Prelude.{if◌then◌else◌};
ghost use Rattle.cas_types.specs.Values.{bytes_cmp};
ghost use Rattle.cas_types.specs.declared.schema.Column.{Column};
ghost use Rattle.cas_terms.specs.Names.{any_two, stands_twice};
ghost use Rattle.cas_mentions.specs.Inner.Borrowed.{change_in};
ghost use Rattle.cas_mentions.specs.Inner.Spots.{Changed, in_spot, changed_in, constant_rank, bytes_in, number_in, constant_cmp};
ghost use Rattle.cas_mentions.specs.Inner.Spots.{spot_cmp, same_spot};
ghost use Rattle.cas_terms.specs.Inner.Beside.{first_passes, any_beside};
ghost use Rattle.cas_mentions.specs.ColumnFaults.{names_map, entry_key, change_the_same, changes_twice, has_other_count};
ghost use Rattle.cas_mentions.specs.Mentions.{assigns, deletes, changes_of};

use crate::change::RowChange;
use crate::entries::{are_other_entries, entry_key, names_map};
use cas_terms::{has_name, same_name};
use cas_types::{Column, Text, compare_bytes};
use cql_parse::{Assignment, Constant, Statement, Target};
use std::alloc::{AllocError, Global};
use std::cmp::Ordering;

/// So many names are compared each with each, which takes no memory; more are sorted.
const FEW: usize = 12;

/// What is changed: a column by its name, or, where there is a key, one entry of a map.
#[derive(Clone, Copy)]
pub(crate) struct Spot<'a> {
    name: &'a str,
    entry: Option<&'a Constant>,
}

// ---- the order of spots

fn rank(constant: &Constant) -> u8
    ensures { result ≡ constant_rank constant.now }
{
    match constant {
        Constant::Text(_) => 0,
        Constant::Number(_) => 1,
        Constant::Blob(_) => 2,
        Constant::Uuid(_) => 3,
        Constant::Boolean(_) => 4,
    }
}

fn bytes_in(constant: &Constant) -> &[u8]
    ensures { result.now ≡ bytes_in constant.now }
{
    match constant {
        Constant::Text(text) => text.as_str().as_bytes(),
        Constant::Number(_) => &[],
        Constant::Blob(bytes) => bytes.as_slice(),
        Constant::Uuid(uuid) => uuid,
        Constant::Boolean(_) => &[],
    }
}

fn number_in(constant: &Constant) -> i128
    ensures { result ≡ number_in constant.now }
{
    match constant {
        Constant::Number(number) => *number,
        Constant::Boolean(truth) => { if *truth { 1 } else { 0 } }
        Constant::Text(_) => 0,
        Constant::Blob(_) => 0,
        Constant::Uuid(_) => 0,
    }
}

fn cmp_constants(a: &Constant, b: &Constant) -> Ordering
    ensures { result ≡ constant_cmp a.now b.now }
{
    rank(a).cmp(&rank(b)).then(compare_bytes(bytes_in(a), bytes_in(b)).then(number_in(a).cmp(
        &number_in(b),
    )))
}

fn cmp_entries(a: Option<&Constant>, b: Option<&Constant>) -> Ordering
    ensures { result ≡ option_cmp constant_cmp (option_copied a.entry) (option_copied b.entry) }
{
    match (a, b) {
        (None, None) => Ordering::Equal,
        (None, Some(_)) => Ordering::Less,
        (Some(_), None) => Ordering::Greater,
        (Some(a), Some(b)) => cmp_constants(a, b),
    }
}

fn cmp_names(a: &str, b: &str) -> Ordering
    ensures { result ≡ bytes_cmp a.now b.now }
{
    compare_bytes(a.as_bytes(), b.as_bytes())
}

fn cmp_spots(a: &Spot<'_>, b: &Spot<'_>) -> Ordering
    ensures { result ≡ spot_cmp a.now b.now }
{
    cmp_names(a.name, b.name).then(cmp_entries(a.entry, b.entry))
}

fn same_spot(a: &Spot<'_>, b: &Spot<'_>) -> bool
    ensures { result ≡ same_spot a.now b.now }
{
    same_name(a.name, b.name) && !are_other_entries(a.entry, b.entry)
}

// ---- whether two are one

fn sort(spots: &mut Vec<Spot<'_>>) -> Result<(), AllocError>
    ensures same { IsPermutation spots.old.items spots.new.items }
    ensures sorted { OnOk result (IsSorted spot_cmp spots.new.items) }
{
    spots.sort_by(|a, b| cmp_spots(a, b))
}

fn first_is_same(spot: &Spot<'_>, others: &[Spot<'_>]) -> bool
    ensures { result ≡ first_passes (same_spot spot.now) others.now }
{
    match others {
        [] => false,
        [other, _others @ ..] => same_spot(spot, other),
    }
}

fn any_beside(spots: &[Spot<'_>]) -> bool
    ensures { result ≡ any_beside same_spot spots.now }
{
    let mut rest = spots;
    while let [spot, more @ ..] = rest {
        if first_is_same(spot, more) {
            return true;
        }
        rest = more;
    }
    false
}

fn any_two(mut spots: Vec<Spot<'_>>) -> Result<bool, AllocError>
    ensures { IfOk result (λ b. b ≡ any_two same_spot spots.entry.items) }
{
    sort(&mut spots)?;
    Ok(any_beside(spots.as_slice()))
}

// ---- what is changed

fn entry_in<'a>(columns: &[Column], name: &str, change: RowChange<'a>) -> Option<&'a Constant>
    ensures { option_copied result ≡ (if names_map columns.now name.now then entry_key (change_in change.entry) else None) }
{
    if names_map(columns, name) {
        entry_key(change)
    } else {
        None
    }
}

fn spot_of<'a>(columns: &[Column], name: &'a str, change: RowChange<'a>) -> Spot<'a>
    ensures { in_spot result ≡ changed_in columns.now (name.now, change_in change.entry) }
{
    Spot {
        name,
        entry: entry_in(columns, name, change),
    }
}

/// What a statement lists, each to change something.
trait Changes {
    /// What it changes of a table with these columns.
    ghost changed: { List Column → Self → Changed };

    fn spot(&self, columns: &[Column]) -> Spot<'_>
        ensures { in_spot result ≡ changed columns.now self.now };
}

impl Changes for Text {
    ghost changed = { λ cs n. (n, None) };

    fn spot(&self, _columns: &[Column]) -> Spot<'_> {
        Spot {
            name: self.as_str(),
            entry: None,
        }
    }
}

impl Changes for Assignment {
    ghost changed = { λ cs a. changed_in cs (a.column, assigns a.value) };

    fn spot(&self, columns: &[Column]) -> Spot<'_> {
        let change = RowChange::Assign(&self.value);
        spot_of(columns, self.column.as_str(), change)
    }
}

impl Changes for Target {
    ghost changed = { λ cs t. changed_in cs (t.column, deletes t.key) };

    fn spot(&self, columns: &[Column]) -> Spot<'_> {
        let change = RowChange::Delete(&self.key);
        spot_of(columns, self.column.as_str(), change)
    }
}

fn spots<'a, T: Changes>(
    alloc: Global,
    columns: &[Column],
    items: &'a [T],
) -> Result<Vec<Spot<'a>>, AllocError>
    ensures { IfOk result (λ v. map in_spot v.items ≡ map (T.changed columns.now) items.now) }
{
    let mut spots = Vec::with_capacity(alloc, items.len())?;
    for item in items {
        spots.push(item.spot(columns))?;
    }
    Ok(spots)
}

// ---- what is changed twice

/// Whether a name stands twice, each compared with those after it.
fn repeats(names: &[Text]) -> bool
    ensures { result ≡ stands_twice names.now }
{
    match names {
        [] => false,
        [name, more @ ..] => has_name(more, name.as_str()) || repeats(more),
    }
}

fn repeats_among_many(alloc: Global, names: &[Text]) -> Result<bool, AllocError>
    ensures { IfOk result (λ b. b ≡ stands_twice names.now) }
{
    any_two(spots(alloc, &[], names)?)
}

/// Whether a name stands twice.
pub fn named_twice(alloc: Global, names: &[Text]) -> Result<bool, AllocError>
    ensures { IfOk result (λ b. b ≡ stands_twice names.now) }
{
    if names.len() <= FEW {
        Ok(repeats(names))
    } else {
        repeats_among_many(alloc, names)
    }
}

fn assigned_twice(
    alloc: Global,
    columns: &[Column],
    assignments: &[Assignment],
) -> Result<bool, AllocError>
    ensures { IfOk result (λ b. b ≡ any_two (λ a b. change_the_same columns.now (a.column, assigns a.value) (b.column, assigns b.value)) assignments.now) }
{
    any_two(spots(alloc, columns, assignments)?)
}

fn deleted_twice(alloc: Global, columns: &[Column], targets: &[Target]) -> Result<bool, AllocError>
    ensures { IfOk result (λ b. b ≡ any_two (λ a b. change_the_same columns.now (a.column, deletes a.key) (b.column, deletes b.key)) targets.now) }
{
    any_two(spots(alloc, columns, targets)?)
}

/// Whether the statement changes something twice. Of an INSERT there is a value to each column.
#[tactic(auto, using(crate::proofs::Changed::two_mapped, crate::proofs::Changed::two_inserted), unfolding(crate::specs::Mentions::changes_of))]
pub fn changes_twice(
    alloc: Global,
    columns: &[Column],
    statement: &Statement,
) -> Result<bool, AllocError>
    requires { has_other_count statement.now ≡ false }
    ensures { IfOk result (λ b. b ≡ changes_twice columns.now (changes_of statement.now)) }
{
    match statement {
        Statement::Insert(insert) => named_twice(alloc, insert.columns.as_slice()),
        Statement::Update(update) => assigned_twice(alloc, columns, update.assignments.as_slice()),
        Statement::Delete(delete) => deleted_twice(alloc, columns, delete.targets.as_slice()),
        Statement::Create(_) | Statement::Alter(_) | Statement::Select(_) => Ok(false),
    }
}
