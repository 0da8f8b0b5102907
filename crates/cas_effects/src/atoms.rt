//! The atoms of a mutation.

ghost use Rattle.std.specs.Prelude.{◌≡◌, ◌≤◌, ◌≤ℤ◌, List, [], ◌∷◌, ◌++◌, map, Some, unwrap_or, IfOk, OnOk};
ghost use Rattle.std.specs.List.{enumerate_from, flat_map};
ghost use Rattle.std.specs.Ordering.{is_lt};
ghost use Rattle.cas_bounds.specs.Cuts.{cut_cmp};
ghost use Rattle.cas_types.specs.declared.limits.TheConstants.{LAST_SECOND, LEAST_TIMESTAMP};
ghost use Rattle.cas_effects.specs.declared.effect.Effect.TheVariants as effects;
ghost use Rattle.cas_effects.specs.declared.stamped.TheConstants.{NUMBER_LIMIT};
ghost use Rattle.cas_effects.specs.AtomsOf.{write_at, emptied_at, list_path, placed_at, placed, element_atom, element_atoms, effect_atoms};
ghost use Rattle.cas_effects.specs.AtomsOf.{deletion_before, stamp_of, mutation_of};

use crate::effect::{BoundWrite, Effect, Elements};
use crate::stamped::{Stamp, cell_of, deletion_before, deletion_of, liveness};
use cas_atoms::{Atom, ColumnRef, Mutation};
use cas_bounds::{Clustering, Cut, RowOrder, cmp_cut};
use cas_cell::{Cell, Deletion};
use cas_types::{Bytes, List, Mem};
use std::alloc::{AllocError, Global};
use std::mem::drop;

/// The order number in the middle of a list: values are appended after it, and prepended before it.
const LIST_MIDDLE: u64 = 1 << 63;

fn write_at(row: Option<Clustering>, column: ColumnRef, path: Bytes, cell: Cell) -> Atom
    ensures { result ≡ write_at row column path cell }
{
    match row {
        Some(row) => Atom::Write(row, column, path, cell),
        None => Atom::StaticWrite(column, path, cell),
    }
}

fn emptied_at(row: Option<Clustering>, column: ColumnRef, deletion: Deletion) -> Atom
    ensures { result ≡ emptied_at row column deletion }
{
    match row {
        Some(row) => Atom::CollectionDeletion(row, column, deletion),
        None => Atom::StaticCollectionDeletion(column, deletion),
    }
}

fn copied_row(row: &Option<Clustering>) -> Result<Option<Clustering>, AllocError>
    ensures { IfOk result (λ r. r ≡ row.now) }
{
    match row {
        Some(row) => Ok(Some(row.copied()?)),
        None => Ok(None),
    }
}

fn list_path(alloc: Global, order: u64, index: u64) -> Result<Bytes, AllocError>
    ensures { IfOk result (λ p. p ≡ list_path order index) }
{
    let mut path = Vec::with_capacity(alloc, 16)?;
    path.extend_from_slice(&order.to_be_bytes())?;
    path.extend_from_slice(&index.to_be_bytes())?;
    Ok(Bytes::from_vec(path))
}

fn element_atom(
    stamp: Stamp,
    row: &Option<Clustering>,
    column: ColumnRef,
    element: (Bytes, Option<Bytes>),
) -> Result<Atom, AllocError>
    requires { stamp.moment ≤ℤ LAST_SECOND }
    ensures { IfOk result (λ a. a ≡ element_atom stamp row.now column element) }
{
    let (path, value) = element;
    Ok(write_at(copied_row(row)?, column, path, cell_of(stamp, value)))
}

fn written_at(
    alloc: Global,
    stamp: Stamp,
    row: &Option<Clustering>,
    column: ColumnRef,
    elements: Vec<(Bytes, Option<Bytes>)>,
) -> Result<Vec<Atom>, AllocError>
    requires { stamp.moment ≤ℤ LAST_SECOND }
    ensures { IfOk result (λ v. v.items ≡ map (element_atom stamp row.now column) elements.items) }
{
    let mut atoms = Vec::with_capacity(alloc, elements.len())?;
    for element in elements {
        atoms.push(element_atom(stamp, row, column, element)?)?;
    }
    Ok(atoms)
}

fn placed_at(
    alloc: Global,
    order: u64,
    index: u64,
    value: &Bytes,
) -> Result<(Bytes, Option<Bytes>), AllocError>
    ensures { IfOk result (λ e. e ≡ placed_at order (index, value.now)) }
{
    Ok((list_path(alloc, order, index)?, Some(value.clone()?)))
}

fn placed_from(
    alloc: Global,
    order: u64,
    values: &[Bytes],
) -> Result<Vec<(Bytes, Option<Bytes>)>, AllocError>
    ensures { IfOk result (λ v. v.items ≡ map (placed_at order) (enumerate_from 0 values.now)) }
{
    let mut elements = Vec::with_capacity(alloc, values.len())?;
    for (index, value) in values.iter().enumerate() {
        elements.push(placed_at(alloc, order, index as u64, value)?)?;
    }
    Ok(elements)
}

fn placed(
    alloc: Global,
    number: u64,
    elements: Elements,
) -> Result<Vec<(Bytes, Option<Bytes>)>, AllocError>
    requires { number ≤ NUMBER_LIMIT }
    ensures { IfOk result (λ v. v.items ≡ placed number elements) }
{
    match elements {
        Elements::At(elements) => Ok(elements.into_vec()),
        Elements::Appended(values) => placed_from(alloc, LIST_MIDDLE + number, values.as_slice()),
        Elements::Prepended(values) => placed_from(alloc, LIST_MIDDLE - number, values.as_slice()),
    }
}

fn push(atoms: &mut Vec<Atom>, atom: Atom) -> Result<(), AllocError>
    ensures { OnOk result (atoms.new.items ≡ atoms.old.items ++ atom ∷ []) }
{
    atoms.push(atom)?;
    Ok(())
}

// The cut, in the order of another one's table.
fn in_order(cut: &Cut, order: &RowOrder) -> Result<Cut, AllocError>
    ensures { IfOk result (λ c. c ≡ record { prefix = cut.now.prefix; after = cut.now.after; order = order.now }) }
{
    Ok(Cut {
        prefix: cut.prefix.clone()?,
        after: cut.after,
        order: order.clone()?,
    })
}

// Whether the second cut is behind the first, in the order of that one's table.
fn is_range(lo: &Cut, hi: &Cut) -> Result<bool, AllocError>
    ensures { IfOk result (λ b. b ≡ is_lt (cut_cmp lo.now hi.now)) }
{
    let end = in_order(hi, &lo.order)?;
    let is_range = cmp_cut(lo, &end).is_lt();
    drop(end);
    Ok(is_range)
}

#[tactic(auto, unfolding(crate::specs::AtomsOf::effect_atoms))]
fn push_range(stamp: Stamp, lo: Cut, hi: Cut, atoms: &mut Vec<Atom>) -> Result<(), AllocError>
    ensures { OnOk result (atoms.new.items ≡ atoms.old.items ++ effect_atoms stamp (effects.Range lo hi)) }
{
    match is_range(&lo, &hi) {
        Ok(true) => push(atoms, Atom::RangeDeletion(lo, hi, deletion_of(stamp))),
        Ok(false) => {
            drop(lo);
            drop(hi);
            Ok(())
        }
        Err(fault) => {
            drop(lo);
            drop(hi);
            Err(fault)
        }
    }
}

#[tactic(auto, unfolding(crate::specs::AtomsOf::element_atoms))]
fn push_parts(
    alloc: Global,
    stamp: Stamp,
    row: &Option<Clustering>,
    column: ColumnRef,
    elements: Elements,
    atoms: &mut Vec<Atom>,
) -> Result<(), AllocError>
    requires moment { stamp.moment ≤ℤ LAST_SECOND }
    requires number { stamp.number ≤ NUMBER_LIMIT }
    ensures { OnOk result (atoms.new.items ≡ atoms.old.items ++ element_atoms stamp row.now column elements) }
{
    let placed = placed(alloc, stamp.number, elements)?;
    let mut written = written_at(alloc, stamp, row, column, placed)?;
    atoms.append(&mut written)?;
    Ok(())
}

// What is there before the statement is deleted.
fn push_emptied(
    stamp: Stamp,
    row: &Option<Clustering>,
    column: ColumnRef,
    atoms: &mut Vec<Atom>,
) -> Result<(), AllocError>
    requires { LEAST_TIMESTAMP ≤ℤ stamp.at }
    ensures { OnOk result (atoms.new.items ≡ atoms.old.items ++ emptied_at row.now column (deletion_before stamp) ∷ []) }
{
    push(
        atoms,
        emptied_at(copied_row(row)?, column, deletion_before(stamp)),
    )
}

#[tactic(auto, unfolding(crate::specs::AtomsOf::effect_atoms))]
fn push_whole(
    alloc: Global,
    stamp: Stamp,
    row: Option<Clustering>,
    column: ColumnRef,
    elements: Elements,
    atoms: &mut Vec<Atom>,
) -> Result<(), AllocError>
    requires moment { stamp.moment ≤ℤ LAST_SECOND }
    requires number { stamp.number ≤ NUMBER_LIMIT }
    requires at { LEAST_TIMESTAMP ≤ℤ stamp.at }
    ensures { OnOk result (atoms.new.items ≡ atoms.old.items ++ effect_atoms stamp (effects.Whole row column elements)) }
{
    match push_emptied(stamp, &row, column, atoms) {
        Ok(()) => {
            let pushed = push_parts(alloc, stamp, &row, column, elements, atoms);
            drop(row);
            pushed
        }
        Err(fault) => {
            drop(row);
            drop(elements);
            Err(fault)
        }
    }
}

#[tactic(auto, unfolding(crate::specs::AtomsOf::effect_atoms))]
fn push_effect(
    alloc: Global,
    stamp: Stamp,
    effect: Effect,
    atoms: &mut Vec<Atom>,
) -> Result<(), AllocError>
    requires moment { stamp.moment ≤ℤ LAST_SECOND }
    requires number { stamp.number ≤ NUMBER_LIMIT }
    requires at { LEAST_TIMESTAMP ≤ℤ stamp.at }
    ensures { OnOk result (atoms.new.items ≡ atoms.old.items ++ effect_atoms stamp effect) }
{
    match effect {
        Effect::Live(row) => push(atoms, Atom::Live(row, liveness(stamp))),
        Effect::Plain(row, column, value) => {
            let path = Bytes::from_vec(Vec::new(alloc));
            push(atoms, write_at(row, column, path, cell_of(stamp, value)))
        }
        Effect::Whole(row, column, elements) => {
            push_whole(alloc, stamp, row, column, elements, atoms)
        }
        Effect::Parts(row, column, elements) => {
            push_parts(alloc, stamp, &row, column, elements, atoms)
        }
        Effect::Emptied(row, column) => push(atoms, emptied_at(row, column, deletion_of(stamp))),
        Effect::Row(row) => push(atoms, Atom::RowDeletion(row, deletion_of(stamp))),
        Effect::Range(lo, hi) => push_range(stamp, lo, hi, atoms),
        Effect::Partition => push(atoms, Atom::PartitionDeletion(deletion_of(stamp))),
    }
}

fn all_atoms(alloc: Global, stamp: Stamp, effects: Vec<Effect>) -> Result<Vec<Atom>, AllocError>
    requires moment { stamp.moment ≤ℤ LAST_SECOND }
    requires number { stamp.number ≤ NUMBER_LIMIT }
    requires at { LEAST_TIMESTAMP ≤ℤ stamp.at }
    ensures { IfOk result (λ v. v.items ≡ flat_map (effect_atoms stamp) effects.items) }
{
    let mut atoms = Vec::with_capacity(alloc, effects.len())?;
    for effect in effects {
        push_effect(alloc, stamp, effect, &mut atoms)?;
    }
    Ok(atoms)
}

fn stamp_of(write: &BoundWrite, drawn: i64, moment: i64, number: u64) -> Stamp
    ensures { result ≡ stamp_of write.now drawn moment number }
{
    Stamp {
        at: write.timestamp.unwrap_or(drawn),
        moment,
        number,
        ttl: write.ttl,
    }
}

/// The mutation of a write, at the timestamp that was drawn for it, its moment and its number.
/// Where the statement has USING TIMESTAMP, that is its timestamp.
#[tactic(auto, unfolding(crate::specs::AtomsOf::mutation_of))]
pub fn atoms_of(
    alloc: Global,
    write: BoundWrite,
    drawn: i64,
    moment: i64,
    number: u64,
) -> Result<Mutation, Mem>
    requires moment { moment ≤ℤ LAST_SECOND }
    requires number { number ≤ NUMBER_LIMIT }
    requires at { LEAST_TIMESTAMP ≤ℤ unwrap_or write.timestamp drawn }
    ensures { IfOk result (λ m. m ≡ mutation_of write drawn moment number) }
{
    let stamp = stamp_of(&write, drawn, moment, number);
    let atoms = all_atoms(alloc, stamp, write.effects.into_vec())?;
    Ok(Mutation {
        table: write.table,
        shard: write.shard,
        number,
        drawn: write.timestamp.is_none(),
        at: stamp.at,
        moment,
        key: write.key,
        atoms: List::from_vec(atoms),
    })
}
