//! The way through the fragments of a partition: what each of them shows.

ghost use Rattle.std.specs.Prelude.{◌≡◌, ◌≤ℤ◌, pos, None, [], ◌∷◌, ◌++◌, List, IfOk, OnOk};
ghost use Rattle.std.specs.List.{cons_option};
ghost use Rattle.std.specs.Option.{option_to_list};
ghost use Rattle.cas_atoms.specs.Answers.{AreNumbered, is_whole};
ghost use Rattle.cas_atoms.specs.declared.atom.Atom.TheVariants.{PartitionDeletion};
ghost use Rattle.cas_streams.specs.Flat.{atom_of};
ghost use Rattle.cas_streams.specs.declared.fragment.Fragment.{Fragment};
ghost use Rattle.cas_live.specs.Views.{row_view, if_answered, or_static};
ghost use Rattle.cas_live.specs.Walks.{walk, shared_after};

use crate::in_order::{are_in_order, are_of_all};
use crate::own_row::show_in_order;
use crate::views::{add_columns, add_row};
use cas_atoms::{Atom, LiveRow, Partition, Query, Row, is_shown, is_static_shown, row_shown};
use cas_bounds::{Slice, between};
use cas_cell::Deletion;
use cas_streams::Fragment;
use std::alloc::{AllocError, Global};
use std::mem::drop;

// What the row shows by these atoms, where it answers.
fn if_answered(
    alloc: Global,
    query: &Query,
    partition: Partition<'_>,
    row: &Row,
) -> Result<Option<LiveRow>, AllocError>
    requires begun { pos 0 ≤ℤ partition.now }
    requires columns { AreNumbered query.now.columns }
    ensures { IfOk result (λ r. r ≡ if_answered query.now partition.entry.now partition.entry.atoms.now row.now.clustering.values) }
{
    let values = &row.clustering.values;
    if !between(&query.slice.lo, &query.slice.hi, values.as_slice()) {
        return Ok(None);
    }
    if !is_shown(alloc, partition, query.columns.as_slice(), values)? {
        return Ok(None);
    }
    Ok(Some(row_shown(alloc, query, partition, Some(values))?))
}

// Whether the slice restricts no clustering column.
fn is_whole(slice: &Slice) -> bool
    ensures { result ≡ is_whole slice.now }
{
    let begins = slice.lo.prefix.as_slice().is_empty() && !slice.lo.after;
    let ends = slice.hi.prefix.as_slice().is_empty() && slice.hi.after;
    begins && ends
}

// What any row shows, where it answers, by a search among all atoms of its view.
fn show_any_row(
    alloc: Global,
    query: &Query,
    now: i64,
    shared: &mut Vec<Atom>,
    force: Option<Deletion>,
    row: &Row,
) -> Result<Option<LiveRow>, AllocError>
    requires begun { pos 0 ≤ℤ now }
    requires columns { AreNumbered query.now.columns }
    ensures shown { IfOk result (λ r. r ≡ if_answered query.now now (row_view shared.old.items force row.now) row.now.clustering.values) }
    ensures shared { OnOk result (shared.new.items ≡ shared.old.items) }
{
    let before = shared.len();
    add_row(shared, force, row)?;
    let partition = Partition {
        atoms: shared.as_slice(),
        now,
    };
    let shown = if_answered(alloc, query, partition, row)?;
    shared.truncate(before);
    Ok(shown)
}

// What the row shows, where it answers, by what all rows share and the range deletion in force.
fn show_row(
    alloc: Global,
    query: &Query,
    now: i64,
    shared: &mut Vec<Atom>,
    force: Option<Deletion>,
    row: &Row,
) -> Result<Option<LiveRow>, AllocError>
    requires begun { pos 0 ≤ℤ now }
    requires columns { AreNumbered query.now.columns }
    ensures shown { IfOk result (λ r. r ≡ if_answered query.now now (row_view shared.old.items force row.now) row.now.clustering.values) }
    ensures shared { OnOk result (shared.new.items ≡ shared.old.items) }
{
    let ordered = are_in_order(query.columns.as_slice(), row.columns.as_slice());
    if ordered && are_of_all(shared.as_slice()) {
        let all = Partition {
            atoms: shared.as_slice(),
            now,
        };
        show_in_order(alloc, query, all, force, row)
    } else {
        show_any_row(alloc, query, now, shared, force, row)
    }
}

/// A query on its way through the fragments of a partition.
#[derive(Drop)]
pub struct Viewer {
    query: Query,
    moment: i64,
    shared: Vec<Atom>,
    in_force: Option<Deletion>,
    ghost begun: { pos 0 ≤ℤ moment },
    ghost columns: { AreNumbered query.columns },
}

impl Viewer {
    /// At the beginning of a partition with this deletion of the whole, or none. The moment is in
    /// seconds.
    pub fn new(
        alloc: Global,
        top: Option<Deletion>,
        query: Query,
        moment: i64,
    ) -> Result<Self, AllocError>
        requires begun { pos 0 ≤ℤ moment }
        requires columns { AreNumbered query.columns }
        ensures query { IfOk result (λ v. v.query ≡ query) }
        ensures moment { IfOk result (λ v. v.moment ≡ moment) }
        ensures shared { IfOk result (λ v. v.shared.items ≡ atom_of PartitionDeletion top) }
        ensures in_force { IfOk result (λ v. v.in_force ≡ None) }
    {
        let mut viewer = Viewer::blank(alloc, query, moment);
        match viewer.enter(top) {
            Ok(()) => Ok(viewer),
            Err(fault) => {
                drop(viewer);
                Err(fault)
            }
        }
    }

    // A viewer that wasn't told yet what the deletion of the whole is.
    pub(crate) fn blank(alloc: Global, query: Query, moment: i64) -> Self
        requires begun { pos 0 ≤ℤ moment }
        requires columns { AreNumbered query.columns }
        ensures query { result.query ≡ query }
        ensures moment { result.moment ≡ moment }
        ensures shared { result.shared.items ≡ [] }
        ensures in_force { result.in_force ≡ None }
    {
        Viewer {
            query,
            moment,
            shared: Vec::new(alloc),
            in_force: None,
        }
    }

    // All rows share this deletion, or none.
    pub(crate) fn enter(&mut self, top: Option<Deletion>) -> Result<(), AllocError>
        ensures query { self.new.query ≡ self.old.query }
        ensures moment { self.new.moment ≡ self.old.moment }
        ensures shared { OnOk result (self.new.shared.items ≡ self.old.shared.items ++ atom_of PartitionDeletion top) }
        ensures in_force { self.new.in_force ≡ self.old.in_force }
    {
        if let Some(d) = top {
            self.shared.push(Atom::PartitionDeletion(d))?;
        }
        Ok(())
    }

    // Whether rows are wanted in the reverse of the table's order.
    pub(crate) fn is_reversed(&self) -> bool
        ensures { result ≡ self.now.query.reversed }
    {
        self.query.reversed
    }

    /// What the next fragment shows: a row, where it answers.
    pub fn take(&mut self, alloc: Global, fragment: Fragment) -> Result<Option<LiveRow>, AllocError>
        ensures query { self.new.query ≡ self.old.query }
        ensures moment { self.new.moment ≡ self.old.moment }
        ensures rows { IfOk result (λ r. (fs : List Fragment) → walk self.old.query self.old.moment self.old.shared.items self.old.in_force (fragment ∷ fs)
            ≡ cons_option r (walk self.old.query self.old.moment self.new.shared.items self.new.in_force fs)) }
        ensures shared { OnOk result ((fs : List Fragment) → shared_after self.old.shared.items (fragment ∷ fs) ≡ shared_after self.new.shared.items fs) }
    {
        match fragment {
            Fragment::Static(columns) => {
                let added = add_columns(&mut self.shared, None, columns.as_slice());
                drop(columns);
                added?;
                Ok(None)
            }
            Fragment::Row(row) => {
                let shown = show_row(
                    alloc,
                    &self.query,
                    self.moment,
                    &mut self.shared,
                    self.in_force,
                    &row,
                );
                drop(row);
                shown
            }
            Fragment::Marker(cut, deletion) => {
                drop(cut);
                self.in_force = deletion;
                Ok(None)
            }
        }
    }

    /// Where no row answered: the static row, if the query wants it and it has an alive cell.
    pub fn static_alone(&self, alloc: Global) -> Result<Option<LiveRow>, AllocError>
        ensures { IfOk result (λ r. option_to_list r ≡ or_static self.now.query self.now.moment self.now.shared.items []) }
    {
        if !is_whole(&self.query.slice) {
            return Ok(None);
        }
        let partition = Partition {
            atoms: self.shared.as_slice(),
            now: self.moment,
        };
        if !is_static_shown(alloc, partition, self.query.columns.as_slice())? {
            return Ok(None);
        }
        Ok(Some(row_shown(alloc, &self.query, partition, None)?))
    }
}
