//! What a partition says of its rows, row by row.

ghost use Rattle.std.specs.Prelude.{◌≡◌, [], OnOk, OnErr};
ghost use Rattle.std.specs.BTreeMap.{insert_entry, is_at};
ghost use Rattle.std.specs.List.{AllByRecursion};
ghost use Rattle.std.specs.Map.{set_value};
ghost use Rattle.std.specs.Vec.Iter.{into_iter_items};
ghost use Rattle.cas_partition.specs.Spots.{row_cmp};
ghost use Rattle.cas_partition.specs.Placed.{given};
ghost use Rattle.cas_partition.specs.Partitions.{with_spot};
ghost use Rattle.cas_partition.specs.Inner.Firsts.{with_first};
ghost use Rattle.cas_partition.specs.Inner.Rows.{place_of, body_of, with_place, joined_place};
ghost use Rattle.cas_partition.specs.Inner.Runs.{IsInRow, with_places, with_rooms, IsPart, PartlyMade, RowPartlyMade, RowHasSome};
ghost use Rattle.cas_partition.specs.Inner.Runs.{JoinsRun, joined_by, joined_spot, joined_spots, joined_places};
ghost use Rattle.cas_partition.specs.Inner.Lent.{rows_in, LendsRows};

use crate::body::Body;
use crate::lending::{LentRows, lend};
use crate::row_key::RowKey;
use crate::runs::{first_of, is_in_row, place_of, tag_of};
use crate::spot::{Addition, Content, Place, Spot, given};
use cas_atoms::Atom;
use cas_bounds::MapKey;
use cas_types::{List, TypeTag};
use std::alloc::{AllocError, Global};
use std::collections::BTreeMap;
use std::collections::btree_map::Entry;
use std::marker::Model;
use std::vec::IntoIter;

/// What is said of rows: of each row itself, of its columns and of its cells, row by row. Contracts
/// see the entries of all rows as one list.
#[derive(Drop)]
pub struct Spots {
    alloc: Global,
    pub(crate) rows: BTreeMap<RowKey, Body>,
}

impl Model for Spots {
    ghost use Rattle.std.specs.Prelude.{List};
    ghost use Rattle.cas_partition.specs.declared.spot.Spot.{Spot};
    ghost use Rattle.cas_partition.specs.declared.spot.Content.{Content};

    ghost Value = { List (Spot × Content) };

    ghost use Rattle.cas_partition.specs.Inner.Rows.{flat, AreRows};

    ghost view = { λ s. flat s.rows.entries };

    ghost invariant = { λ s. AreRows s.rows.entries };
}

// Makes a place in a row for each of these atoms.
fn reserve_each(body: &mut Body, atoms: &[Atom]) -> Result<(), AllocError>
    ensures made { OnOk result (body.new ≡ with_places atoms.now body.old) }
    ensures part { OnErr result (IsPart atoms.now (λ first. body.new ≡ with_places first body.old)) }
{
    let mut rest = atoms;
    while let [atom, later @ ..] = rest {
        body.reserve(place_of(atom)?, tag_of(atom))?;
        rest = later;
    }
    Ok(())
}

// Makes a place in a row, and then for further atoms of it.
fn reserve_in(
    body: &mut Body,
    place: Place,
    tag: Option<TypeTag>,
    others: &[Atom],
) -> Result<(), AllocError>
    ensures made { OnOk result (body.new ≡ with_places others.now (with_place place tag body.old)) }
    ensures part { OnErr result (PartlyMade with_places others.now body.old (with_place place tag body.old) body.new) }
{
    body.make_room(others.len().saturating_add(1))?;
    body.reserve(place, tag)?;
    reserve_each(body, others)
}

// The same in a row that may have to be made.
fn reserve_row(
    rows: &mut BTreeMap<RowKey, Body>,
    alloc: Global,
    spot: Spot,
    tag: Option<TypeTag>,
    others: &[Atom],
) -> Result<(), AllocError>
    ensures made { OnOk result (rows.new.entries ≡ insert_entry row_cmp rows.old.entries spot.row
        (with_places others.now (with_place (place_of spot) tag (body_of spot.row rows.old.entries)))) }
    ensures part { OnErr result (RowPartlyMade others.now spot tag rows.old.entries rows.new.entries) }
{
    let Spot { row, column, path } = spot;
    let place = Place { column, path };
    match rows.entry(RowKey::of(row))? {
        Entry::Occupied(there) => reserve_in(there.into_mut(), place, tag, others),
        Entry::Vacant(vacant) => reserve_in(vacant.insert(Body::new(alloc)), place, tag, others),
    }
}

// Joins what an atom of the row adds.
fn join_atom(body: &mut Body, atom: Atom)
    ensures { body.new ≡ joined_by (given atom) body.old }
{
    if let Addition::At(spot, content) = given(atom) {
        let Spot { column, path, .. } = spot;
        body.join(Place { column, path }, content);
    }
}

// Joins what each of these atoms adds.
fn join_each(body: &mut Body, atoms: List<Atom>)
    ensures { body.new ≡ joined_places atoms body.old }
{
    let mut rest = atoms.into_vec().into_iter();
    while let Some(atom) = first_of(&mut rest) {
        join_atom(body, atom);
    }
}

// Makes places in a row for atoms of it, and joins them.
fn insert_in(body: &mut Body, atoms: List<Atom>) -> Result<(), AllocError>
    ensures made { OnOk result (body.new ≡ joined_places atoms (with_places atoms body.old)) }
    ensures part { OnErr result (IsPart atoms (λ first. body.new ≡ with_places first body.old)) }
{
    body.make_room(atoms.len())?;
    reserve_each(body, atoms.as_slice())?;
    join_each(body, atoms);
    Ok(())
}

// The same in a row that may have to be made.
fn insert_row(
    rows: &mut BTreeMap<RowKey, Body>,
    alloc: Global,
    row: Option<MapKey>,
    atoms: List<Atom>,
) -> Result<(), AllocError>
    ensures made { OnOk result (rows.new.entries ≡ insert_entry row_cmp rows.old.entries row
        (joined_places atoms (with_places atoms (body_of row rows.old.entries)))) }
    ensures part { OnErr result (RowHasSome atoms row rows.old.entries rows.new.entries) }
{
    match rows.entry(RowKey::of(row))? {
        Entry::Occupied(there) => insert_in(there.into_mut(), atoms),
        Entry::Vacant(vacant) => insert_in(vacant.insert(Body::new(alloc)), atoms),
    }
}

// Joins what is said at a place of a row, and then the atoms that come next and are of it. The first
// one that isn't is handed out.
fn join_in(
    body: &mut Body,
    row: &Option<MapKey>,
    place: Place,
    content: Content,
    rest: &mut IntoIter<Atom>,
) -> Option<Atom>
    ensures { JoinsRun row.now (into_iter_items rest.old) (with_first result (into_iter_items rest.new))
        (λ run. body.new ≡ joined_places run (joined_place place content body.old)) }
{
    body.join(place, content);
    let mut next = first_of(rest);
    while let Some(atom) = next {
        if !is_in_row(&atom, row) {
            return Some(atom);
        }
        join_atom(body, atom);
        next = first_of(rest);
    }
    None
}

// The same in the row of the spot, if it is there.
fn join_row(
    rows: &mut BTreeMap<RowKey, Body>,
    spot: Spot,
    content: Content,
    rest: &mut IntoIter<Atom>,
) -> Option<Atom>
    ensures { JoinsRun spot.row (into_iter_items rest.old) (with_first result (into_iter_items rest.new))
        (λ run. rows.new.entries ≡ set_value (is_at (row_cmp spot.row)) rows.old.entries
        (joined_places run (joined_place (place_of spot) content (body_of spot.row rows.old.entries)))) }
{
    let Spot { row, column, path } = spot;
    let key = RowKey::of(row);
    match rows.get_mut(&key) {
        Some(body) => join_in(body, key.row(), Place { column, path }, content, rest),
        None => first_of(rest),
    }
}

impl Spots {
    pub(crate) fn new(alloc: Global) -> Self
        ensures { result ≡ [] }
    {
        Spots {
            alloc,
            rows: BTreeMap::new(alloc),
        }
    }

    /// Makes place at a spot, and then for further atoms of its row.
    pub(crate) fn reserve(
        &mut self,
        spot: Spot,
        tag: Option<TypeTag>,
        others: &[Atom],
    ) -> Result<(), AllocError>
        requires { AllByRecursion (IsInRow spot.row) others.now }
        ensures made { OnOk result (self.new ≡ with_rooms others.now (with_spot spot tag self.old)) }
        ensures part { OnErr result (PartlyMade with_rooms others.now self.old (with_spot spot tag self.old) self.new) }
    {
        reserve_row(&mut self.rows, self.alloc, spot, tag, others)
    }

    /// Makes places for atoms of one row, and joins them.
    pub(crate) fn insert(
        &mut self,
        row: Option<MapKey>,
        atoms: List<Atom>,
    ) -> Result<(), AllocError>
        requires { AllByRecursion (IsInRow row) atoms }
        ensures made { OnOk result (self.new ≡ joined_spots atoms (with_rooms atoms self.old)) }
        ensures part { OnErr result (IsPart atoms (λ first. self.new ≡ with_rooms first self.old)) }
    {
        insert_row(&mut self.rows, self.alloc, row, atoms)
    }

    /// Joins what is said at a spot, and then the atoms that come next and are of its row. The first one
    /// that isn't is handed out.
    pub(crate) fn join_run(
        &mut self,
        spot: Spot,
        content: Content,
        rest: &mut IntoIter<Atom>,
    ) -> Option<Atom>
        ensures { JoinsRun spot.row (into_iter_items rest.old) (with_first result (into_iter_items rest.new))
            (λ run. self.new ≡ joined_spots run (joined_spot spot content self.old)) }
    {
        join_row(&mut self.rows, spot, content, rest)
    }

    /// The static row and the rows between two keys.
    pub(crate) fn lend<'a>(&'a self, low: &RowKey, high: &RowKey) -> LentRows<'a>
        ensures { LendsRows low.now high.now self.now (rows_in result) }
    {
        lend(&self.rows, low, high)
    }
}
