//! The partitions of a table in memory.

ghost use Rattle.std.specs.Prelude.{◌≡◌, ℕ, Some, None, List as ListOf, IfOk, OnOk, OnErr};
ghost use Rattle.std.specs.Option.{option_copied};
ghost use Rattle.std.specs.BTreeMap.{get};
ghost use Rattle.std.specs.BTreeMap.Range.{is_from_start};
ghost use Rattle.std.specs.Range.Bound.{bound_map};
ghost use Rattle.cas_types.specs.Values.{bytes_cmp};
ghost use Rattle.cas_atoms.specs.Coordinates.{atom_at};
ghost use Rattle.cas_memtable.specs.Memtables.{held_at, least_of, earlier, least_with, bytes_with, PlacesIn, HasPlaces, MakesPlaces};
ghost use Rattle.cas_memtable.specs.Memtables.{Joins, GivesPart, is_above, IsNextKey};
ghost use Rattle.cas_memtable.specs.Inner.Steps.{ReservesIn, AppliesAt, Inserts, first_key};

use cas_atoms::{Atom, Mutation, length};
use cas_bounds::Slice;
use cas_partition::{Partition, PartitionStream};
use cas_streams::FragmentSource;
use cas_types::{Bytes, List};
use std::alloc::{AllocError, Global};
use std::collections::BTreeMap;
use std::collections::btree_map::Range;
use std::ops::Bound;

/// A partition, and the least timestamp of all atoms that were joined to it.
#[derive(Drop)]
pub struct Held {
    pub(crate) partition: Partition,
    pub(crate) least: Option<i64>,
}

/// The partitions of a table by their keys, and the length of the records that wrote them.
#[derive(Drop)]
pub struct MemPart {
    pub(crate) partitions: BTreeMap<Bytes, Held>,
    pub(crate) bytes: u64,
    alloc: Global,
}

fn atom_at(atom: &Atom) -> i64
    ensures { result ≡ atom_at atom.now }
{
    match atom {
        Atom::PartitionDeletion(d) => d.at,
        Atom::RangeDeletion(_, _, d) => d.at,
        Atom::RowDeletion(_, d) => d.at,
        Atom::CollectionDeletion(_, _, d) => d.at,
        Atom::Live(_, l) => l.at(),
        Atom::Write(_, _, _, v) => v.at(),
        Atom::StaticWrite(_, _, v) => v.at(),
        Atom::StaticCollectionDeletion(_, d) => d.at,
    }
}

fn earlier(a: Option<i64>, at: i64) -> Option<i64>
    ensures { result ≡ earlier a at }
{
    match a {
        None => Some(at),
        Some(b) => { if at < b { Some(at) } else { Some(b) } }
    }
}

// The least timestamp of these, too.
fn least_with(least: Option<i64>, atoms: &[Atom]) -> Option<i64>
    ensures { result ≡ least_with least atoms.now }
{
    let mut found = least;
    let mut rest = atoms;
    while let [atom, others @ ..] = rest {
        found = earlier(found, atom_at(atom));
        rest = others;
    }
    found
}

// The bytes of the records so far, this one's among them.
fn bytes_with(bytes: u64, mutation: &Mutation) -> u64
    ensures { result ≡ bytes_with bytes mutation.now }
{
    match mutation.atoms.as_slice() {
        [] => bytes,
        [_a, _as @ ..] => bytes.saturating_add(length(mutation)),
    }
}

// A partition of the key, where there is none yet, with places for atoms.
fn insert_reserved(
    partitions: &mut BTreeMap<Bytes, Held>,
    alloc: Global,
    key: &Bytes,
    atoms: &[Atom],
) -> Result<(), AllocError>
    requires { get bytes_cmp partitions.old key.now ≡ None }
    ensures { ReservesIn key.now atoms.now (get bytes_cmp partitions.old) (get bytes_cmp partitions.new) result }
{
    let copy = key.clone()?;
    let mut partition = Partition::new(alloc);
    partition.reserve_all(atoms)?;
    let held = Held {
        partition,
        least: None,
    };
    partitions.insert(copy, held)?;
    Ok(())
}

// Places for atoms in the partition of the key, which is made if there is none yet.
fn reserve_atoms(
    partitions: &mut BTreeMap<Bytes, Held>,
    alloc: Global,
    key: &Bytes,
    atoms: &[Atom],
) -> Result<(), AllocError>
    ensures { ReservesIn key.now atoms.now (get bytes_cmp partitions.old) (get bytes_cmp partitions.new) result }
{
    match partitions.get_mut(key) {
        Some(held) => held.partition.reserve_all(atoms),
        None => insert_reserved(partitions, alloc, key, atoms),
    }
}

// Joins atoms to the partition of the key.
fn apply_atoms(partitions: &mut BTreeMap<Bytes, Held>, key: &Bytes, atoms: List<Atom>)
    requires { PlacesIn (get bytes_cmp partitions.old key.now) atoms }
    ensures { (h : Held) → get bytes_cmp partitions.old key.now ≡ Some h
        → AppliesAt key.now atoms h (get bytes_cmp partitions.old) (get bytes_cmp partitions.new) }
{
    if let Some(held) = partitions.get_mut(key) {
        held.least = least_with(held.least, atoms.as_slice());
        held.partition.apply_all(atoms);
    }
}

// Joins atoms to a partition of the key, where there is none yet.
fn insert_new(
    partitions: &mut BTreeMap<Bytes, Held>,
    alloc: Global,
    key: Bytes,
    atoms: List<Atom>,
) -> Result<(), AllocError>
    requires { get bytes_cmp partitions.old key ≡ None }
    ensures { Inserts key atoms (get bytes_cmp partitions.old) (get bytes_cmp partitions.new) result }
{
    let mut partition = Partition::new(alloc);
    let least = least_with(None, atoms.as_slice());
    partition.insert_all(atoms)?;
    partitions.insert(key, Held { partition, least })?;
    Ok(())
}

// Joins atoms to the partition of the key, which is made if there is none yet.
fn insert_atoms(
    partitions: &mut BTreeMap<Bytes, Held>,
    alloc: Global,
    key: Bytes,
    atoms: List<Atom>,
) -> Result<(), AllocError>
    ensures { Inserts key atoms (get bytes_cmp partitions.old) (get bytes_cmp partitions.new) result }
{
    match partitions.get_mut(&key) {
        Some(held) => {
            let least = least_with(held.least, atoms.as_slice());
            held.partition.insert_all(atoms)?;
            held.least = least;
            Ok(())
        }
        None => insert_new(partitions, alloc, key, atoms),
    }
}

// What begins right behind the key, or at the first one of all.
fn behind(key: Option<&Bytes>) -> Bound<&Bytes>
    ensures { (q : ListOf ℕ) → is_from_start bytes_cmp (bound_map (λ k. k.now) result) q ≡ is_above (option_copied key.entry) q }
{
    match key {
        None => Bound::Unbounded,
        Some(key) => Bound::Excluded(key),
    }
}

// The first key under which there are atoms.
fn first_key<'a>(partitions: Range<'a, Bytes, Held>) -> Option<&'a Bytes>
    ensures { option_copied result ≡ first_key partitions.entry }
{
    let mut rest = partitions;
    while let Some((key, held)) = rest.next() {
        if held.least.is_some() {
            return Some(key);
        }
    }
    None
}

impl MemPart {
    /// No partition.
    pub fn new(alloc: Global) -> Self
        ensures empty { (key : ListOf ℕ) → held_at result key ≡ None }
        ensures bytes { result.bytes ≡ 0 }
    {
        MemPart {
            partitions: BTreeMap::new(alloc),
            bytes: 0,
            alloc,
        }
    }

    /// Makes place for a mutation, which `apply` then takes without memory. What the partitions say
    /// stays the same, also after an error.
    pub fn reserve(&mut self, mutation: &Mutation) -> Result<(), AllocError>
        ensures places { OnOk result (HasPlaces self.new mutation.now) }
        ensures makes { MakesPlaces mutation.now self.old self.new }
    {
        reserve_atoms(
            &mut self.partitions,
            self.alloc,
            &mutation.key,
            mutation.atoms.as_slice(),
        )
    }

    /// Joins a mutation for which place was made.
    pub fn apply(&mut self, mutation: Mutation)
        requires { HasPlaces self.old mutation }
        ensures { Joins mutation self.old self.new }
    {
        self.bytes = bytes_with(self.bytes, &mutation);
        let key = mutation.key;
        apply_atoms(&mut self.partitions, &key, mutation.atoms);
    }

    /// Makes place for a mutation and joins it. After an error the partitions say what they said.
    pub fn insert(&mut self, mutation: Mutation) -> Result<(), AllocError>
        ensures joins { OnOk result (Joins mutation self.old self.new) }
        ensures makes { OnErr result (MakesPlaces mutation self.old self.new) }
    {
        let bytes = bytes_with(self.bytes, &mutation);
        insert_atoms(
            &mut self.partitions,
            self.alloc,
            mutation.key,
            mutation.atoms,
        )?;
        self.bytes = bytes;
        Ok(())
    }

    /// The least timestamp of all atoms that were joined to the partition of the key, whatever won
    /// since; none where there are none.
    pub fn least(&self, key: &Bytes) -> Option<i64>
        ensures { result ≡ least_of self.now key.now }
    {
        match self.partitions.get(key) {
            None => None,
            Some(held) => held.least,
        }
    }

    /// The partition of the key as a stream, in the slice and of the static row; none exactly where
    /// no atom was joined to it.
    pub fn part<'a>(
        &'a self,
        key: &Bytes,
        slice: &Slice,
    ) -> Result<Option<PartitionStream<'a>>, AllocError>
        ensures { IfOk result (λ part. GivesPart slice.now (held_at self.now key.now) ⟦<PartitionStream<'a> as FragmentSource>⟧.to_come
            ⟦<PartitionStream<'a> as FragmentSource>⟧.over_all part) }
    {
        match self.partitions.get(key) {
            None => Ok(None),
            Some(held) => {
                if held.least.is_none() {
                    return Ok(None);
                }
                Ok(Some(held.partition.slice(self.alloc, slice)?))
            }
        }
    }

    /// The least key above that one, or of all, under which there are atoms; none where there is
    /// none.
    pub fn next_key(&self, after: Option<&Bytes>) -> Option<&Bytes>
        ensures { IsNextKey self.now (option_copied after.entry) (option_copied result) }
    {
        first_key(self.partitions.range((behind(after), Bound::Unbounded)))
    }

    /// The sum of the lengths of the records that had atoms, and 2^64-1 where it is greater.
    pub fn bytes(&self) -> u64
        ensures { result ≡ self.now.bytes }
    {
        self.bytes
    }
}
