//! The range deletions of a partition in memory.

ghost use Rattle.std.specs.Prelude.{◌≡◌, None, Some, OnOk, OnErr, IfOk, [], ◌++◌, map, get_or, slice_set};
ghost use Rattle.std.specs.declared.cmp.Ordering.TheVariants.{Less};
ghost use Rattle.cas_cell.specs.Deletions.{deletion_cmp};
ghost use Rattle.cas_bounds.specs.Keys.{key_cmp};
ghost use Rattle.cas_atoms.specs.Greatest.{greater};
ghost use Rattle.cas_bounds.specs.declared.cuts.Slice.{Slice};
ghost use Rattle.cas_partition.specs.Ranges.{key_of, lies, raised, with_cut, change_at, clipped};
ghost use Rattle.cas_partition.specs.Inner.Slots.{cut_of, changes_of, raised_at, last_force, force_below, force_behind, between, amid};
ghost use Rattle.cas_partition.specs.Inner.Passing.{lent_marker};
ghost use Rattle.cas_partition.specs.Partitions.{marker};

use crate::cut_key::CutKey;
use cas_atoms::greater_deletion;
use cas_bounds::{Cut, End, MapKey};
use cas_cell::Deletion;
use std::alloc::{AllocError, Global};
use std::collections::BTreeMap;
use std::collections::btree_map::Range;
use std::marker::Model;
use std::ops::Bound;

/// The range deletions of a partition: cuts in order, from each of which on up to the next one a
/// deletion is in force, or none. Contracts see it as the list of these changes.
#[derive(Drop)]
pub struct Ranges {
    cuts: BTreeMap<CutKey, usize>,
    forces: Vec<Option<Deletion>>,
}

/// The key of a cut, and what is in force from it on.
pub(crate) type Mark<'a> = (&'a CutKey, Option<Deletion>);

impl Model for Ranges {
    ghost use Rattle.std.specs.Prelude.{List};
    ghost use Rattle.cas_streams.specs.Flat.{Change};
    ghost use Rattle.cas_partition.specs.Inner.Slots.{changes_of, IsWhole};

    ghost Value = { List Change };

    ghost view = { λ r. changes_of r.cuts.entries r.forces.items };

    ghost invariant = { λ r. IsWhole r.cuts.entries r.forces.items };
}

// What is in force from a slot's cut on.
fn force_at(forces: &[Option<Deletion>], slot: usize) -> Option<Deletion>
    ensures { result ≡ get_or forces.now slot None }
{
    if slot < forces.len() {
        forces[slot]
    } else {
        None
    }
}

// What is in force from the last of these cuts on.
fn last_force(forces: &[Option<Deletion>], cuts: Range<'_, CutKey, usize>) -> Option<Deletion>
    ensures { result ≡ last_force None cuts.entry forces.now }
{
    let mut rest = cuts;
    match rest.next_back() {
        None => None,
        Some((_, slot)) => force_at(forces, *slot),
    }
}

// What is in force right before the key.
fn force_below(
    cuts: &BTreeMap<CutKey, usize>,
    forces: &[Option<Deletion>],
    key: &CutKey,
) -> Option<Deletion>
    ensures { result ≡ force_below key.now None cuts.now.entries forces.now }
{
    last_force(forces, cuts.range(..key))
}

// What is in force right behind the key.
fn force_behind(
    cuts: &BTreeMap<CutKey, usize>,
    forces: &[Option<Deletion>],
    key: &CutKey,
) -> Option<Deletion>
    ensures { result ≡ force_behind key.now None cuts.now.entries forces.now }
{
    last_force(forces, cuts.range(..=key))
}

fn raise_slot(forces: &mut Vec<Option<Deletion>>, slot: usize, d: Deletion)
    ensures { forces.new.items ≡ slice_set forces.old.items slot (greater deletion_cmp (get_or forces.old.items slot None) (Some d)) }
{
    if slot < forces.len() {
        forces[slot] = greater_deletion(forces[slot], Some(d));
    }
}

// Raises what is in force from each cut between the keys on.
fn raise_between(
    cuts: &BTreeMap<CutKey, usize>,
    forces: &mut Vec<Option<Deletion>>,
    from: &CutKey,
    to: &CutKey,
    d: Deletion,
)
    ensures { forces.new.items ≡ raised_at d (between from.now to.now cuts.now.entries) forces.old.items }
{
    if from < to {
        let mut inside = cuts.range(from..to);
        while let Some((_, slot)) = inside.next() {
            raise_slot(forces, *slot, d);
        }
    }
}

// The cut of a key.
pub(crate) fn cut_of(key: &MapKey) -> Result<Cut, AllocError>
    ensures { IfOk result (λ c. c ≡ cut_of key.now) }
{
    let after = match key.end {
        End::Before | End::Row => false,
        End::After => true,
    };
    Ok(Cut {
        prefix: key.values.clone()?,
        after,
        order: key.order.clone()?,
    })
}

// A mark at the key of a cut, where a deletion is in force.
fn add_change<'a>(
    marks: &mut Vec<Mark<'a>>,
    key: &'a CutKey,
    in_force: Option<Deletion>,
    to: Option<Deletion>,
) -> Result<(), AllocError>
    ensures { OnOk result (map lent_marker marks.new.items ≡ map lent_marker marks.old.items ++ map marker (change_at (cut_of key.now) in_force to)) }
{
    if in_force.is_some() {
        marks.push((key, to))?;
    }
    Ok(())
}

// The marks of these cuts, and what is in force behind them, by what is so before.
fn add_changes<'a>(
    marks: &mut Vec<Mark<'a>>,
    forces: &[Option<Deletion>],
    before: Option<Deletion>,
    cuts: Range<'a, CutKey, usize>,
) -> Result<Option<Deletion>, AllocError>
    ensures added { OnOk result (map lent_marker marks.new.items ≡ map lent_marker marks.old.items ++ map marker (changes_of cuts.entry forces.now)) }
    ensures behind { IfOk result (λ d. d ≡ last_force before cuts.entry forces.now) }
{
    let mut last = before;
    let mut rest = cuts;
    while let Some((key, slot)) = rest.next() {
        last = force_at(forces, *slot);
        marks.push((key, last))?;
    }
    Ok(last)
}

// The marks of the cuts between two keys, and what is in force behind these cuts.
fn add_amid<'a>(
    marks: &mut Vec<Mark<'a>>,
    cuts: &'a BTreeMap<CutKey, usize>,
    forces: &[Option<Deletion>],
    before: Option<Deletion>,
    low: &CutKey,
    high: &CutKey,
) -> Result<Option<Deletion>, AllocError>
    requires { key_cmp low.now high.now ≡ Less }
    ensures added { OnOk result (map lent_marker marks.new.items ≡ map lent_marker marks.old.items
        ++ map marker (changes_of (amid low.now high.now cuts.now.entries) forces.now)) }
    ensures behind { IfOk result (λ d. d ≡ last_force before (amid low.now high.now cuts.now.entries) forces.now) }
{
    add_changes(
        marks,
        forces,
        before,
        cuts.range((Bound::Excluded(low), Bound::Excluded(high))),
    )
}

impl Ranges {
    /// No range deletion.
    pub fn new(alloc: Global) -> Self
        ensures { result ≡ [] }
    {
        Ranges {
            cuts: BTreeMap::new(alloc),
            forces: Vec::new(alloc),
        }
    }

    /// Makes place for what will change at the cut. Nothing changes there yet.
    pub fn reserve(&mut self, cut: Cut) -> Result<(), AllocError>
        ensures there { OnOk result (self.new ≡ with_cut cut self.old) }
        ensures err { OnErr result (self.new ≡ self.old) }
    {
        let key = CutKey::of(cut);
        if self.cuts.contains_key(&key) {
            return Ok(());
        }
        let force = force_below(&self.cuts, &self.forces, &key);
        let slot = self.forces.len();
        self.forces.push(force)?;
        self.cuts.insert(key, slot)?;
        Ok(())
    }

    /// Lets the deletion be in force between the cuts, where no greater one is: at each cut there is
    /// from the low one on. Both have to be there.
    pub fn raise(&mut self, lo: Cut, hi: Cut, d: Deletion)
        ensures { self.new ≡ raised (lies lo hi) d self.old }
    {
        let from = CutKey::of(lo);
        let to = CutKey::of(hi);
        raise_between(&self.cuts, &mut self.forces, &from, &to, d);
    }

    /// The changes in the slice between the keys of two cuts: it begins with the deletion in force where
    /// the slice begins, and closes the one in force at its end.
    pub(crate) fn marks<'a>(
        &'a self,
        alloc: Global,
        low: &'a CutKey,
        high: &'a CutKey,
    ) -> Result<Vec<Mark<'a>>, AllocError>
        ensures { IfOk result (λ v. (s : Slice) → low.now ≡ key_of s.lo → high.now ≡ key_of s.hi
            → map lent_marker v.items ≡ map marker (clipped s self.now)) }
    {
        let mut marks = Vec::new(alloc);
        if low.cmp(high).is_lt() {
            let begun = force_behind(&self.cuts, &self.forces, low);
            add_change(&mut marks, low, begun, begun)?;
            let ended = add_amid(&mut marks, &self.cuts, &self.forces, begun, low, high)?;
            add_change(&mut marks, high, ended, None)?;
        }
        Ok(marks)
    }
}
