//! One partition in memory.

ghost use Rattle.std.specs.Prelude.{◌≡◌, ◌≤◌, List as ListOf, [], ◌∷◌, IfOk, OnOk, OnErr, ◌⊎◌, length, take, drop};
ghost use Rattle.std.specs.Vec.Iter.{into_iter_items};
ghost use Rattle.cas_types.specs.declared.schema.Column.{Column};
ghost use Rattle.cas_bounds.specs.declared.order.Ordered.{Ordered};
ghost use Rattle.cas_atoms.specs.declared.atom.Atom.{Atom as AtomOf};
ghost use Rattle.cas_partition.specs.Ends.{AreAtEnds};
ghost use Rattle.cas_partition.specs.Ranges.{with_cut};
ghost use Rattle.cas_partition.specs.Partitions.{partition_atoms, IsOf, IsOfTable, HavePlaces, MakesPlaces, JoinsAll};
ghost use Rattle.cas_partition.specs.Inner.Firsts.{with_first};
ghost use Rattle.cas_partition.specs.Inner.Made.{MadePlaces};
ghost use Rattle.cas_partition.specs.Inner.Runs.{IsRun};

use crate::ranges::Ranges;
use crate::runs::{count_in, first_of, row_of_all};
use crate::spot::{Addition, Room, given, wanted};
use crate::spots::Spots;
use cas_atoms::{Atom, greater_deletion};
use cas_bounds::Cut;
use cas_cell::Deletion;
use cas_types::List;
use std::alloc::{AllocError, Global};
use std::vec::IntoIter;

/// One partition in memory: its deletion as a whole, its range deletions, and what is said of its
/// rows, spot by spot.
#[derive(Drop)]
pub struct Partition {
    pub(crate) top: Option<Deletion>,
    pub(crate) ranges: Ranges,
    pub(crate) spots: Spots,
}

// Makes place for what will change at both cuts.
fn reserve_cuts(ranges: &mut Ranges, lo: Cut, hi: Cut) -> Result<(), AllocError>
    ensures ok { OnOk result (ranges.new ≡ with_cut hi (with_cut lo ranges.old)) }
    ensures err { OnErr result ((ranges.new ≡ ranges.old) ⊎ (ranges.new ≡ with_cut lo ranges.old)) }
{
    ranges.reserve(lo)?;
    ranges.reserve(hi)
}

// The others of these.
fn behind(atoms: &[Atom], count: usize) -> &[Atom]
    requires { count ≤ length atoms.now }
    ensures { result.now ≡ drop count atoms.now }
{
    atoms.split_at(count).1
}

// So many first ones.
fn first(atoms: &[Atom], count: usize) -> &[Atom]
    requires { count ≤ length atoms.now }
    ensures { result.now ≡ take count atoms.now }
{
    atoms.split_at(count).0
}

impl Partition {
    /// An empty partition.
    pub fn new(alloc: Global) -> Self
        ensures empty { partition_atoms result ≡ [] }
        ensures of { (order : ListOf Ordered) → IsOf order result }
        ensures table { (columns : ListOf Column) → IsOfTable columns result }
        ensures ends { (ws : ListOf AtomOf) → AreAtEnds ws result.ranges }
    {
        Partition {
            top: None,
            ranges: Ranges::new(alloc),
            spots: Spots::new(alloc),
        }
    }

    // Makes place for an atom, and for those behind it that are of its row. Tells how many these are.
    fn reserve_run(&mut self, atom: &Atom, others: &[Atom]) -> Result<usize, AllocError>
        ensures within { IfOk result (λ n. n ≤ length others.now) }
        ensures made { IfOk result (λ n. MadePlaces (atom.now ∷ take n others.now) self.old self.new) }
        ensures err { OnErr result (MakesPlaces (atom.now ∷ others.now) self.old self.new) }
    {
        match wanted(atom)? {
            Room::Whole => Ok(0),
            Room::Cuts(lo, hi) => {
                reserve_cuts(&mut self.ranges, lo, hi)?;
                Ok(0)
            }
            Room::At(spot, tag) => {
                let count = count_in(&spot.row, others);
                self.spots.reserve(spot, tag, first(others, count))?;
                Ok(count)
            }
        }
    }

    /// Makes place for atoms, which `apply_all` then takes without memory. What the partition says
    /// stays the same, also after an error.
    pub fn reserve_all(&mut self, atoms: &[Atom]) -> Result<(), AllocError>
        ensures places { OnOk result (HavePlaces self.new atoms.now) }
        ensures makes { MakesPlaces atoms.now self.old self.new }
    {
        let mut rest = atoms;
        while let [atom, others @ ..] = rest {
            let count = self.reserve_run(atom, others)?;
            rest = behind(others, count);
        }
        Ok(())
    }

    // Joins an atom, and those that come next and are of its row. The first one that isn't is handed out.
    fn apply_run(&mut self, atom: Atom, rest: &mut IntoIter<Atom>) -> Option<Atom>
        requires { HavePlaces self.old (atom ∷ into_iter_items rest.old) }
        ensures { IsRun (into_iter_items rest.old) (with_first result (into_iter_items rest.new)) (λ run. JoinsAll (atom ∷ run) self.old self.new) }
    {
        match given(atom) {
            Addition::Whole(d) => {
                self.top = greater_deletion(self.top, Some(d));
                first_of(rest)
            }
            Addition::Range(lo, hi, d) => {
                self.ranges.raise(lo, hi, d);
                first_of(rest)
            }
            Addition::At(spot, content) => self.spots.join_run(spot, content, rest),
        }
    }

    /// Joins atoms that have their places.
    pub fn apply_all(&mut self, atoms: List<Atom>)
        requires { HavePlaces self.old atoms }
        ensures { JoinsAll atoms self.old self.new }
    {
        let mut rest = atoms.into_vec().into_iter();
        let mut next = first_of(&mut rest);
        while let Some(atom) = next {
            next = self.apply_run(atom, &mut rest);
        }
    }

    // Makes place for all of these atoms, whatever they are of, and then joins them.
    fn insert_rows(&mut self, atoms: List<Atom>) -> Result<(), AllocError>
        ensures joins { OnOk result (JoinsAll atoms self.old self.new) }
        ensures makes { OnErr result (MakesPlaces atoms self.old self.new) }
    {
        self.reserve_all(atoms.as_slice())?;
        self.apply_all(atoms);
        Ok(())
    }

    /// Makes place for atoms and joins them. After an error what the partition says is as before.
    pub fn insert_all(&mut self, atoms: List<Atom>) -> Result<(), AllocError>
        ensures joins { OnOk result (JoinsAll atoms self.old self.new) }
        ensures makes { OnErr result (MakesPlaces atoms self.old self.new) }
    {
        match row_of_all(atoms.as_slice())? {
            Some(row) => self.spots.insert(row, atoms),
            None => self.insert_rows(atoms),
        }
    }
}
