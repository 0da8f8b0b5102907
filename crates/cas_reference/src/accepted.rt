//! All mutations that were accepted, and what a SELECT shows of them.

ghost use Rattle.std.specs.Prelude.{◌≡◌, ◌+◌, ◌<◌, ◌≤◌, ◌≤ℤ◌, ◌+ℤ◌, ◌++◌, ◌∷◌, [], pos, length, slice_index_or, slice_set, unwrap_or, vec_len, int_div};
ghost use Rattle.std.specs.Prelude.{false, IfNone, IfOk, IfSome, OnOk};
ghost use Rattle.std.specs.Int.{int_max};
ghost use Rattle.std.specs.List.{All};
ghost use Rattle.cas_types.specs.Limits.{IsMoment};
ghost use Rattle.cas_types.specs.declared.limits.TheConstants.{LEAST_TIMESTAMP, MUTATION_LIMIT};
ghost use Rattle.cas_effects.specs.AtomsOf.{mutation_of};
ghost use Rattle.cas_reference.specs.Kept.{IsKept, IsTail, IsTime, atoms_if, atoms_in, is_of, is_past, refusal_of};

use crate::tail::{Tail, tail_of};
use cas_atoms::{Atom, Mutation, answer, length};
use cas_bind::BoundRead;
use cas_effects::{BoundWrite, TOO_LARGE, TOO_MANY, atoms_of};
use cas_render::Reply;
use cas_types::{Bytes, LAST_DRAWN, List, MUTATION_LIMIT, Mem, compare_bytes};
use std::alloc::Global;
use std::cmp::Ordering;

/// The mutations in the order in which they were accepted; and for each shard the last moment that a reading of
/// this run gave it.
#[derive(Drop)]
pub struct Accepted {
    pub(crate) mutations: Vec<Mutation>,
    pub(crate) met: Vec<i64>,
    ghost within: { All IsKept mutations.items },
    ghost moments: { All IsMoment met.items },
}

// Whether a shard has more mutations than it may have, or has drawn a timestamp above the last one.
fn is_past(mutation: &Mutation) -> bool
    ensures { result ≡ is_past mutation.now }
{
    mutation.number > MUTATION_LIMIT || (mutation.drawn && mutation.at > LAST_DRAWN)
}

// Why the mutation isn't accepted.
#[tactic(auto, unfolding(crate::specs::Kept::refusal_of))]
fn refusal_of(segment: u64, mutation: &Mutation) -> Option<u8>
    ensures value { result ≡ refusal_of segment mutation.now }
    ensures past { IfNone result (is_past mutation.now ≡ false) }
{
    if length(mutation) > segment / 2 {
        Some(TOO_LARGE)
    } else if is_past(mutation) {
        Some(TOO_MANY)
    } else {
        None
    }
}

// Puts the mutation behind all others.
#[tactic(auto, using(crate::proofs::Lists::kept_more))]
fn push(mutations: &mut Vec<Mutation>, mutation: Mutation) -> Result<(), Mem>
    requires kept { All IsKept mutations.old.items }
    requires one { IsKept mutation }
    ensures within { All IsKept mutations.new.items }
    ensures behind { OnOk result (mutations.new.items ≡ mutations.old.items ++ mutation ∷ []) }
{
    mutations.push(mutation)?;
    Ok(())
}

// The later of a moment and the reading's whole seconds.
fn later(moment: i64, reading: i64) -> i64
    requires moment { IsMoment moment }
    requires time { IsTime reading }
    ensures value { result ≡ int_max moment (int_div reading (pos 1000000)) }
    ensures within { IsMoment result }
{
    moment.max(reading / 1_000_000)
}

// Raises a shard's moment to the reading's, where that is later.
#[tactic(auto, using(crate::proofs::Lists::moments_set))]
fn raise(met: &mut Vec<i64>, shard: u8, reading: i64)
    requires moments { All IsMoment met.old.items }
    requires there { shard < vec_len met.old }
    requires time { IsTime reading }
    ensures within { All IsMoment met.new.items }
    ensures value { met.new.items ≡ slice_set met.old.items shard (int_max (slice_index_or met.old.items shard (pos 0)) (int_div reading (pos 1000000))) }
    ensures shards { vec_len met.new ≡ vec_len met.old }
{
    let moment = later(met[shard as usize], reading);
    met[shard as usize] = moment;
}

// The timestamp of a write without USING TIMESTAMP.
fn drawn_at(tail: Tail, reading: i64) -> i64
    requires tail { IsTail tail }
    requires time { IsTime reading }
    ensures value { result ≡ int_max reading (tail.drawn +ℤ pos 2) }
    ensures begun { pos 0 ≤ℤ result }
{
    reading.max(tail.drawn + 2)
}

#[tactic(auto, unfolding(cas_effects::specs::AtomsOf::mutation_of))]
fn mutation_of(
    alloc: Global,
    write: BoundWrite,
    drawn: i64,
    moment: i64,
    number: u64,
) -> Result<Mutation, Mem>
    requires stated { IfSome write.timestamp (λ at. LEAST_TIMESTAMP ≤ℤ at) }
    requires drawn { pos 0 ≤ℤ drawn }
    requires moment { IsMoment moment }
    requires number { number ≤ MUTATION_LIMIT + 1 }
    ensures value { IfOk result (λ m. m ≡ mutation_of write drawn moment number) }
    ensures moment { IfOk result (λ m. m.moment ≡ moment) }
{
    atoms_of(alloc, write, drawn, moment, number)
}

fn append_atoms(into: &mut Vec<Atom>, atoms: &[Atom]) -> Result<(), Mem>
    ensures { OnOk result (into.new.items ≡ into.old.items ++ atoms.now) }
{
    for atom in atoms {
        into.push(atom.copied()?)?;
    }
    Ok(())
}

fn is_of(table: u16, key: &Bytes, mutation: &Mutation) -> bool
    ensures { result ≡ is_of table key.now mutation.now }
{
    mutation.table == table
        && compare_bytes(mutation.key.as_slice(), key.as_slice()) == Ordering::Equal
}

fn append_if(into: &mut Vec<Atom>, table: u16, key: &Bytes, mutation: &Mutation) -> Result<(), Mem>
    ensures { OnOk result (into.new.items ≡ into.old.items ++ atoms_if table key.now mutation.now) }
{
    if is_of(table, key, mutation) {
        append_atoms(into, mutation.atoms.as_slice())
    } else {
        Ok(())
    }
}

// All atoms of a partition.
#[tactic(auto, unfolding(crate::specs::Kept::atoms_in))]
fn atoms_in(
    alloc: Global,
    table: u16,
    key: &Bytes,
    mutations: &[Mutation],
) -> Result<Vec<Atom>, Mem>
    ensures { IfOk result (λ v. v.items ≡ atoms_in table key.now mutations.now) }
{
    let mut atoms = Vec::new(alloc);
    for mutation in mutations {
        append_if(&mut atoms, table, key, mutation)?;
    }
    Ok(atoms)
}

impl Accepted {
    ghost use Rattle.std.specs.Prelude.{◌≡◌, ◌<◌, ◌≤ℤ◌, length, vec_len, IfOk, IfSome, OnOk};
    ghost use Rattle.cas_types.specs.Limits.{IsMoment, IsNarrow};
    ghost use Rattle.cas_types.specs.declared.limits.TheConstants.{LEAST_TIMESTAMP};
    ghost use Rattle.cas_reference.specs.Kept.{Adds, IsTail, IsTime, Reads, Writes, met_at, moment_of, mutation_at, nothing_kept, reopened, shown, tail_of};
    ghost use Rattle.cas_reference.specs.Held.{kept};

    /// Nothing yet, of so many shards.
    pub fn new(alloc: Global, shards: u8) -> Result<Self, Mem>
        ensures kept { IfOk result (λ a. kept a ≡ nothing_kept shards) }
        ensures shards { IfOk result (λ a. vec_len a.met ≡ shards) }
    {
        Ok(Accepted {
            mutations: Vec::new(alloc),
            met: vec![in alloc; 0; shards as usize]?,
        })
    }

    /// Begins a run: of its shards nothing is known but what they accepted.
    pub fn reopen(&mut self, alloc: Global) -> Result<(), Mem>
        ensures kept { OnOk result (kept self.new ≡ reopened (kept self.old)) }
        ensures shards { vec_len self.new.met ≡ vec_len self.old.met }
    {
        self.met = vec![in alloc; 0; self.met.len()]?;
        Ok(())
    }

    fn tail(&self, shard: u8) -> Tail
        ensures value { result ≡ tail_of shard self.now.mutations.items }
        ensures within { IsTail result }
    {
        tail_of(shard, &self.mutations)
    }

    fn moment(&self, shard: u8) -> i64
        requires { shard < vec_len self.now.met }
        ensures value { result ≡ moment_of shard (kept self.now) }
        ensures within { IsMoment result }
    {
        self.tail(shard).moment.max(self.met[shard as usize])
    }

    // Its shard meets a reading.
    fn meet(&mut self, shard: u8, reading: i64)
        requires there { shard < vec_len self.old.met }
        requires time { IsTime reading }
        ensures kept { kept self.new ≡ met_at reading shard (kept self.old) }
        ensures shards { vec_len self.new.met ≡ vec_len self.old.met }
    {
        raise(&mut self.met, shard, reading);
    }

    // The mutation that a write makes, whose shard has met the reading.
    #[tactic(auto, unfolding(crate::specs::Kept::mutation_at))]
    fn mutation_at(&self, alloc: Global, reading: i64, write: BoundWrite) -> Result<Mutation, Mem>
        requires there { write.shard < vec_len self.now.met }
        requires time { IsTime reading }
        requires stated { IfSome write.timestamp (λ at. LEAST_TIMESTAMP ≤ℤ at) }
        ensures value { IfOk result (λ m. m ≡ mutation_at reading write (kept self.now)) }
        ensures moment { IfOk result (λ m. IsMoment m.moment) }
    {
        let tail = self.tail(write.shard);
        let moment = self.moment(write.shard);
        let drawn = drawn_at(tail, reading);
        mutation_of(alloc, write, drawn, moment, tail.number + 1)
    }

    // Accepts the mutation, unless it is refused.
    fn add(&mut self, segment: u64, mutation: Mutation) -> Result<Reply, Mem>
        requires { IsMoment mutation.moment }
        ensures adds { IfOk result (λ r. Adds segment mutation (kept self.old) r (kept self.new)) }
        ensures shards { vec_len self.new.met ≡ vec_len self.old.met }
    {
        if let Some(why) = refusal_of(segment, &mutation) {
            return Ok(Reply::Refused(why));
        }
        let number = mutation.number;
        push(&mut self.mutations, mutation)?;
        Ok(Reply::Wrote { number })
    }

    /// Accepts the mutation of a write, unless that is refused.
    pub fn write(
        &mut self,
        alloc: Global,
        segment: u64,
        reading: i64,
        write: BoundWrite,
    ) -> Result<Reply, Mem>
        requires there { write.shard < vec_len self.old.met }
        requires time { IsTime reading }
        requires stated { IfSome write.timestamp (λ at. LEAST_TIMESTAMP ≤ℤ at) }
        ensures writes { IfOk result (λ r. Writes segment reading write (kept self.old) r (kept self.new)) }
        ensures shards { vec_len self.new.met ≡ vec_len self.old.met }
    {
        self.meet(write.shard, reading);
        let mutation = self.mutation_at(alloc, reading, write)?;
        self.add(segment, mutation)
    }

    // What a SELECT shows, whose shard has met the reading.
    fn shown(&self, alloc: Global, read: &BoundRead) -> Result<Reply, Mem>
        requires there { read.now.shard < vec_len self.now.met }
        requires columns { IsNarrow read.now.query.columns }
        ensures { IfOk result (λ r. r ≡ shown read.now (kept self.now)) }
    {
        let query = &read.query;
        let now = self.moment(read.shard);
        let atoms = atoms_in(alloc, query.table, &query.key, &self.mutations)?;
        Ok(Reply::Rows {
            rows: List::from_vec(answer(alloc, &atoms, query, now)?),
            shard: read.shard,
            front: self.tail(read.shard).number,
            now,
        })
    }

    /// Shows the live view of all atoms of the partition.
    pub fn read(&mut self, alloc: Global, reading: i64, read: &BoundRead) -> Result<Reply, Mem>
        requires there { read.now.shard < vec_len self.old.met }
        requires time { IsTime reading }
        requires columns { IsNarrow read.now.query.columns }
        ensures reads { IfOk result (λ r. Reads reading read.now (kept self.old) r (kept self.new)) }
        ensures shards { vec_len self.new.met ≡ vec_len self.old.met }
    {
        self.meet(read.shard, reading);
        self.shown(alloc, read)
    }
}
