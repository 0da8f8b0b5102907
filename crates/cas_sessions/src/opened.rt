//! A store that was opened, before its history has a name.

ghost use Rattle.std.specs.Prelude.{◌≡◌, ◌<◌, ◌≤◌, ℕ, ℤ, List, [], pos, length, map, IfOk, IfErr, None};
ghost use Rattle.cas_types.specs.Limits.{IsShardCount};
ghost use Rattle.cas_disk.specs.Counts.{Counted};
ghost use Rattle.cas_io.specs.Causes.{Rose};
ghost use Rattle.cas_disk.specs.Disk.{Image, During, Same};
ghost use Rattle.cas_atoms.specs.declared.atom.Mutation.{Mutation as MutationOf};
ghost use Rattle.cas_changes.specs.declared.entry.Entry.{Entry as EntryOf};
ghost use Rattle.cas_log.specs.Segment.{IsSize};
ghost use Rattle.cas_manifest.specs.Loading.{IsNew};
ghost use Rattle.cas_journal.specs.Journals.{AreFree};
ghost use Rattle.cas_journal.specs.Stores.{IsStore};
ghost use Rattle.cas_history.specs.Hands.{numbers};
ghost use Rattle.cas_history.specs.Items.{listed, log_list};
ghost use Rattle.cas_bind.specs.Tables.{AreTables};
ghost use Rattle.cas_opening.specs.Opening.{IsOfBytes, MayBeMadeNew, MayBeOpened};
ghost use Rattle.cas_shard.specs.declared.entry.ShardOpening.{ShardOpening};
ghost use Rattle.cas_recovery.specs.Recovered.{IsUnreadable};
ghost use Rattle.cas_recovery.specs.Restored.{HaveMemory, HaveNoMore, MayBeRead};
ghost use Rattle.cas_refs.specs.Counts.{at};
ghost use Rattle.cas_lasting.specs.Starts.{BeginsAs, IsInMemory, IsOpenedAs, IsStarted};
ghost use Rattle.cas_lasting.specs.Inner.Sound.{read_props, sound_props};

use crate::node::{Closed, Node, Stored};
use cas_bind::Limits;
use cas_disk::{Count, Folder};
use cas_history::{Item, Opened as Table, Store};
use cas_recovery::{RecoveryFault, Started, recover};
use cas_room::{Event, Room};
use cas_seats::{Seats, make_seats};
use cas_types::Mem;
use std::alloc::{AllocError, Global};

/// A store that was opened: its tables and shards in memory, its journal, the count of the faults of what was read in
/// table files, and the table of a new history, which `named` names. It can't be dropped.
pub struct Opened<F: Folder> {
    pub(crate) started: Started<F::Sealed>,
    pub(crate) folder: F,
    pub(crate) tally: F::Tally,
    pub(crate) table: Table<Item<Event>>,
    ghost free: { AreFree started.journal (F.disk folder) },
    pub ghost runs: { (started.journal.first ≡ None) × (started.journal.size ≡ started.limits.segment) × IsSize started.limits.segment },
    ghost good: { AreTables started.tables.items × (length started.shards.items ≡ started.limits.shards)
        × IsShardCount started.limits.shards } by { Prim.hlevel sound_props },
    ghost readable: { MayBeRead started.tables.items started.shards.items } by { Prim.hlevel read_props },
    ghost unmade: { HaveNoMore started.tables.items started.shards.items },
    ghost kept: { HaveMemory started.tables.items started.shards.items },
}

// A folder whose store wasn't opened, with the count of the faults of what was read in table files.
fn not_opened<F: Folder>(folder: F, tally: F::Tally) -> Closed<F>
    ensures folder { result.folder ≡ folder }
    ensures none { (result.pass ≡ None) × (result.first ≡ None) }
    ensures tally { result.tally ≡ tally }
{
    Closed {
        folder,
        pass: None,
        tally,
        first: None,
    }
}

/// Opens the store of a folder, or makes one where it has none: then it gets so many shards. What a crash
/// left is made to last first. The listed table files are loaded, and stay in the folder.
pub fn start<F: Folder>(
    alloc: Global,
    folder: F,
    limits: &Limits,
) -> Result<Opened<F>, (RecoveryFault, Closed<F>)>
    requires shards { IsShardCount limits.now.shards }
    requires size { IsSize limits.now.segment }
    ensures started { IfOk result (λ o. IsStarted limits.now o.started.limits o.started.tables.items o.started.shards.items
        o.started.frontiers.items o.started.last_file o.started.live o.started.journal (F.disk folder) (F.disk o.folder)) }
    ensures refused { IfErr result (λ r. (name : _) (at : ℕ) → r.0 ≡ RecoveryFault.Bad name at → (c : Image) → (F.disk folder).reads c → IsOfBytes c
        → IsUnreadable limits.now.shards (F.disk folder) name at c) }
    ensures unopened { IfErr result (λ r. (r.1.pass ≡ None) × (r.1.first ≡ None)) }
    ensures stays { (after : F) → IfOk result (λ o. after ≡ o.folder) → IfErr result (λ r. after ≡ r.1.folder)
        → (c : Image) → (F.disk folder).reads c → IsOfBytes c → (entries : List EntryOf) (mutations : List MutationOf) → IsStore entries mutations c
        → During (MayBeOpened entries mutations) (F.disk folder) (F.disk after) }
    ensures made { (after : F) → IfOk result (λ o. after ≡ o.folder) → IfErr result (λ r. after ≡ r.1.folder)
        → (c : Image) → (F.disk folder).reads c → IsOfBytes c → IsNew c → During (MayBeMadeNew limits.now.shards) (F.disk folder) (F.disk after) }
    ensures untouched { (after : F) → IfOk result (λ o. after ≡ o.folder) → IfErr result (λ r. after ≡ r.1.folder)
        → (c : Image) → (F.disk folder).reads c → IsOfBytes c → (IsNew c → ⊥)
        → ((entries : List EntryOf) (mutations : List MutationOf) → IsStore entries mutations c → ⊥) → During Same (F.disk folder) (F.disk after) }
    ensures count { IfOk result (λ o. F.faults_of folder ≤ F.faults_of o.folder) }
    ensures failed { IfErr result (λ r. Counted (F.faults_of folder) (F.faults_of r.1.folder) (r.0 ≡ RecoveryFault.Failed)) }
    ensures read { IfErr result (λ r. r.0 ≡ RecoveryFault.Read → Rose 0 (⟦<F::Tally as Count>⟧.number r.1.tally)) }
{
    let mut folder = folder;
    let mut tally = F::Tally::fresh();
    let started = match recover(alloc, &mut folder, limits, &mut tally) {
        Ok(started) => started,
        Err(fault) => return Err((fault, not_opened(folder, tally))),
    };
    match Table::new(alloc) {
        Ok(table) => Ok(Opened {
            started,
            folder,
            tally,
            table,
        }),
        Err(AllocError) => Err((RecoveryFault::Mem, not_opened(folder, tally))),
    }
}

// A store in memory, with its seats and its room.
fn assembled<F: Folder, J: Store>(
    started: Started<F::Sealed>,
    seats: Seats<J>,
    folder: F,
    tally: F::Tally,
) -> Node<F, J>
    requires free { AreFree started.journal (F.disk folder) }
    requires runs { (started.journal.first ≡ None) × (started.journal.size ≡ started.limits.segment) × IsSize started.limits.segment }
    requires good { AreTables started.tables.items × (length started.shards.items ≡ started.limits.shards) × IsShardCount started.limits.shards }
    requires readable { MayBeRead started.tables.items started.shards.items }
    requires unmade { HaveNoMore started.tables.items started.shards.items }
    requires kept { HaveMemory started.tables.items started.shards.items }
    requires new { (seats.faults.number ≡ 0) × (seats.faults.committed ≡ 0) × (seats.faults.first ≡ 0) }
    requires log { listed log_list seats.log.pass.saw ≡ [] }
    requires places { map (λ f. f.shard) seats.fronts.items ≡ numbers 0 (length started.shards.items) }
    requires numbers { map (λ f. f.number) seats.fronts.items ≡ map (λ x. x.number) started.shards.items }
    requires changes { map (λ c. c.shard) seats.changes.items ≡ numbers 0 (length started.shards.items) }
    requires copies { map (λ c. c.shard) seats.copies.items ≡ numbers 0 (length started.shards.items) }
    requires last { seats.numbers.last ≡ started.last_file }
    requires book { (k : ℕ) → at seats.book.refs k ≡ None }
    ensures made { (session : ℕ) (clock : ℤ)
        → IsOpenedAs started.limits started.tables.items started.shards.items started.journal (F.faults_of folder)
        (⟦<F::Tally as Count>⟧.number tally) (⟦<Node<F, J> as Stored>⟧.state result session 0 clock) }
    ensures begins { (given : Limits) (entries : List EntryOf) (mutations : List MutationOf) (openings : ℕ → ShardOpening)
        → IsInMemory given entries mutations openings started.limits started.tables.items started.shards.items started.frontiers.items
        started.last_file started.live
        → (session : ℕ) → BeginsAs given entries mutations openings (F.disk folder) (⟦<Node<F, J> as Stored>⟧.state result session 0 (pos 0)) }
    ensures folder { result.room.folder ≡ folder }
    ensures last { result.room.numbers.last ≡ started.last_file }
    ensures sessions { ⟦<Node<F, J> as Stored>⟧.sessions result ≡ seats.maker.out }
{
    Node {
        limits: started.limits,
        tables: started.tables,
        shards: started.shards,
        frontiers: started.frontiers,
        fronts: seats.fronts,
        room: Room::new(
            folder,
            started.journal,
            seats.log,
            seats.faults,
            seats.numbers,
        ),
        tally,
        maker: seats.maker,
        changes: seats.changes,
        copies: seats.copies,
        book: seats.book,
        files: seats.files,
        live: started.live,
    }
}

impl<F: Folder> Opened<F> {
    /// The open store, in the new history that `J` names, before any session is out. Where memory runs out
    /// the folder is handed back.
    pub fn named<J: Store>(self, alloc: Global) -> Result<Node<F, J>, Closed<F>>
        requires table { self.table.seat.table_id ≡ J.table }
        ensures made { IfOk result (λ n. (session : ℕ) (clock : ℤ) → IsOpenedAs self.started.limits self.started.tables.items self.started.shards.items
            self.started.journal (F.faults_of self.folder) (⟦<F::Tally as Count>⟧.number self.tally)
            (⟦<Node<F, J> as Stored>⟧.state n session 0 clock)) }
        ensures begins { IfOk result (λ n. (given : Limits) (entries : List EntryOf) (mutations : List MutationOf) (openings : ℕ → ShardOpening)
            → IsInMemory given entries mutations openings self.started.limits self.started.tables.items self.started.shards.items
            self.started.frontiers.items self.started.last_file self.started.live → (session : ℕ)
            → BeginsAs given entries mutations openings (F.disk self.folder) (⟦<Node<F, J> as Stored>⟧.state n session 0 (pos 0))) }
        ensures folder { IfOk result (λ n. n.room.folder ≡ self.folder) }
        ensures last { IfOk result (λ n. n.room.numbers.last ≡ self.started.last_file) }
        ensures sessions { IfOk result (λ n. ⟦<Node<F, J> as Stored>⟧.sessions n ≡ 0) }
        ensures kept { IfErr result (λ c. (c.folder ≡ self.folder) × (c.pass ≡ None) × (c.first ≡ None) × (c.tally ≡ self.tally)) }
    {
        let Opened {
            started,
            folder,
            tally,
            table,
        } = self;
        match make_seats::<J, F::Sealed>(alloc, table, &started.shards, started.last_file) {
            Ok(seats) => Ok(assembled(started, seats, folder, tally)),
            Err(Mem) => Err(not_opened(folder, tally)),
        }
    }
}
