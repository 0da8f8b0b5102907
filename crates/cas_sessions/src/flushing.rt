//! A flush: what the shards have of a table in memory comes into table files, which the manifest then lists.

ghost use Rattle.std.specs.Prelude.{◌≡◌, ◌≤◌, ◌<◌, ◌+◌, ◌∷◌, ◌++◌, ℕ, ℤ, List as ListOf, [], true, None, Some, Ok as OkOf, Err, pos};
ghost use Rattle.std.specs.Prelude.{length, slice_get, slice_set, IfOk, IfErr, IfSome, IfNone, OnErr, OnOk, vec_capacity, vec_len};
ghost use Rattle.std.specs.Option.{option_copied};
ghost use Rattle.std.specs.Arc.{arc_value};
ghost use Rattle.cas_disk.specs.Disk.{During, Image};
ghost use Rattle.cas_disk.specs.declared.name.Name.TheVariants.{Table as table_name};
ghost use Rattle.cas_changes.specs.declared.entry.Change.{Change as Wrote};
ghost use Rattle.cas_changes.specs.declared.entry.Entry.TheVariants as entry_of;
ghost use Rattle.cas_history.specs.Items.{listed};
ghost use Rattle.cas_history.specs.Last.{holds};
ghost use Rattle.cas_info.specs.Allowed.{FitsInfo};
ghost use Rattle.cas_info.specs.declared.info.TheConstants.{FILE_NUMBER_LIMIT};
ghost use Rattle.cas_lifecycle.specs.Books.{is_live};
ghost use Rattle.cas_refs.specs.Counts.{at};
ghost use Rattle.cas_room.specs.Changing.{Stand};
ghost use Rattle.cas_room.specs.Tables.{Begins};
ghost use Rattle.cas_room.specs.declared.table_files.TheConstants.{LIVE_LIMIT};
ghost use Rattle.cas_shard.specs.Flushing.{bytes_at, frozen_at};
ghost use Rattle.cas_shard.specs.Stands.{ShardState, files_at};
ghost use Rattle.cas_sessions.specs.Calls.{IsTrueOf};
ghost use Rattle.cas_sessions.specs.Filling.{Settles, listed_of};
ghost use Rattle.cas_lasting.specs.Flushed.{filled_with};
ghost use Rattle.cas_sessions.specs.Flushes.{Flushes};
ghost use Rattle.cas_lasting.specs.Listing.{SameUpTo};
ghost use Rattle.cas_lasting.specs.Numbering.{NumbersOn};
ghost use Rattle.cas_recovery.specs.Restored.{Remember};
ghost use Rattle.cas_lasting.specs.Nodes.{AreFilled, KeepsAll, LastsForOne, Moves, filled_of};
ghost use Rattle.cas_lasting.specs.Inner.Going.{AddsFile, IsChangeFor, Lists};
ghost use Rattle.cas_sessions.specs.Inner.Flushing.{FlushesFirst, FlushesNoFurther, FlushesOne, HasOneMore, IsOwn};
ghost use Rattle.cas_sessions.specs.Inner.Flushing.{HoldsNothing, IsMade, NewFile, SaysSo, TakesFile, WhyNoneMore};
ghost use Rattle.cas_lasting.specs.Inner.Going.{Quiet, StandsSo, WhyNoFile};
ghost use Rattle.cas_sessions.specs.Inner.Flushing.{WhyNotMade};
ghost use Rattle.cas_sessions.specs.Inner.Flushing.{fault_of_folder, fault_of_fresh, fault_of_load, fault_of_write};

use crate::answer::Fault;
use crate::node::{Node, Session, Stored};
use crate::writing::fault_for;
use cas_changes::{Change, Entry};
use cas_disk::{Draft, Folder, FolderFault, Sealed};
use cas_effects::{Refusal, TOO_MANY};
use cas_flushing::{view_of_flush, write_frozen};
use cas_history::Store;
use cas_info::TableInfo;
use cas_journal::JournalFault;
use cas_lifecycle::frontiers_stand;
use cas_memtable::next_key;
use cas_room::FreshFault;
use cas_shard::Shard;
use cas_sstread::{Table, TableFault};
use cas_sstwrite::WriteFault;
use cas_terms::table_named;
use cas_types::{List, Mem};
use cas_view::View;
use cql_parse::TableName;
use std::alloc::{AllocError, Global};
use std::sync::Arc;

/// The last timestamp of a shard that drew none.
const NONE_DRAWN: i64 = -2;

// What a flush is answered where no file was begun.
fn fault_of_fresh(fault: FreshFault) -> Fault
    ensures { result ≡ fault_of_fresh fault }
{
    match fault {
        FreshFault::Full { .. } => Fault::Refused(TOO_MANY),
        FreshFault::Failed => Fault::Disk { number: None },
        FreshFault::Mem => Fault::Mem,
    }
}

// What it is answered where the file wasn't written.
fn fault_of_write(fault: WriteFault) -> Fault
    ensures { result ≡ fault_of_write fault }
{
    match fault {
        WriteFault::Failed => Fault::Disk { number: None },
        WriteFault::Order | WriteFault::TooMany { .. } | WriteFault::Unfit => Fault::Refused(
            TOO_MANY,
        ),
        WriteFault::Mem => Fault::Mem,
    }
}

// Where the folder didn't get it.
fn fault_of_folder(fault: FolderFault) -> Fault
    ensures { result ≡ fault_of_folder fault }
{
    match fault {
        FolderFault::Failed => Fault::Disk { number: None },
        FolderFault::Mem => Fault::Mem,
    }
}

// Where it wasn't opened.
fn fault_of_load(fault: TableFault) -> Fault
    ensures { result ≡ fault_of_load fault }
{
    match fault {
        TableFault::ReadFault => Fault::Read,
        TableFault::BadBlock { number, at } => Fault::BadBlock { number, at },
        TableFault::Mem => Fault::Mem,
    }
}

// The change by which the manifest lists the file of a flush.
fn change_for<S: Sealed>(
    alloc: Global,
    shard: &Shard<S>,
    table: u16,
    place: u8,
    info: TableInfo,
) -> Result<Change, Mem>
    ensures { IfOk result (IsChangeFor table place info shard.now) }
{
    let mut added = Vec::new(alloc);
    added.push(info)?;
    Ok(Change {
        table,
        shard: place,
        moment: shard.moment(),
        frontier: shard.number(),
        drawn: shard.drawn().max(NONE_DRAWN),
        removed: List::from_vec(Vec::new(alloc)),
        added: List::from_vec(added),
    })
}

// The change that an entry tells.
fn change_in(entry: &Entry) -> &Change
    requires { (change : _) × (entry.now ≡ entry_of.Change change) }
    ensures { entry.now ≡ entry_of.Change result.now }
{
    match entry {
        Entry::Change(change) => change,
        _ => unreachable!(),
    }
}

// The frontier that stands there is this one then.
fn raise(frontiers: &mut Vec<u64>, at: usize, frontier: u64)
    ensures { frontiers.new.items ≡ slice_set frontiers.old.items at frontier }
{
    if let Some(raised) = frontiers.get_mut(at) {
        *raised = frontier;
    }
}

// The number of a file comes to the others, for which there is place, if there is one.
fn note(numbers: &mut Vec<u64>, number: Option<u64>)
    requires { vec_len numbers.old < vec_capacity numbers.old }
    ensures { numbers.new.items ≡ numbers.old.items ++ listed_of number }
{
    if let Some(number) = number {
        numbers.push_reserved(number);
    }
}

impl<F: Folder, J: Store> Node<F, J> {
    // Freezes what a shard has of a table in memory, and says how many memtables of it are frozen then.
    fn freeze(&mut self, alloc: Global, table: u16, place: u8) -> Result<usize, Mem>
        requires within { place < self.old.limits.shards }
        ensures quiet { (session calls : ℕ) (clock : ℤ) → Quiet (⟦<Node<F, J> as Stored>⟧.state self.old session calls clock)
            (⟦<Node<F, J> as Stored>⟧.state self.new session calls clock)
            (⟦<Node<F, J> as Stored>⟧.disk self.old) (⟦<Node<F, J> as Stored>⟧.disk self.new) }
        ensures tables { During (SameUpTo self.old.room.numbers.last) (⟦<Node<F, J> as Stored>⟧.disk self.old) (⟦<Node<F, J> as Stored>⟧.disk self.new) }
        ensures room { (self.new.room ≡ self.old.room) × (self.new.limits ≡ self.old.limits) × (self.new.tables ≡ self.old.tables) }
        ensures frozen { IfOk result (λ count. (x : ShardState) → slice_get self.new.shards.items place ≡ Some x
            → (count ≡ length (frozen_at (slice_get x.stores table))) × (bytes_at (slice_get x.stores table) ≡ 0)) }
        ensures begun { OnOk result ((filled : ℕ → ℕ → ℕ) → AreFilled filled self.old.shards.items
            → AreFilled (filled_with table place true filled) self.new.shards.items) }
        ensures stays { OnErr result ((filled : ℕ → ℕ → ℕ) → AreFilled filled self.old.shards.items → AreFilled filled self.new.shards.items) }
        ensures sessions { ⟦<Node<F, J> as Stored>⟧.sessions self.new ≡ ⟦<Node<F, J> as Stored>⟧.sessions self.old }
    {
        let shard = &mut self.shards[place as usize];
        match shard.freeze(alloc, table) {
            Ok(()) => Ok(shard.frozen(table).len()),
            Err(Mem) => Err(Mem),
        }
    }

    // Draws the number of a new file, which comes into the book, and begins the draft of it.
    fn begin_file(&mut self) -> Result<(u64, F::Draft), FreshFault>
        ensures quiet { (session calls : ℕ) (clock : ℤ) → Quiet (⟦<Node<F, J> as Stored>⟧.state self.old session calls clock)
            (⟦<Node<F, J> as Stored>⟧.state self.new session calls clock)
            (⟦<Node<F, J> as Stored>⟧.disk self.old) (⟦<Node<F, J> as Stored>⟧.disk self.new) }
        ensures tables { During (SameUpTo self.old.room.numbers.last) (⟦<Node<F, J> as Stored>⟧.disk self.old) (⟦<Node<F, J> as Stored>⟧.disk self.new) }
        ensures outcome { Begins self.old.live self.old.room.numbers.last (F.faults_of self.old.room.folder) (F.faults_of self.new.room.folder) result }
        ensures number { IfOk result (λ r. (self.old.room.numbers.last < r.0) × (r.0 ≤ self.new.room.numbers.last) × (r.0 ≤ FILE_NUMBER_LIMIT)
            × (F.Draft.number r.1 ≡ r.0)) }
        ensures next { self.new.room.numbers.last ≤ self.old.room.numbers.last + 1 }
        ensures empty { IfOk result (λ r. (b : ListOf ℕ) → F.Draft.written r.1 b → b ≡ []) }
        ensures held { IfOk result (λ r. holds r.0 (listed self.new.files.list self.new.files.pass.saw) ≡ true) }
        ensures booked { IfOk result (λ r. is_live (at self.new.book.refs r.0) ≡ true) }
        ensures room { IfOk result (λ r. self.new.live < LIVE_LIMIT) }
        ensures same { (self.new.shards ≡ self.old.shards) × (self.new.limits ≡ self.old.limits) × (self.new.tables ≡ self.old.tables)
            × (self.new.tally ≡ self.old.tally) }
        ensures sessions { ⟦<Node<F, J> as Stored>⟧.sessions self.new ≡ ⟦<Node<F, J> as Stored>⟧.sessions self.old }
    {
        let (number, draft) = match self.room.fresh(&mut self.files, self.live) {
            Ok(begun) => begun,
            Err(fault) => return Err(fault),
        };
        match self.book.add(number) {
            Ok(()) => Ok((number, draft)),
            Err(AllocError) => {
                drop(draft);
                Err(FreshFault::Mem)
            }
        }
    }

    // Puts the draft of a file into the folder, and opens it: gives a view of the files that the table has in the
    // shard, and of this one behind them.
    fn open_file(
        &mut self,
        alloc: Global,
        table: u16,
        place: u8,
        info: &TableInfo,
        draft: F::Draft,
    ) -> Result<Arc<View<Table<F::Sealed>>, Global>, Fault>
        requires within { (table < length self.old.tables.items) × (place < self.old.limits.shards) }
        requires synced { F.Draft.is_synced draft }
        requires fits { FitsInfo info.now × (F.Draft.number draft ≡ info.now.number) }
        ensures quiet { (session calls : ℕ) (clock : ℤ) → Quiet (⟦<Node<F, J> as Stored>⟧.state self.old session calls clock)
            (⟦<Node<F, J> as Stored>⟧.state self.new session calls clock)
            (⟦<Node<F, J> as Stored>⟧.disk self.old) (⟦<Node<F, J> as Stored>⟧.disk self.new) }
        ensures tables { (last : ℕ) → last < info.now.number
            → During (SameUpTo last) (⟦<Node<F, J> as Stored>⟧.disk self.old) (⟦<Node<F, J> as Stored>⟧.disk self.new) }
        ensures view { IfOk result (λ v. (t : _) (x : ShardState) → slice_get self.old.tables.items table ≡ Some t
            → slice_get self.old.shards.items place ≡ Some x → HasOneMore t place info.now (F.Draft.written draft)
            ((c : Image) × (⟦<Node<F, J> as Stored>⟧.disk self.old).reads c) (files_at (slice_get x.stores table)) (arc_value v)) }
        ensures stands { OnOk result (Stand (info.now.number ∷ []) (⟦<Node<F, J> as Stored>⟧.disk self.new)) }
        ensures left { OnOk result ((i : Image) → (⟦<Node<F, J> as Stored>⟧.disk self.new).may_leave i
            → (b : ListOf ℕ) × F.Draft.written draft b × (i (table_name info.now.number) ≡ Some b)) }
        ensures why { IfErr result (λ f. (t : _) → slice_get self.old.tables.items table ≡ Some t
            → WhyNoneMore t place info.now (F.Draft.written draft) ((c : Image) × (⟦<Node<F, J> as Stored>⟧.disk self.old).reads c)
            (F.faults_of self.old.room.folder) (F.faults_of self.new.room.folder) (F.Tally.number self.old.tally)
            (F.Tally.number self.new.tally) f) }
        ensures own { IfErr result IsOwn }
        ensures held { listed self.new.files.list self.new.files.pass.saw ≡ listed self.old.files.list self.old.files.pass.saw }
        ensures same { (self.new.shards ≡ self.old.shards) × (self.new.limits ≡ self.old.limits) × (self.new.tables ≡ self.old.tables)
            × (self.new.book ≡ self.old.book) × (self.new.live ≡ self.old.live) × (self.new.room.numbers ≡ self.old.room.numbers)
            × (self.new.files.list ≡ self.old.files.list) }
        ensures sessions { ⟦<Node<F, J> as Stored>⟧.sessions self.new ≡ ⟦<Node<F, J> as Stored>⟧.sessions self.old }
    {
        let file = match self.room.admit(&mut self.files, draft) {
            Ok(file) => file,
            Err(fault) => return Err(fault_of_folder(fault)),
        };
        let shard = &self.shards[place as usize];
        let schema = &self.tables[table as usize];
        match view_of_flush(alloc, shard, schema, place, info, file, &mut self.tally) {
            Ok(view) => Ok(view),
            Err(fault) => Err(fault_of_load(fault)),
        }
    }

    // Writes what a shard has frozen of a table to a new file, which the folder gets, and opens that: gives what is
    // told of it, and the view with it. None, and no number is drawn, where nothing is frozen that has an atom. No
    // manifest lists it yet.
    fn make_file(
        &mut self,
        alloc: Global,
        table: u16,
        place: u8,
    ) -> Result<Option<(TableInfo, Arc<View<Table<F::Sealed>>, Global>)>, Fault>
        requires within { (table < length self.old.tables.items) × (place < self.old.limits.shards) }
        ensures quiet { (session calls : ℕ) (clock : ℤ) → Quiet (⟦<Node<F, J> as Stored>⟧.state self.old session calls clock)
            (⟦<Node<F, J> as Stored>⟧.state self.new session calls clock)
            (⟦<Node<F, J> as Stored>⟧.disk self.old) (⟦<Node<F, J> as Stored>⟧.disk self.new) }
        ensures tables { During (SameUpTo self.old.room.numbers.last) (⟦<Node<F, J> as Stored>⟧.disk self.old) (⟦<Node<F, J> as Stored>⟧.disk self.new) }
        ensures made { IfOk result (λ o. IfSome o (λ m. (t : _) (x : ShardState) → slice_get self.old.tables.items table ≡ Some t
            → slice_get self.old.shards.items place ≡ Some x → IsMade t (slice_get x.stores table)
            ((c : Image) × (⟦<Node<F, J> as Stored>⟧.disk self.old).reads c) self.old.room.numbers.last m.0 (arc_value m.1))) }
        ensures nothing { IfOk result (λ o. IfNone o ((t : _) (x : ShardState) → slice_get self.old.tables.items table ≡ Some t
            → slice_get self.old.shards.items place ≡ Some x → HoldsNothing t (slice_get x.stores table))) }
        ensures stands { IfOk result (λ o. IfSome o (λ m. Stand (m.0.number ∷ []) (⟦<Node<F, J> as Stored>⟧.disk self.new))) }
        ensures left { IfOk result (λ o. IfSome o (λ m. (t : _) (x : ShardState) → slice_get self.old.tables.items table ≡ Some t
            → slice_get self.old.shards.items place ≡ Some x
            → StandsSo t place m.0 (slice_get x.stores table) (⟦<Node<F, J> as Stored>⟧.disk self.new))) }
        ensures held { IfOk result (λ o. IfSome o (λ m. (holds m.0.number (listed self.new.files.list self.new.files.pass.saw) ≡ true)
            × (is_live (at self.new.book.refs m.0.number) ≡ true) × (self.new.live < LIVE_LIMIT)
            × (m.0.number ≤ self.new.room.numbers.last))) }
        ensures next { self.new.room.numbers.last ≤ self.old.room.numbers.last + 1 }
        ensures idle { IfOk result (λ o. IfNone o (self.new.room.numbers.last ≡ self.old.room.numbers.last)) }
        ensures why { IfErr result (λ f. (c : Image) → (⟦<Node<F, J> as Stored>⟧.disk self.old).reads c
            → Remember self.old.tables.items self.old.shards.items → (t : _) (x : ShardState) → slice_get self.old.tables.items table ≡ Some t
            → slice_get self.old.shards.items place ≡ Some x
            → WhyNotMade (WhyNoFile t place self.old.live self.old.room.numbers.last (frozen_at (slice_get x.stores table)))
            (F.faults_of self.old.room.folder) (F.faults_of self.new.room.folder) (F.Tally.number self.old.tally)
            (F.Tally.number self.new.tally) f) }
        ensures own { IfErr result IsOwn }
        ensures same { (self.new.shards ≡ self.old.shards) × (self.new.limits ≡ self.old.limits) × (self.new.tables ≡ self.old.tables) }
        ensures sessions { ⟦<Node<F, J> as Stored>⟧.sessions self.new ≡ ⟦<Node<F, J> as Stored>⟧.sessions self.old }
    {
        if next_key(self.shards[place as usize].frozen(table), None).is_none() {
            return Ok(None);
        }
        let (number, draft) = match self.begin_file() {
            Ok(begun) => begun,
            Err(fault) => return Err(fault_of_fresh(fault)),
        };
        let shard = &self.shards[place as usize];
        let schema = &self.tables[table as usize];
        let (info, draft) = match write_frozen(
            alloc,
            shard,
            schema,
            place,
            number,
            draft,
            &mut self.tally,
        ) {
            Ok(Some(written)) => written,
            Ok(None) => return Ok(None),
            Err(fault) => return Err(fault_of_write(fault)),
        };
        match self.open_file(alloc, table, place, &info, draft) {
            Ok(view) => Ok(Some((info, view))),
            Err(fault) => {
                drop(info);
                Err(fault)
            }
        }
    }

    // The manifest and the history get the change that an entry tells, which adds the file of that number.
    fn install_change(
        &mut self,
        alloc: Global,
        session: &mut Session<J>,
        place: u8,
        number: u64,
        entry: &Entry,
    ) -> Result<(), JournalFault>
        requires within { place < self.old.limits.shards }
        requires adds { (c : Wrote) × (entry.now ≡ entry_of.Change c) × AddsFile self.old.tables.items self.old.shards.items place number c }
        requires stand { Stand (number ∷ []) (⟦<Node<F, J> as Stored>⟧.disk self.old) }
        requires held { (holds number (listed self.old.files.list self.old.files.pass.saw) ≡ true)
            × (is_live (at self.old.book.refs number) ≡ true) }
        requires room { self.old.live < LIVE_LIMIT }
        ensures lists { (clock : ℤ) (c : Wrote) → entry.now ≡ entry_of.Change c
            → Lists c result (⟦<Node<F, J> as Stored>⟧.state self.old session.old.seat.list session.old.seat.calls clock)
            (⟦<Node<F, J> as Stored>⟧.state self.new session.new.seat.list session.new.seat.calls clock)
            (⟦<Node<F, J> as Stored>⟧.disk self.old) (⟦<Node<F, J> as Stored>⟧.disk self.new) }
        ensures same { (self.new.shards ≡ self.old.shards) × (self.new.limits ≡ self.old.limits) × (self.new.tables ≡ self.old.tables) }
        ensures sessions { ⟦<Node<F, J> as Stored>⟧.sessions self.new ≡ ⟦<Node<F, J> as Stored>⟧.sessions self.old }
    {
        let change = change_in(entry);
        let changes = &mut self.changes[place as usize];
        let copy = &mut self.copies[place as usize];
        let front = &mut self.fronts[place as usize];
        frontiers_stand(changes, front);
        match self.room.install(
            alloc,
            &mut session.seat,
            changes,
            copy,
            &mut self.book,
            &mut self.files,
            front,
            entry,
            change,
            &[number],
        ) {
            Ok(()) => {
                self.live += 1;
                let at = change.table as usize * self.limits.shards as usize
                    + change.shard as usize;
                raise(&mut self.frontiers, at, change.frontier);
                Ok(())
            }
            Err(fault) => Err(fault),
        }
    }

    // The new file of a table is listed, and takes the place of so many frozen memtables, which are all.
    fn take_file(
        &mut self,
        alloc: Global,
        session: &mut Session<J>,
        table: u16,
        place: u8,
        info: TableInfo,
        view: Arc<View<Table<F::Sealed>>, Global>,
        count: usize,
    ) -> Result<Option<u64>, Fault>
        requires within { (table < length self.old.tables.items) × (place < self.old.limits.shards) }
        requires going { self.old.room.journal.first ≡ None }
        requires new { (t : _) (x : ShardState) → slice_get self.old.tables.items table ≡ Some t
            → slice_get self.old.shards.items place ≡ Some x → NewFile t (slice_get x.stores table) info (arc_value view) }
        requires frozen { (x : ShardState) → slice_get self.old.shards.items place ≡ Some x → (1 ≤ count)
            × (count ≡ length (frozen_at (slice_get x.stores table))) × (bytes_at (slice_get x.stores table) ≡ 0) }
        requires stand { Stand (info.number ∷ []) (⟦<Node<F, J> as Stored>⟧.disk self.old) }
        requires held { (holds info.number (listed self.old.files.list self.old.files.pass.saw) ≡ true)
            × (is_live (at self.old.book.refs info.number) ≡ true) }
        requires room { (self.old.live < LIVE_LIMIT) × (info.number ≤ self.old.room.numbers.last) }
        ensures takes { (clock : ℤ) (t : _) (x : ShardState) → slice_get self.old.tables.items table ≡ Some t
            → slice_get self.old.shards.items place ≡ Some x → (new : NewFile t (slice_get x.stores table) info (arc_value view))
            → TakesFile t place info.number (SaysSo t (slice_get x.stores table) new.file)
            (StandsSo t place info (slice_get x.stores table) (⟦<Node<F, J> as Stored>⟧.disk self.old)) result
            (⟦<Node<F, J> as Stored>⟧.state self.old session.old.seat.list session.old.seat.calls clock)
            (⟦<Node<F, J> as Stored>⟧.state self.new session.new.seat.list session.new.seat.calls clock)
            (⟦<Node<F, J> as Stored>⟧.disk self.old) (⟦<Node<F, J> as Stored>⟧.disk self.new) }
        ensures going { OnOk result (self.new.room.journal.first ≡ None) }
        ensures same { (self.new.limits ≡ self.old.limits) × (self.new.tables ≡ self.old.tables) }
        ensures sessions { ⟦<Node<F, J> as Stored>⟧.sessions self.new ≡ ⟦<Node<F, J> as Stored>⟧.sessions self.old }
    {
        let number = info.number;
        let change = match change_for(alloc, &self.shards[place as usize], table, place, info) {
            Ok(change) => change,
            Err(Mem) => {
                drop(view);
                return Err(Fault::Mem);
            }
        };
        let entry = Entry::Change(change);
        if let Err(fault) = self.install_change(alloc, session, place, number, &entry) {
            drop(entry);
            drop(view);
            return Err(fault_for(fault));
        }
        drop(entry);
        let shard = &mut self.shards[place as usize];
        shard.swap(table, view, count);
        Ok(Some(number))
    }

    // Flushes a table in a shard: gives the number of its new file, if there was anything to write.
    fn flush_shard(
        &mut self,
        alloc: Global,
        session: &mut Session<J>,
        table: u16,
        place: u8,
    ) -> Result<Option<u64>, Fault>
        requires within { (table < length self.old.tables.items) × (place < self.old.limits.shards) }
        requires going { self.old.room.journal.first ≡ None }
        ensures flushes { (clock : ℤ) (t : _) → slice_get self.old.tables.items table ≡ Some t → FlushesOne t place result
            (⟦<Node<F, J> as Stored>⟧.state self.old session.old.seat.list session.old.seat.calls clock)
            (⟦<Node<F, J> as Stored>⟧.state self.new session.new.seat.list session.new.seat.calls clock)
            (⟦<Node<F, J> as Stored>⟧.disk self.old) (⟦<Node<F, J> as Stored>⟧.disk self.new) }
        ensures going { OnOk result (self.new.room.journal.first ≡ None) }
        ensures same { (self.new.limits ≡ self.old.limits) × (self.new.tables ≡ self.old.tables) }
        ensures sessions { ⟦<Node<F, J> as Stored>⟧.sessions self.new ≡ ⟦<Node<F, J> as Stored>⟧.sessions self.old }
    {
        let count = match self.freeze(alloc, table, place) {
            Ok(0) => return Ok(None),
            Ok(count) => count,
            Err(Mem) => return Err(Fault::Mem),
        };
        let (info, view) = match self.make_file(alloc, table, place) {
            Ok(Some(made)) => made,
            Ok(None) => return Ok(None),
            Err(fault) => return Err(fault),
        };
        self.take_file(alloc, session, table, place, info, view, count)
    }

    // Flushes a table in all shards, one after another.
    fn flush_table(
        &mut self,
        alloc: Global,
        session: &mut Session<J>,
        table: u16,
    ) -> Result<Vec<u64>, Fault>
        requires within { table < length self.old.tables.items }
        requires going { self.old.room.journal.first ≡ None }
        ensures flushed { IfOk result (λ v. (clock : ℤ) (t : _) → slice_get self.old.tables.items table ≡ Some t
            → FlushesFirst t (length self.old.shards.items) v.items
            (⟦<Node<F, J> as Stored>⟧.state self.old session.old.seat.list session.old.seat.calls clock)
            (⟦<Node<F, J> as Stored>⟧.state self.new session.new.seat.list session.new.seat.calls clock)
            (⟦<Node<F, J> as Stored>⟧.disk self.old) (⟦<Node<F, J> as Stored>⟧.disk self.new)) }
        ensures failed { IfErr result (λ f. (clock : ℤ) (t : _) → slice_get self.old.tables.items table ≡ Some t
            → FlushesNoFurther t f
            (⟦<Node<F, J> as Stored>⟧.state self.old session.old.seat.list session.old.seat.calls clock)
            (⟦<Node<F, J> as Stored>⟧.state self.new session.new.seat.list session.new.seat.calls clock)
            (⟦<Node<F, J> as Stored>⟧.disk self.old) (⟦<Node<F, J> as Stored>⟧.disk self.new)) }
        ensures going { OnOk result (self.new.room.journal.first ≡ None) }
        ensures same { (self.new.limits ≡ self.old.limits) × (self.new.tables ≡ self.old.tables) }
        ensures sessions { ⟦<Node<F, J> as Stored>⟧.sessions self.new ≡ ⟦<Node<F, J> as Stored>⟧.sessions self.old }
    {
        let mut numbers = Vec::new(alloc);
        for place in 0..self.shards.len() as u8 {
            if let Err(AllocError) = numbers.reserve(1) {
                return Err(Fault::Mem);
            }
            match self.flush_shard(alloc, session, table, place) {
                Ok(number) => note(&mut numbers, number),
                Err(fault) => return Err(fault),
            }
        }
        Ok(numbers)
    }

    /// Flushes a table: what each shard has of it in memory comes into one table file more, if that is anything. Gives
    /// the numbers of the new files, in the order of the shards. Where a fault comes between, the shards before it
    /// are flushed. It takes the time of what is in memory: each file's bytes are written once, and its index and
    /// filter are read back.
    pub fn flush(
        &mut self,
        alloc: Global,
        session: &mut Session<J>,
        name: &TableName,
    ) -> Result<Vec<u64>, Fault>
        ensures flushes { IfOk result (λ v. (clock : ℤ) (c : Image) → (⟦<Node<F, J> as Stored>⟧.disk self.old).reads c
            → Moves (λ h after. Flushes h name.now (OkOf v.items) after)
            (⟦<Node<F, J> as Stored>⟧.state self.old session.old.seat.list session.old.seat.calls clock)
            (⟦<Node<F, J> as Stored>⟧.state self.new session.new.seat.list session.new.seat.calls clock)
            (⟦<Node<F, J> as Stored>⟧.disk self.old) (⟦<Node<F, J> as Stored>⟧.disk self.new)) }
        ensures faults { IfErr result (λ f. (clock : ℤ) (c : Image) → (⟦<Node<F, J> as Stored>⟧.disk self.old).reads c
            → LastsForOne (⟦<Node<F, J> as Stored>⟧.state self.old session.old.seat.list session.old.seat.calls clock)
            (⟦<Node<F, J> as Stored>⟧.disk self.old)
            → Moves (λ h after. Flushes h name.now (Err f) after)
            (⟦<Node<F, J> as Stored>⟧.state self.old session.old.seat.list session.old.seat.calls clock)
            (⟦<Node<F, J> as Stored>⟧.state self.new session.new.seat.list session.new.seat.calls clock)
            (⟦<Node<F, J> as Stored>⟧.disk self.old) (⟦<Node<F, J> as Stored>⟧.disk self.new)) }
        ensures crash { (clock : ℤ) → KeepsAll (⟦<Node<F, J> as Stored>⟧.state self.old session.old.seat.list session.old.seat.calls clock)
            (⟦<Node<F, J> as Stored>⟧.state self.new session.new.seat.list session.new.seat.calls clock)
            (⟦<Node<F, J> as Stored>⟧.disk self.old) (⟦<Node<F, J> as Stored>⟧.disk self.new) }
        ensures tables { During (SameUpTo self.old.room.numbers.last) (⟦<Node<F, J> as Stored>⟧.disk self.old) (⟦<Node<F, J> as Stored>⟧.disk self.new) }
        ensures last { self.old.room.numbers.last ≤ self.new.room.numbers.last }
        ensures numbers { (clock : ℤ) → NumbersOn (⟦<Node<F, J> as Stored>⟧.state self.old session.old.seat.list session.old.seat.calls clock)
            (⟦<Node<F, J> as Stored>⟧.state self.new session.new.seat.list session.new.seat.calls clock) }
        ensures told { IfErr result (λ f. IsTrueOf (Err f) (⟦<Node<F, J> as Stored>⟧.state self.old session.old.seat.list session.old.seat.calls (pos 0))
            (⟦<Node<F, J> as Stored>⟧.state self.new session.new.seat.list session.new.seat.calls (pos 0))) }
        ensures counts { (session.new.seat.calls ≡ session.old.seat.calls) × (self.new.room.accepted ≡ self.old.room.accepted) }
        ensures limits { self.new.limits ≡ self.old.limits }
        ensures sessions { ⟦<Node<F, J> as Stored>⟧.sessions self.new ≡ ⟦<Node<F, J> as Stored>⟧.sessions self.old }
    {
        let table = match table_named(&self.tables, name) {
            Some(table) => table.number,
            None => return Err(Fault::Refused(Refusal::NoTable.number())),
        };
        if let Some(first) = self.room.stopped() {
            return Err(Fault::Stopped(first));
        }
        match self.flush_table(alloc, session, table) {
            Ok(numbers) => Ok(numbers),
            Err(fault) => Err(fault),
        }
    }

    /// Flushes the memtable of a table in a shard, where it has more bytes of records than the limit: gives the number of
    /// its file, if there was anything to write. It is for a mutation that was just accepted, whose answer tells table and
    /// shard. Where it isn't full, it takes the time of one comparison.
    pub fn flush_full(
        &mut self,
        alloc: Global,
        session: &mut Session<J>,
        table: u16,
        shard: u8,
    ) -> Result<Option<u64>, Fault>
        requires within { (table < length self.old.tables.items) × (shard < self.old.limits.shards) }
        ensures settles { (clock : ℤ) (c : Image) → (⟦<Node<F, J> as Stored>⟧.disk self.old).reads c
            → LastsForOne (⟦<Node<F, J> as Stored>⟧.state self.old session.old.seat.list session.old.seat.calls clock)
            (⟦<Node<F, J> as Stored>⟧.disk self.old)
            → Moves (λ h after. Settles h shard table result after)
            (⟦<Node<F, J> as Stored>⟧.state self.old session.old.seat.list session.old.seat.calls clock)
            (⟦<Node<F, J> as Stored>⟧.state self.new session.new.seat.list session.new.seat.calls clock)
            (⟦<Node<F, J> as Stored>⟧.disk self.old) (⟦<Node<F, J> as Stored>⟧.disk self.new) }
        ensures idle { filled_of (⟦<Node<F, J> as Stored>⟧.state self.old session.old.seat.list session.old.seat.calls (pos 0)) shard table
            ≤ self.old.limits.memtable → (result ≡ OkOf None) × (self.new ≡ self.old) × (session.new ≡ session.old) }
        ensures crash { (clock : ℤ) → KeepsAll (⟦<Node<F, J> as Stored>⟧.state self.old session.old.seat.list session.old.seat.calls clock)
            (⟦<Node<F, J> as Stored>⟧.state self.new session.new.seat.list session.new.seat.calls clock)
            (⟦<Node<F, J> as Stored>⟧.disk self.old) (⟦<Node<F, J> as Stored>⟧.disk self.new) }
        ensures tables { During (SameUpTo self.old.room.numbers.last) (⟦<Node<F, J> as Stored>⟧.disk self.old) (⟦<Node<F, J> as Stored>⟧.disk self.new) }
        ensures last { self.old.room.numbers.last ≤ self.new.room.numbers.last }
        ensures numbers { (clock : ℤ) → NumbersOn (⟦<Node<F, J> as Stored>⟧.state self.old session.old.seat.list session.old.seat.calls clock)
            (⟦<Node<F, J> as Stored>⟧.state self.new session.new.seat.list session.new.seat.calls clock) }
        ensures told { IfErr result (λ f. IsTrueOf (Err f) (⟦<Node<F, J> as Stored>⟧.state self.old session.old.seat.list session.old.seat.calls (pos 0))
            (⟦<Node<F, J> as Stored>⟧.state self.new session.new.seat.list session.new.seat.calls (pos 0))) }
        ensures counts { (session.new.seat.calls ≡ session.old.seat.calls) × (self.new.room.accepted ≡ self.old.room.accepted) }
        ensures limits { self.new.limits ≡ self.old.limits }
        ensures sessions { ⟦<Node<F, J> as Stored>⟧.sessions self.new ≡ ⟦<Node<F, J> as Stored>⟧.sessions self.old }
    {
        if self.shards[shard as usize].bytes(table) <= self.limits.memtable {
            return Ok(None);
        }
        if let Some(first) = self.room.stopped() {
            return Err(Fault::Stopped(first));
        }
        self.flush_shard(alloc, session, table, shard)
    }
}
