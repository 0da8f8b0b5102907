//! A store that is open: its tables and shards in memory, its room on the disk, and the sessions that share it.

ghost use Rattle.std.specs.Prelude.{◌≡◌, ◌≢◌, ◌+◌, ◌≤◌, ◌<◌, ℕ, ℤ, List, [], map, Err, IfOk, None, OnErr, IfSome, IsSome};
ghost use Rattle.cas_disk.specs.Disk.{Disk, Image};
ghost use Rattle.cas_atoms.specs.declared.atom.Mutation.{Mutation};
ghost use Rattle.cas_journal.specs.Stores.{Told};
ghost use Rattle.cas_history.specs.Items.{listed};
ghost use Rattle.cas_history.specs.Last.{Idle};
ghost use Rattle.cas_recovery.specs.Restored.{HaveMemory, HaveNoMore, MayBeRead};
ghost use Rattle.cas_refs.specs.Counts.{at};
ghost use Rattle.cas_lasting.specs.Entered.{IsLeft};
ghost use Rattle.cas_lasting.specs.History.{History};
ghost use Rattle.cas_lasting.specs.Nodes.{State, StandsFor, LastsFor};
ghost use Rattle.cas_lasting.specs.Inner.Sound.{AreSeated, IsSound, read_props, sound_props};

use cas_bind::Limits;
use cas_disk::Folder;
use cas_gates::First;
use cas_history::{Files, Front, Item, Kept, Session as Seat, Store};
use cas_lifecycle::{Book, Changes, Maker, RoomCopy};
use cas_room::{Event, Room};
use cas_shard::Shard;
use cas_types::TableSchema;
use std::alloc::AllocError;
use std::marker::Model;

/// How many sessions may be out at a time.
pub const SESSION_LIMIT: u64 = 33;

// How many numbers of lists a history gives to sessions.
const LIST_LIMIT: u64 = 4_294_967_000;

/// What contracts see of an open store.
pub trait Stored {
    // What it is made of, as a session of this number that wrote so often has it, at these seconds of the clock.
    ghost state: { Self → ℕ → ℕ → ℤ → State };

    // What is known of its folder.
    ghost disk: { Self → Disk };

    // How many sessions are out.
    ghost sessions: { Self → ℕ };
}

/// The one history of a run: what it accepted, in the order in which it did. It is kept by the proofs alone.
#[derive(Drop)]
pub struct Pass {
    pub(crate) kept: Kept<Item<Event>>,
}

impl Model for Pass {
    ghost use Rattle.std.specs.Prelude.{List};
    ghost use Rattle.cas_history.specs.declared.item.Item.{Item};
    ghost use Rattle.cas_history.specs.Items.{listed, log_list};
    ghost use Rattle.cas_room.specs.declared.event.Event.{Event};

    ghost Value = { List (Item Event) };

    ghost view = { λ p. listed log_list p.kept.saw };
}

/// A client's session: its seat in the one history. `Node::end` takes it back; it can't be dropped.
pub struct Session<J: Store> {
    pub(crate) seat: Seat<Event, J>,
    ghost idle: { Idle (listed seat.list seat.pass.saw) },
}

/// Why a session wasn't begun.
#[derive(Clone, Copy, Debug, PartialEq, Eq)]
pub enum SessionFault {
    /// As many are out as may be.
    TooMany,
    /// Memory ran out, or two billion sessions had been begun.
    Mem,
}

/// A store that was closed: the folder, the history (none where no store was opened), the count of the
/// faults of what was read in table files, and the fault that stopped all writes, where one did.
pub struct Closed<F: Folder> {
    pub folder: F,
    pub pass: Option<Pass>,
    pub tally: F::Tally,
    pub first: Option<First>,
}

impl<F: Folder> Closed<F> {
    /// The folder alone.
    pub fn into_folder(self) -> F
        ensures { result ≡ self.folder }
    {
        let Closed {
            folder,
            pass: _pass,
            tally: _tally,
            first: _first,
        } = self;
        folder
    }
}

/// A store that is open, which its sessions share: the limits, the tables, the shards with their seats in
/// the history, the room, the count of the faults of what was read in table files, and the right to make
/// sessions; each shard's changes of table files, with the room's copies of them, the book of the files that
/// this run wrote, who draws the numbers of files, and how many files the manifest lists. `close` ends it; it
/// can't be dropped. `J` names its history.
pub struct Node<F: Folder, J: Store> {
    pub(crate) limits: Limits,
    pub(crate) tables: Vec<TableSchema>,
    pub(crate) shards: Vec<Shard<F::Sealed>>,
    pub(crate) fronts: Vec<Front<Event, J>>,
    pub(crate) room: Room<F, J>,
    pub(crate) tally: F::Tally,
    pub(crate) maker: Maker<Event, J>,
    pub(crate) changes: Vec<Changes<Event, J>>,
    pub(crate) copies: Vec<RoomCopy<Event, J>>,
    pub(crate) book: Book<Event, J>,
    pub(crate) files: Files<Event, J>,
    pub(crate) live: u64,
    /// Of each table in each shard, table by table, up to which number its files have all mutations.
    pub(crate) frontiers: Vec<u64>,
    ghost sound: { IsSound limits tables.items shards.items (map (λ f. f.shard) fronts.items) (map (λ f. f.number) fronts.items)
        room.journal.size } by { Prim.hlevel sound_props },
    ghost readable: { MayBeRead tables.items shards.items } by { Prim.hlevel read_props },
    ghost unmade: { HaveNoMore tables.items shards.items },
    ghost kept: { HaveMemory tables.items shards.items },
    ghost seated: { AreSeated limits (map (λ c. c.shard) changes.items) (map (λ c. c.shard) copies.items) } by { Prim.hlevel sound_props },
    ghost unlisted: { (k : ℕ) → room.numbers.last < k → at book.refs k ≡ None },
}

impl<F: Folder, J: Store> Stored for Node<F, J> {
    ghost use Rattle.cas_history.specs.Items.{log_list};

    ghost state = { λ n session calls clock. record {
      limits = n.limits;
      tables = n.tables.items;
      shards = n.shards.items;
      places = map (λ f. f.shard) n.fronts.items;
      numbers = map (λ f. f.number) n.fronts.items;
      clock = clock;
      list = listed log_list n.room.log.pass.saw;
      session = session;
      calls = calls;
      accepted = n.room.accepted;
      committed = n.room.faults.committed;
      journal = n.room.journal;
      faults = F.faults_of n.room.folder;
      reads = F.Tally.number n.tally;
      last_file = n.room.numbers.last;
      live = n.live;
      frontiers = n.frontiers.items;
    } };

    ghost disk = { λ n. F.disk n.room.folder };

    ghost sessions = { λ n. n.maker.out };
}

impl<F: Folder, J: Store> Node<F, J> {
    /// Begins a session, which wrote nothing so far.
    pub fn session(&mut self) -> Result<Session<J>, SessionFault>
        ensures many { result ≡ Err SessionFault.TooMany → SESSION_LIMIT ≤ ⟦<Node<F, J> as Stored>⟧.sessions self.old }
        ensures few { SESSION_LIMIT ≤ ⟦<Node<F, J> as Stored>⟧.sessions self.old → result ≡ Err SessionFault.TooMany }
        ensures begun { IfOk result (λ s. (s.seat.calls ≡ 0)
            × (⟦<Node<F, J> as Stored>⟧.sessions self.new ≡ ⟦<Node<F, J> as Stored>⟧.sessions self.old + 1)) }
        ensures unbegun { OnErr result (⟦<Node<F, J> as Stored>⟧.sessions self.new ≡ ⟦<Node<F, J> as Stored>⟧.sessions self.old) }
        ensures same { ⟦<Node<F, J> as Stored>⟧.state self.new ≡ ⟦<Node<F, J> as Stored>⟧.state self.old }
        ensures room { self.new.room ≡ self.old.room }
    {
        if self.maker.out() >= SESSION_LIMIT {
            return Err(SessionFault::TooMany);
        }
        if self.maker.next() >= LIST_LIMIT {
            return Err(SessionFault::Mem);
        }
        match self.maker.session() {
            Ok(seat) => Ok(Session { seat }),
            Err(AllocError) => Err(SessionFault::Mem),
        }
    }

    /// Ends a session.
    pub fn end(&mut self, session: Session<J>)
        ensures ended { ⟦<Node<F, J> as Stored>⟧.sessions self.new + 1 ≡ ⟦<Node<F, J> as Stored>⟧.sessions self.old }
        ensures same { ⟦<Node<F, J> as Stored>⟧.state self.new ≡ ⟦<Node<F, J> as Stored>⟧.state self.old }
        ensures room { self.new.room ≡ self.old.room }
    {
        let Session { seat } = session;
        self.maker.keep(seat);
    }

    /// Closes the store. Whatever a crash leaves of the folder has all that was found, and behind it a front
    /// of what was accepted, with all that was acknowledged, and all of it where no write failed.
    pub fn close(self) -> Closed<F>
        ensures folder { result.folder ≡ self.room.folder }
        ensures first { (session calls : ℕ) (clock : ℤ) → result.first ≡ (⟦<Node<F, J> as Stored>⟧.state self session calls clock).journal.first }
        ensures pass { (session calls : ℕ) (clock : ℤ)
            → IfSome result.pass (λ p. p ≡ (⟦<Node<F, J> as Stored>⟧.state self session calls clock).list) }
        ensures some { IsSome result.pass }
        ensures left { (session calls : ℕ) (clock : ℤ) (h : History) (found : List Mutation) (told : Told)
            → StandsFor h (⟦<Node<F, J> as Stored>⟧.state self session calls clock)
            → LastsFor h found (⟦<Node<F, J> as Stored>⟧.state self session calls clock) (⟦<Node<F, J> as Stored>⟧.disk self) told
            → (c : Image) → (F.disk result.folder).may_leave c
            → IsLeft found (⟦<Node<F, J> as Stored>⟧.state self session calls clock).list h c }
        ensures tally { result.tally ≡ self.tally }
    {
        self.room.images_stand();
        let Node {
            limits: _limits,
            tables: _tables,
            shards: _shards,
            fronts: _fronts,
            room,
            tally,
            maker: _maker,
            changes: _changes,
            copies: _copies,
            book: _book,
            files: _files,
            live: _live,
            frontiers: _frontiers,
        } = self;
        let (folder, first, log) = room.close();
        Closed {
            folder,
            pass: Some(Pass {
                kept: log.pass.kept(),
            }),
            tally,
            first,
        }
    }
}
