//! The slow reference: what each line of a script does with it.

ghost use Rattle.std.specs.Prelude.{◌≡◌, ◌≤◌, vec_len};
ghost use Rattle.cas_types.specs.Limits.{IsMoment, IsShardCount};
ghost use Rattle.cas_bind.specs.Tables.{AreTables};
ghost use Rattle.cas_reference.specs.Inner.Made.{made_props};

use crate::accepted::Accepted;
use crate::altered::altered;
use crate::reading::reading;
use crate::status::status_of;
use cas_bind::{Bound, BoundRead, Limits, bind};
use cas_define::Addition;
use cas_effects::{BindFault, BoundWrite, NOT_HERE, Refusal, SYNTAX};
use cas_io::Clock;
use cas_lines::{Line, read_line};
use cas_render::Reply;
use cas_terms::table_named;
use cas_types::{List, Mem, TableSchema};
use cas_words::{ClockKind, Command};
use cql_parse::{Statement, TableName};
use std::alloc::Global;

/// The store: its tables and what it accepted; and of a run its limits, its clock, and the seconds that this
/// was set to.
#[derive(Drop)]
pub struct Reference {
    pub(crate) tables: Vec<TableSchema>,
    pub(crate) accepted: Accepted,
    pub(crate) limits: Limits,
    pub(crate) kind: ClockKind,
    pub(crate) seconds: i64,
    ghost shards: { IsShardCount limits.shards },
    ghost each: { vec_len accepted.met ≡ limits.shards },
    ghost moment: { IsMoment seconds },
    ghost made: { AreTables tables.items } by { Prim.hlevel made_props },
}

impl Reference {
    ghost use Rattle.std.specs.Prelude.{◌≡◌, Ok as OkOf, IfOk, OnOk};
    ghost use Rattle.cas_types.specs.Limits.{IsMoment, IsShardCount};
    ghost use Rattle.cas_bind.specs.Meaning.{meaning};
    ghost use Rattle.cas_bind.specs.Tables.{AreTables, IsWithin, tables_after};
    ghost use Rattle.cas_bind.specs.declared.bound.Bound.TheVariants as bounds;
    ghost use Rattle.cas_lines.specs.Lines.{Says};
    ghost use Rattle.cas_render.specs.declared.reply.Reply.TheVariants as replies;
    ghost use Rattle.cas_terms.specs.Columns.{table_named};
    ghost use Rattle.cas_reference.specs.Replies.{Answers, Does, SetsClock, begun, flushed, new_store, verified, with_tables};
    ghost use Rattle.cas_reference.specs.Held.{held};

    /// A store that this command makes.
    pub fn new(alloc: Global, command: &Command) -> Result<Self, Mem>
        requires { IsShardCount command.now.limits.shards }
        ensures { IfOk result (λ r. held r ≡ new_store command.now) }
    {
        Ok(Reference {
            tables: Vec::new(alloc),
            accepted: Accepted::new(alloc, command.limits.shards)?,
            limits: command.limits,
            kind: command.clock,
            seconds: 0,
        })
    }

    /// Begins a further run. The store keeps its shards, its tables and its mutations.
    pub fn begin(&mut self, alloc: Global, command: &Command) -> Result<(), Mem>
        ensures { OnOk result (held self.new ≡ begun command.now (held self.old)) }
    {
        self.accepted.reopen(alloc)?;
        self.limits = Limits {
            shards: self.limits.shards,
            ..command.limits
        };
        self.kind = command.clock;
        self.seconds = 0;
        Ok(())
    }

    #[tactic(auto, unfolding(cas_bind::specs::Tables::tables_after))]
    fn create(&mut self, table: TableSchema) -> Result<Reply, Mem>
        requires { AreTables (tables_after self.old.tables.items (bounds.Create table)) }
        ensures done { IfOk result (λ r. r ≡ replies.Done) }
        ensures tables { OnOk result (held self.new ≡ with_tables (bounds.Create table) (held self.old)) }
    {
        self.tables.push(table)?;
        Ok(Reply::Done)
    }

    #[tactic(auto, unfolding(cas_bind::specs::Tables::tables_after))]
    fn alter(&mut self, alloc: Global, addition: Addition) -> Result<Reply, Mem>
        requires { AreTables (tables_after self.old.tables.items (bounds.Alter addition)) }
        ensures done { IfOk result (λ r. r ≡ replies.Done) }
        ensures tables { OnOk result (held self.new ≡ with_tables (bounds.Alter addition) (held self.old)) }
    {
        self.tables = altered(alloc, &self.tables, &addition)?;
        Ok(Reply::Done)
    }

    #[tactic(auto, using(crate::proofs::Doing::does_write), unfolding(cas_bind::specs::Tables::tables_after))]
    fn write<C: Clock>(&mut self, alloc: Global, clock: &C, write: BoundWrite) -> Result<Reply, Mem>
        requires { IsWithin self.old.limits.shards (bounds.Write write) }
        ensures { IfOk result (λ r. Does (C.may_give clock.now) (held self.old) (OkOf (bounds.Write write)) r (held self.new)) }
    {
        let reading = reading(self.kind, clock, self.seconds);
        self.accepted
            .write(alloc, self.limits.segment, reading, write)
    }

    #[tactic(auto, using(crate::proofs::Doing::does_read), unfolding(cas_bind::specs::Tables::tables_after))]
    fn read<C: Clock>(&mut self, alloc: Global, clock: &C, read: &BoundRead) -> Result<Reply, Mem>
        requires { IsWithin self.old.limits.shards (bounds.Read read.now) }
        ensures { IfOk result (λ r. Does (C.may_give clock.now) (held self.old) (OkOf (bounds.Read read.now)) r (held self.new)) }
    {
        let reading = reading(self.kind, clock, self.seconds);
        self.accepted.read(alloc, reading, read)
    }

    #[tactic(auto, unfolding(cas_bind::specs::Tables::tables_after))]
    fn perform<C: Clock>(&mut self, alloc: Global, clock: &C, bound: Bound) -> Result<Reply, Mem>
        requires within { IsWithin self.old.limits.shards bound }
        requires made { AreTables (tables_after self.old.tables.items bound) }
        ensures { IfOk result (λ r. Does (C.may_give clock.now) (held self.old) (OkOf bound) r (held self.new)) }
    {
        match bound {
            Bound::Create(table) => self.create(table),
            Bound::Alter(addition) => self.alter(alloc, addition),
            Bound::Write(write) => self.write(alloc, clock, write),
            Bound::Read(read) => self.read(alloc, clock, &read),
        }
    }

    fn answer_statement<C: Clock>(
        &mut self,
        alloc: Global,
        clock: &C,
        statement: &Statement,
    ) -> Result<Reply, Mem>
        ensures { IfOk result (λ r. Does (C.may_give clock.now) (held self.old)
            (meaning self.old.limits.shards self.old.tables.items statement.now) r (held self.new)) }
    {
        match bind(alloc, &self.tables, statement, &self.limits) {
            Ok(bound) => self.perform(alloc, clock, bound),
            Err(BindFault::Refused(refusal)) => Ok(Reply::Refused(refusal.number())),
            Err(BindFault::Mem) => Err(Mem),
        }
    }

    fn set_clock(&mut self, seconds: i64) -> Reply
        requires moment { IsMoment seconds }
        ensures { SetsClock self.old.kind (held self.old) seconds result (held self.new) }
    {
        match self.kind {
            ClockKind::Manual => {
                self.seconds = seconds;
                Reply::Done
            }
            ClockKind::System => Reply::Refused(NOT_HERE),
        }
    }

    // No file is written, since all is in one list.
    fn flush(&self, alloc: Global, name: &TableName) -> Reply
        ensures { result ≡ flushed (table_named self.now.tables.items name.now) }
    {
        match table_named(&self.tables, name) {
            Some(_) => Reply::Flushed {
                files: List::from_vec(Vec::new(alloc)),
            },
            None => Reply::Refused(Refusal::NoTable.number()),
        }
    }

    // There is no file that could be bad.
    fn verify(&self, alloc: Global, name: &TableName) -> Reply
        ensures { result ≡ verified (table_named self.now.tables.items name.now) }
    {
        let Some(_table) = table_named(&self.tables, name) else {
            return Reply::Refused(Refusal::NoTable.number());
        };
        Reply::Verified {
            files: List::from_vec(Vec::new(alloc)),
        }
    }

    // Answers a line that says this.
    #[tactic(auto, using(crate::proofs::Doing::answers_known))]
    fn answer_known<C: Clock>(
        &mut self,
        alloc: Global,
        clock: &C,
        text: &[u8],
        line: Line,
    ) -> Result<Option<Reply>, Mem>
        requires says { Says text.now line }
        ensures { IfOk result (λ r. Answers (C.may_give clock.now) (held self.old) text.now r (held self.new)) }
    {
        match line {
            Line::Blank => Ok(None),
            Line::Syntax => Ok(Some(Reply::Refused(SYNTAX))),
            Line::Clock(seconds) => Ok(Some(self.set_clock(seconds))),
            Line::Flush(name) => Ok(Some(self.flush(alloc, &name))),
            Line::Verify(name) => Ok(Some(self.verify(alloc, &name))),
            Line::Status => {
                let tables = status_of(alloc, &self.tables, self.limits.shards)?;
                Ok(Some(Reply::Status { tables }))
            }
            Line::Statement(statement) => {
                Ok(Some(self.answer_statement(alloc, clock, &statement)?))
            }
        }
    }

    /// Answers one line; one that says nothing isn't answered. Each write and each SELECT looks at all mutations.
    pub fn answer_line<C: Clock>(
        &mut self,
        alloc: Global,
        clock: &C,
        line: &[u8],
    ) -> Result<Option<Reply>, Mem>
        ensures { IfOk result (λ r. Answers (C.may_give clock.now) (held self.old) line.now r (held self.new)) }
    {
        let known = read_line(alloc, line)?;
        self.answer_known(alloc, clock, line, known)
    }
}
