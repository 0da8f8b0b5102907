//! What INSERT, UPDATE and DELETE are bound to, and whether they are done.

ghost use Rattle.std.specs.Prelude.{◌≡◌, pos, false, None, IfOk, OnOk};
ghost use Rattle.cas_types.specs.Limits.{IsNarrow, IsShardCount};
ghost use Rattle.cas_types.specs.declared.limits.TheConstants.{LEAST_TIMESTAMP, GREATEST_TIMESTAMP, TTL_LIMIT};
ghost use Rattle.cas_define.specs.IsTable.{IsTable};
ghost use Rattle.cas_define.specs.Outcomes.{Binds, outcome};
ghost use Rattle.cas_effects.specs.FitsBound.{FitsBound};
ghost use Rattle.cas_effects.specs.Refusals.{refusal_for};
ghost use Rattle.cas_effects.specs.TooLarge.{write_too_large};
ghost use Rattle.cas_keys.specs.KeyTerms.{partition_key};
ghost use Rattle.cas_keys.specs.Inner.Sources.{terms_of};
ghost use Rattle.cas_writes.specs.Changes.{bound_change, effects_of, time_to_live};
ghost use Rattle.cas_writes.specs.Inner.Gives.{WriteGives};
ghost use Rattle.cas_writes.specs.ChangeMeaning.{IsWriteWithin, change_means};
ghost use Rattle.cas_reasons.specs.RowFaults.{is_outside};
ghost use Rattle.cas_reasons.specs.RowReasons.{row_reasons};
ghost use Rattle.cas_reasons.specs.Statements.{key_terms_of, uses_of, timestamp_in, ttl_in};
ghost use Rattle.cql_parse.specs.declared.syntax.Statement.TheVariants as statements;

use crate::effects::effects_of;
use crate::inserts::plain_parts;
use crate::unbound::Unbound;
use cas_effects::{BindFault, BoundWrite, Effect, write_too_large};
use cas_reasons::{
    key_terms_of, row_refusal, stated_timestamp, stated_ttl, timestamp_in_range, ttl_or,
};
use cas_types::{Bytes, List, TableSchema, shard_of};
use cas_where::partition_key;
use cql_parse::{Insert, Statement};
use std::alloc::{AllocError, Global};

/// How many seconds live what the statement writes, where its TTL is in range.
#[tactic(auto, unfolding(crate::specs::Changes::time_to_live))]
fn time_to_live(table: &TableSchema, statement: &Statement) -> u32
    requires { is_outside (pos 0) (pos TTL_LIMIT) (ttl_in (uses_of statement.now)) ≡ false }
    ensures { result ≡ time_to_live table.now statement.now }
{
    match statement {
        Statement::Delete(_) => 0,
        Statement::Create(_) => ttl_or(table.options.default_time_to_live, stated_ttl(statement)),
        Statement::Alter(_) => ttl_or(table.options.default_time_to_live, stated_ttl(statement)),
        Statement::Insert(_) => ttl_or(table.options.default_time_to_live, stated_ttl(statement)),
        Statement::Update(_) => ttl_or(table.options.default_time_to_live, stated_ttl(statement)),
        Statement::Select(_) => ttl_or(table.options.default_time_to_live, stated_ttl(statement)),
    }
}

#[tactic(auto, unfolding(crate::specs::Changes::bound_change))]
fn change_of_effects(
    shards: u8,
    table: &TableSchema,
    statement: &Statement,
    key: Bytes,
    effects: List<Effect>,
) -> BoundWrite
    requires shards { IsShardCount shards }
    requires timestamp { is_outside LEAST_TIMESTAMP GREATEST_TIMESTAMP (timestamp_in (uses_of statement.now)) ≡ false }
    requires ttl { is_outside (pos 0) (pos TTL_LIMIT) (ttl_in (uses_of statement.now)) ≡ false }
    requires key { key ≡ partition_key (key_terms_of statement.now) table.now.columns }
    requires effects { effects ≡ effects_of table.now.columns statement.now }
    ensures { result ≡ bound_change shards table.now statement.now }
{
    let shard = shard_of(key.as_slice(), shards);
    BoundWrite {
        table: table.number,
        shard,
        key,
        timestamp: timestamp_in_range(stated_timestamp(statement)),
        ttl: time_to_live(table, statement),
        effects,
    }
}

fn change_of_key(
    alloc: Global,
    shards: u8,
    table: &TableSchema,
    statement: &Statement,
    key: Bytes,
) -> Result<BoundWrite, AllocError>
    requires shards { IsShardCount shards }
    requires narrow { IsNarrow table.now.columns }
    requires timestamp { is_outside LEAST_TIMESTAMP GREATEST_TIMESTAMP (timestamp_in (uses_of statement.now)) ≡ false }
    requires ttl { is_outside (pos 0) (pos TTL_LIMIT) (ttl_in (uses_of statement.now)) ≡ false }
    requires key { key ≡ partition_key (key_terms_of statement.now) table.now.columns }
    ensures { IfOk result (λ w. w ≡ bound_change shards table.now statement.now) }
{
    let effects = effects_of(alloc, table.columns.as_slice(), statement)?;
    Ok(change_of_effects(shards, table, statement, key, effects))
}

/// What the statement is bound to, where its timestamp and its TTL are in range.
#[tactic(auto, using(crate::proofs::RowLemmas::change_key))]
fn bound_change(
    alloc: Global,
    shards: u8,
    table: &TableSchema,
    statement: &Statement,
) -> Result<BoundWrite, BindFault>
    requires shards { IsShardCount shards }
    requires narrow { IsNarrow table.now.columns }
    requires timestamp { is_outside LEAST_TIMESTAMP GREATEST_TIMESTAMP (timestamp_in (uses_of statement.now)) ≡ false }
    requires ttl { is_outside (pos 0) (pos TTL_LIMIT) (ttl_in (uses_of statement.now)) ≡ false }
    ensures { WriteGives result (bound_change shards table.now statement.now) }
{
    match partition_key(alloc, key_terms_of(statement), table.columns.as_slice()) {
        Ok(key) => Ok(change_of_key(alloc, shards, table, statement, key)?),
        Err(fault) => Err(fault),
    }
}

fn if_small(write: BoundWrite) -> Result<BoundWrite, BindFault>
    ensures { Binds result (outcome (write_too_large write) write) }
{
    match write_too_large(&write) {
        Some(refusal) => Err(BindFault::Refused(refusal)),
        None => Ok(write),
    }
}

// What the statement comes to, once each reason was looked for that it could be refused for.
#[tactic(auto, using(crate::proofs::RowLemmas::rows_good, crate::proofs::RowLemmas::change_refused, crate::proofs::RowLemmas::change_decided))]
fn weighed_change(
    alloc: Global,
    shards: u8,
    table: &TableSchema,
    statement: &Statement,
) -> Result<BoundWrite, BindFault>
    requires shards { IsShardCount shards }
    requires narrow { IsNarrow table.now.columns }
    ensures { Binds result (change_means shards table.now statement.now) }
{
    match row_refusal(alloc, table, statement)? {
        Some(refusal) => Err(BindFault::Refused(refusal)),
        None => if_small(bound_change(alloc, shards, table, statement)?),
    }
}

// What a plain INSERT is bound to. There is nothing that it would be refused for but what is too large.
#[tactic(auto, using(crate::proofs::RowLemmas::rows_good))]
fn plain_change(
    alloc: Global,
    shards: u8,
    table: &TableSchema,
    insert: &Insert,
    statement: &Statement,
) -> Result<BoundWrite, Unbound>
    requires shards { IsShardCount shards }
    requires narrow { IsNarrow table.now.columns }
    requires insert { statement.now ≡ statements.Insert insert.now }
    ensures good { OnOk result (refusal_for (row_reasons table.now None statement.now) ≡ None) }
    ensures bound { IfOk result (λ w. w ≡ bound_change shards table.now statement.now) }
{
    let (key, effects) = plain_parts(alloc, table, insert)?;
    Ok(change_of_effects(shards, table, statement, key, effects))
}

// Plain INSERTs, of which most statements are, are bound at once.
#[tactic(auto, using(crate::proofs::RowLemmas::change_decided))]
fn change_meant(
    alloc: Global,
    shards: u8,
    table: &TableSchema,
    statement: &Statement,
) -> Result<BoundWrite, BindFault>
    requires shards { IsShardCount shards }
    requires narrow { IsNarrow table.now.columns }
    ensures { Binds result (change_means shards table.now statement.now) }
{
    match statement {
        Statement::Insert(insert) => match plain_change(alloc, shards, table, insert, statement) {
            Ok(write) => if_small(write),
            Err(_) => weighed_change(alloc, shards, table, statement),
        },
        _ => weighed_change(alloc, shards, table, statement),
    }
}

/// What the INSERT, UPDATE or DELETE writes to its table, or why it is refused. The write is of one of
/// the shards, and one that the table can take, where it is as every table is.
pub fn bind_change(
    alloc: Global,
    shards: u8,
    table: &TableSchema,
    statement: &Statement,
) -> Result<BoundWrite, BindFault>
    requires shards { IsShardCount shards }
    requires narrow { IsNarrow table.now.columns }
    ensures means { Binds result (change_means shards table.now statement.now) }
    ensures within { IfOk result (λ w. IsWriteWithin shards w) }
    ensures fits { IfOk result (λ w. IsTable table.now → FitsBound table.now shards w) }
{
    change_meant(alloc, shards, table, statement)
}
