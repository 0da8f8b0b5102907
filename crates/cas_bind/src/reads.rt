//! What a SELECT asks of a partition, and whether it is done.

ghost use Rattle.std.specs.Prelude.{◌≡◌, None, pos, not, false, IfOk};
ghost use Rattle.cas_types.specs.Limits.{IsNarrow, IsShardCount};
ghost use Rattle.cas_define.specs.Outcomes.{Binds, outcome};
ghost use Rattle.cas_terms.specs.Columns.{clustering_columns};
ghost use Rattle.cas_keys.specs.KeyTerms.{term_in_where, partition_key};
ghost use Rattle.cas_where.specs.Slices.{follows_order};
ghost use Rattle.cas_bind.specs.Inner.Gives.{ReadGives};
ghost use Rattle.cas_reasons.specs.RowFaults.{is_outside};
ghost use Rattle.cas_reasons.specs.RowReasons.{row_reasons};
ghost use Rattle.cas_effects.specs.Refusals.{refusal_for};
ghost use Rattle.cas_bind.specs.Selects.{bound_select, read_too_large, select_means};
ghost use Rattle.cas_types.specs.declared.limits.TheConstants.{ROW_LIMIT};
ghost use Rattle.cql_parse.specs.declared.syntax.Statement.TheVariants as statements;

use crate::bound::BoundRead;
use crate::selects::asked_by;
use cas_atoms::Query;
use cas_effects::{BindFault, Refusal, any_too_large, either, one_too_large};
use cas_reasons::{row_limit, row_refusal};
use cas_types::{Bytes, Column, List, TableSchema, shard_of};
use cas_where::{KeyTerms, follows_order, partition_key, slice_of};
use cql_parse::{ColumnOrder, Select, Statement};
use std::alloc::{AllocError, Global};

/// The refusal of the first of the key and of the slice's values that is above the limit.
#[tactic(auto, using(crate::proofs::RowLemmas::too_large_cons, crate::proofs::RowLemmas::too_large_append), unfolding(crate::specs::Selects::read_too_large))]
fn read_too_large(read: &BoundRead) -> Option<Refusal>
    ensures { result ≡ read_too_large read.now }
{
    let query = &read.query;
    let lo = any_too_large(query.slice.lo.prefix.as_slice());
    let hi = any_too_large(query.slice.hi.prefix.as_slice());
    either(one_too_large(query.key.as_slice()), either(lo, hi))
}

fn copy_columns(columns: &List<Column>) -> Result<List<Column>, AllocError>
    ensures { IfOk result (λ c. c ≡ columns.now) }
{
    columns.clone()
}

// Whether an ORDER BY reverses the table's order.
fn is_reversed(columns: &[Column], order: &[ColumnOrder]) -> bool
    ensures { result ≡ not (follows_order false (clustering_columns columns.now) order.now) }
{
    !follows_order(false, columns, order)
}

#[tactic(auto, unfolding(crate::specs::Selects::bound_select))]
fn select_of_key(
    alloc: Global,
    shards: u8,
    table: &TableSchema,
    select: &Select,
    key: Bytes,
) -> Result<BoundRead, AllocError>
    requires shards { IsShardCount shards }
    requires narrow { IsNarrow table.now.columns }
    requires limit { is_outside (pos 1) (pos ROW_LIMIT) select.now.limit ≡ false }
    requires key { key ≡ partition_key (term_in_where select.now.relations) table.now.columns }
    ensures { IfOk result (λ r. r ≡ bound_select shards table.now select.now) }
{
    let columns = table.columns.as_slice();
    let shard = shard_of(key.as_slice(), shards);
    let query = Query {
        table: table.number,
        columns: copy_columns(&table.columns)?,
        key,
        slice: slice_of(alloc, columns, select.relations.as_slice())?,
        reversed: is_reversed(columns, select.order.as_slice()),
        limit: row_limit(select.limit),
        picks: asked_by(alloc, columns, &select.picks)?,
    };
    Ok(BoundRead { shard, query })
}

/// What the SELECT is bound to, where its LIMIT is in range.
#[tactic(auto, using(crate::proofs::RowLemmas::select_key))]
fn bound_select(
    alloc: Global,
    shards: u8,
    table: &TableSchema,
    select: &Select,
) -> Result<BoundRead, BindFault>
    requires shards { IsShardCount shards }
    requires narrow { IsNarrow table.now.columns }
    requires limit { is_outside (pos 1) (pos ROW_LIMIT) select.now.limit ≡ false }
    ensures { ReadGives result (bound_select shards table.now select.now) }
{
    let terms = KeyTerms::Where(select.relations.as_slice());
    match partition_key(alloc, terms, table.columns.as_slice()) {
        Ok(key) => Ok(select_of_key(alloc, shards, table, select, key)?),
        Err(fault) => Err(fault),
    }
}

fn if_small(read: BoundRead) -> Result<BoundRead, BindFault>
    ensures { Binds result (outcome (read_too_large read) read) }
{
    match read_too_large(&read) {
        Some(refusal) => Err(BindFault::Refused(refusal)),
        None => Ok(read),
    }
}

// Why the statement, which is the SELECT, is refused.
fn select_refusal(
    alloc: Global,
    table: &TableSchema,
    statement: &Statement,
    select: &Select,
) -> Result<Option<Refusal>, AllocError>
    requires { statement.now ≡ statements.Select select.now }
    ensures { IfOk result (λ r. r ≡ refusal_for (row_reasons table.now None (statements.Select select.now))) }
{
    row_refusal(alloc, table, statement)
}

/// What the statement, which is the SELECT, means to its table.
#[tactic(auto, using(crate::proofs::RowLemmas::select_good, crate::proofs::RowLemmas::select_refused, crate::proofs::RowLemmas::select_decided))]
pub(crate) fn bind_select(
    alloc: Global,
    shards: u8,
    table: &TableSchema,
    statement: &Statement,
    select: &Select,
) -> Result<BoundRead, BindFault>
    requires shards { IsShardCount shards }
    requires narrow { IsNarrow table.now.columns }
    requires select { statement.now ≡ statements.Select select.now }
    ensures { Binds result (select_means shards table.now select.now) }
{
    match select_refusal(alloc, table, statement, select)? {
        Some(refusal) => Err(BindFault::Refused(refusal)),
        None => if_small(bound_select(alloc, shards, table, select)?),
    }
}
