//! What a statement means to the tables that there are.

ghost use Rattle.std.specs.Prelude.{◌≡◌, ℕ, IfOk};
ghost use Rattle.std.specs.List.{All};
ghost use Rattle.std.specs.Option.{IfSome, option_copied};
ghost use Rattle.cas_types.specs.Limits.{IsNarrow, IsShardCount};
ghost use Rattle.cas_define.specs.AlterReasons.{alter_means};
ghost use Rattle.cas_define.specs.CreateReasons.{create_means};
ghost use Rattle.cas_define.specs.Outcomes.{Binds};
ghost use Rattle.cas_terms.specs.Columns.{table_named};
ghost use Rattle.cas_writes.specs.ChangeMeaning.{change_means};
ghost use Rattle.cas_bind.specs.Fitting.{BoundFits};
ghost use Rattle.cas_bind.specs.Meaning.{bound_as, of_table, meaning};
ghost use Rattle.cas_bind.specs.Selects.{select_means};
ghost use Rattle.cas_bind.specs.Tables.{AreTables, IsWithin, tables_after};
ghost use Rattle.cas_bind.specs.declared.bound.Bound.TheVariants as bounds;
ghost use Rattle.cql_parse.specs.declared.syntax.Statement.TheVariants as statements;

use crate::bound::{Bound, Limits};
use crate::reads::bind_select;
use cas_define::{bind_alter, bind_create};
use cas_effects::{BindFault, Refusal};
use cas_terms::table_named;
use cas_types::TableSchema;
use cas_writes::bind_change;
use cql_parse::{AlterTable, CreateTable, Select, Statement, TableName};
use std::alloc::Global;

/// The table of that name.
fn narrow_table<'a>(tables: &'a [TableSchema], name: &TableName) -> Option<&'a TableSchema>
    requires { All (λ t. IsNarrow t.columns) tables.now }
    ensures named { option_copied result ≡ table_named tables.now name.now }
    ensures narrow { IfSome (option_copied result) (λ t. IsNarrow t.columns) }
{
    table_named(tables, name)
}

fn create_table(
    alloc: Global,
    tables: &[TableSchema],
    create: &CreateTable,
) -> Result<Bound, BindFault>
    requires { AreTables tables.now }
    ensures means { Binds result (bound_as (λ t. bounds.Create t) (create_means tables.now create.now)) }
    ensures kept { IfOk result (λ b. AreTables (tables_after tables.now b)) }
    ensures within { (shards : ℕ) → IfOk result (λ b. IsWithin shards b) }
{
    match bind_create(alloc, tables, create) {
        Ok(table) => Ok(Bound::Create(table)),
        Err(fault) => Err(fault),
    }
}

fn alter_table(
    alloc: Global,
    tables: &[TableSchema],
    alter: &AlterTable,
) -> Result<Bound, BindFault>
    requires { AreTables tables.now }
    ensures means { Binds result (of_table (table_named tables.now alter.now.table) (λ t. bound_as (λ a. bounds.Alter a) (alter_means t alter.now))) }
    ensures kept { IfOk result (λ b. AreTables (tables_after tables.now b)) }
    ensures within { (shards : ℕ) → IfOk result (λ b. IsWithin shards b) }
{
    match table_named(tables, &alter.table) {
        Some(table) => match bind_alter(alloc, table, alter) {
            Ok(addition) => Ok(Bound::Alter(addition)),
            Err(fault) => Err(fault),
        },
        None => Err(BindFault::Refused(Refusal::NoTable)),
    }
}

fn change_rows(
    alloc: Global,
    shards: u8,
    tables: &[TableSchema],
    name: &TableName,
    statement: &Statement,
) -> Result<Bound, BindFault>
    requires shards { IsShardCount shards }
    requires tables { AreTables tables.now }
    ensures means { Binds result (of_table (table_named tables.now name.now) (λ t. bound_as (λ w. bounds.Write w) (change_means shards t statement.now))) }
    ensures kept { IfOk result (λ b. AreTables (tables_after tables.now b)) }
    ensures within { IfOk result (λ b. IsWithin shards b) }
{
    match narrow_table(tables, name) {
        Some(table) => match bind_change(alloc, shards, table, statement) {
            Ok(write) => Ok(Bound::Write(write)),
            Err(fault) => Err(fault),
        },
        None => Err(BindFault::Refused(Refusal::NoTable)),
    }
}

fn select_rows(
    alloc: Global,
    shards: u8,
    tables: &[TableSchema],
    statement: &Statement,
    select: &Select,
) -> Result<Bound, BindFault>
    requires shards { IsShardCount shards }
    requires tables { AreTables tables.now }
    requires select { statement.now ≡ statements.Select select.now }
    ensures means { Binds result (of_table (table_named tables.now select.now.table) (λ t. bound_as (λ r. bounds.Read r) (select_means shards t select.now))) }
    ensures kept { IfOk result (λ b. AreTables (tables_after tables.now b)) }
    ensures within { IfOk result (λ b. IsWithin shards b) }
{
    match narrow_table(tables, &select.table) {
        Some(table) => match bind_select(alloc, shards, table, statement, select) {
            Ok(read) => Ok(Bound::Read(read)),
            Err(fault) => Err(fault),
        },
        None => Err(BindFault::Refused(Refusal::NoTable)),
    }
}

#[tactic(auto, unfolding(crate::specs::Meaning::meaning))]
fn bind_statement(
    alloc: Global,
    tables: &[TableSchema],
    statement: &Statement,
    limits: &Limits,
) -> Result<Bound, BindFault>
    requires shards { IsShardCount limits.now.shards }
    requires tables { AreTables tables.now }
    ensures means { Binds result (meaning limits.now.shards tables.now statement.now) }
    ensures kept { IfOk result (λ b. AreTables (tables_after tables.now b)) }
    ensures within { IfOk result (λ b. IsWithin limits.now.shards b) }
{
    let shards = limits.shards;
    match statement {
        Statement::Create(create) => create_table(alloc, tables, create),
        Statement::Alter(alter) => alter_table(alloc, tables, alter),
        Statement::Insert(insert) => change_rows(alloc, shards, tables, &insert.table, statement),
        Statement::Update(update) => change_rows(alloc, shards, tables, &update.table, statement),
        Statement::Delete(delete) => change_rows(alloc, shards, tables, &delete.table, statement),
        Statement::Select(select) => select_rows(alloc, shards, tables, statement, select),
    }
}

/// What the statement is to do to the tables that there are, or why it is refused. Unless memory runs
/// out, it is what the statement means. Once it is done the tables are again as CREATE TABLE and
/// ALTER TABLE make them; a write and a read are of one of the shards; a write is one that its table
/// can take.
pub fn bind(
    alloc: Global,
    tables: &[TableSchema],
    statement: &Statement,
    limits: &Limits,
) -> Result<Bound, BindFault>
    requires shards { IsShardCount limits.now.shards }
    requires tables { AreTables tables.now }
    ensures means { Binds result (meaning limits.now.shards tables.now statement.now) }
    ensures kept { IfOk result (λ b. AreTables (tables_after tables.now b)) }
    ensures within { IfOk result (λ b. IsWithin limits.now.shards b) }
    ensures fits { IfOk result (λ b. BoundFits limits.now.shards tables.now b) }
{
    bind_statement(alloc, tables, statement, limits)
}
