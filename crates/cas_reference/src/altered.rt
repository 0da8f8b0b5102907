//! The tables after an ALTER TABLE.

ghost use Rattle.std.specs.Prelude.{◌≡◌, ◌++◌, map, IfOk};
ghost use Rattle.cas_bind.specs.Tables.{with_added};

use cas_define::Addition;
use cas_types::{Column, List, Mem, TableSchema};
use std::alloc::Global;

// The columns of a table with others behind them.
fn widened(columns: &List<Column>, added: &List<Column>) -> Result<List<Column>, Mem>
    ensures { IfOk result (λ all. all ≡ columns.now ++ added.now) }
{
    let mut all = columns.clone()?.into_vec();
    all.append(&mut added.clone()?.into_vec())?;
    Ok(List::from_vec(all))
}

// The table with what is added to it, where it is its own.
fn with_added(table: &TableSchema, addition: &Addition) -> Result<TableSchema, Mem>
    ensures { IfOk result (λ t. t ≡ with_added addition.now table.now) }
{
    let mut copy = table.clone()?;
    if table.number == addition.table {
        copy.columns = widened(&table.columns, &addition.columns)?;
    }
    Ok(copy)
}

/// The tables, of which one has the added columns behind its own.
pub(crate) fn altered(
    alloc: Global,
    tables: &[TableSchema],
    addition: &Addition,
) -> Result<Vec<TableSchema>, Mem>
    ensures { IfOk result (λ v. v.items ≡ map (with_added addition.now) tables.now) }
{
    let mut all = Vec::new(alloc);
    for table in tables {
        all.push(with_added(table, addition)?)?;
    }
    Ok(all)
}
