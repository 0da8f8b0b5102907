//! The laws of tables that get columns.

ghost use Rattle.cas_widened.specs.Laws.{ContentsStay, MemtablesStay, MutationsStay, OrdersStay};

/// Columns that are added leave the order of a table's rows.
pub fn orders_stay()
    ensures { OrdersStay }
{}

/// A mutation that a table may hold is one that it may hold with columns more.
pub fn mutations_stay()
    ensures { MutationsStay }
{}

/// So is a memtable.
pub fn memtables_stay()
    ensures { MemtablesStay }
{}

/// So is what a table file has.
pub fn contents_stay()
    ensures { ContentsStay }
{}
