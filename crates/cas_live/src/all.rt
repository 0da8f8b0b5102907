//! All live rows of a source at once.

ghost use Rattle.std.specs.Prelude.{◌≡◌, ◌⊎◌, ◌++◌, ◌∷◌, ◌≤ℤ◌, pos, [], List, None, Some, IfErr, IfOk, OnOk, alloc_error};
ghost use Rattle.cas_bounds.specs.ClusteringOrder.{clustering_order};
ghost use Rattle.cas_atoms.specs.Answers.{AreNumbered, answer};
ghost use Rattle.cas_atoms.specs.declared.query.LiveRow.{LiveRow as Shown};
ghost use Rattle.cas_streams.specs.Flat.{flat};
ghost use Rattle.cas_streams.specs.Streams.{IsOrdered};
ghost use Rattle.cas_streams.specs.declared.fragment.Fragment.{Fragment};
ghost use Rattle.cas_live.specs.Inner.Coming.{rows_to_come};

use crate::live_rows::LiveRows;
use cas_atoms::{LiveRow, Query};
use cas_streams::FragmentSource;
use std::alloc::{AllocError, Global};

fn add(shown: &mut Vec<LiveRow>, row: LiveRow) -> Result<(), AllocError>
    ensures { OnOk result (shown.new.items ≡ shown.old.items ++ row ∷ []) }
{
    shown.push(row)?;
    Ok(())
}

/// All rows that are still to come. After a fault those that came are lost, and the source stands at
/// the place that was reached.
pub fn all_rows<I: FragmentSource>(
    alloc: Global,
    rows: &mut LiveRows<I>,
) -> Result<Vec<LiveRow>, I::Fault>
    ensures shown { IfOk result (λ v. (rs : List Shown)
        → rows_to_come (I.over_all rows.old.source) rows.old.wanted rows.old.stage rows.old.viewer (I.to_come rows.old.source) ≡ Some rs → v.items ≡ rs) }
    ensures causes { rows.old.broken ≡ None → IfErr result (λ e. (I.broken_by rows.new.source ≡ Some e) ⊎ I.Fault.from_gives alloc_error e) }
{
    let mut shown = Vec::new(alloc);
    while let Some(row) = rows.next()? {
        add(&mut shown, row)?;
    }
    Ok(shown)
}

/// All rows that a source shows to a query at a moment, in seconds, and the source at the place that
/// was reached.
pub fn all_rows_and_source<I: FragmentSource>(
    alloc: Global,
    source: I,
    query: Query,
    moment: i64,
) -> (Result<Vec<LiveRow>, I::Fault>, I)
    requires begun { pos 0 ≤ℤ moment }
    requires columns { AreNumbered query.columns }
    ensures rows { IfOk result.0 (λ v. (fs : List Fragment) → I.to_come source ≡ Some fs → IsOrdered (clustering_order query.columns) fs
        → v.items ≡ answer query (flat (I.over_all source) fs) moment) }
    ensures causes { IfErr result.0 (λ e. (I.broken_by result.1 ≡ Some e) ⊎ I.Fault.from_gives alloc_error e) }
{
    let mut rows = LiveRows::new(alloc, source, query, moment);
    let shown = all_rows(alloc, &mut rows);
    (shown, rows.end())
}

/// All rows that a source shows to a query at a moment, in seconds.
pub fn all_rows_of<I: FragmentSource>(
    alloc: Global,
    source: I,
    query: Query,
    moment: i64,
) -> Result<Vec<LiveRow>, I::Fault>
    requires begun { pos 0 ≤ℤ moment }
    requires columns { AreNumbered query.columns }
    ensures rows { IfOk result (λ v. (fs : List Fragment) → I.to_come source ≡ Some fs → IsOrdered (clustering_order query.columns) fs
        → v.items ≡ answer query (flat (I.over_all source) fs) moment) }
    ensures causes { IfErr result (λ e. ((s : I) × (I.broken_by s ≡ Some e)) ⊎ I.Fault.from_gives alloc_error e) }
{
    let (shown, _source) = all_rows_and_source(alloc, source, query, moment);
    shown
}
