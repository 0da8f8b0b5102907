//! The live rows of a partition, one after another, as its fragments come.

ghost use Rattle.std.specs.Prelude.{◌≡◌, ◌≢◌, ◌⊎◌, ℕ, ◌≤◌, ◌+◌, ◌-◌, ◌≤ℤ◌, pos, Bool, true, false, None, Some, [], ◌∷◌, ◌++◌};
ghost use Rattle.std.specs.Prelude.{List, reverse, length, IfOk, IfErr, IfSome, OnOk, is_some, alloc_error};
ghost use Rattle.std.specs.Option.{option_map, option_to_list};
ghost use Rattle.cas_bounds.specs.ClusteringOrder.{clustering_order};
ghost use Rattle.cas_atoms.specs.Answers.{AreNumbered, answer, limited};
ghost use Rattle.cas_atoms.specs.declared.query.LiveRow.{LiveRow};
ghost use Rattle.cas_streams.specs.Flat.{flat};
ghost use Rattle.cas_streams.specs.Streams.{IsOrdered};
ghost use Rattle.cas_streams.specs.declared.fragment.Fragment.{Fragment};
ghost use Rattle.cas_live.specs.Views.{or_static};
ghost use Rattle.cas_live.specs.Rows.{GivesFirst, GoesDown, RepeatsFault, left_wanted, wanted_after};
ghost use Rattle.cas_live.specs.Inner.Coming.{rows_ahead, shared_at_end, told_so_far, rows_of_stage, rows_to_come, rows_left};
ghost use Rattle.cas_live.specs.Inner.Coming.{is_full, HasBegun, ReadsToARow, ShowsNext, TakesLast};
ghost use Rattle.cas_live.specs.declared.live_rows.Stage.TheVariants as stages;

use crate::viewer::Viewer;
use cas_atoms::{LiveRow, Query};
use cas_streams::FragmentSource;
use std::alloc::{AllocError, Global};
use std::collections::VecDeque;
use std::mem;
use std::mem::drop;

/// How far the live rows of a source have come.
#[derive(Drop)]
pub enum Stage {
    /// Nothing was asked for yet.
    Unasked,
    /// They are given as they come; whether one was given.
    Coming(bool),
    /// All others are here, the next one last.
    Kept(VecDeque<LiveRow>),
}

// The next row that the source's fragments show.
fn next_shown<I: FragmentSource>(
    alloc: Global,
    source: &mut I,
    viewer: &mut Viewer,
) -> Result<Option<LiveRow>, I::Fault>
    ensures query { viewer.new.query ≡ viewer.old.query }
    ensures moment { viewer.new.moment ≡ viewer.old.moment }
    ensures top { I.over_all source.new ≡ I.over_all source.old }
    ensures first { (fs : List Fragment) → I.to_come source.old ≡ Some fs → ShowsNext viewer.old fs viewer.new (I.to_come source.new) result }
    ensures ends { GoesDown (I.at_most source.old) (I.at_most source.new) result }
    ensures causes { IfErr result (λ e. (I.broken_by source.new ≡ Some e) ⊎ I.Fault.from_gives alloc_error e) }
{
    while let Some(fragment) = source.next()? {
        if let Some(row) = viewer.take(alloc, fragment)? {
            return Ok(Some(row));
        }
    }
    Ok(None)
}

// The static row alone, where it answers.
fn static_rows(alloc: Global, viewer: &Viewer) -> Result<VecDeque<LiveRow>, AllocError>
    ensures rows { IfOk result (λ q. reverse q.items ≡ or_static viewer.now.query viewer.now.moment viewer.now.shared.items []) }
    ensures one { IfOk result (λ q. length q.items ≤ 1) }
{
    let mut rows = VecDeque::new(alloc);
    if let Some(row) = viewer.static_alone(alloc)? {
        rows.push_back(row)?;
    }
    Ok(rows)
}

// Whether so many rows are as many as are wanted.
fn is_full(wanted: Option<u32>, count: usize) -> bool
    ensures { result ≡ is_full wanted count }
{
    match wanted {
        None => false,
        Some(most) => count >= most as usize,
    }
}

// Keeps the row with those before it, of which the first goes if they are as many as are wanted.
fn keep(kept: &mut VecDeque<LiveRow>, wanted: Option<u32>, row: LiveRow) -> Result<(), AllocError>
    requires { wanted ≢ Some 0 }
    ensures last { OnOk result ((others : List LiveRow) → limited wanted (reverse (kept.new.items ++ others))
        ≡ limited wanted (reverse (kept.old.items ++ row ∷ others))) }
    ensures some { OnOk result (kept.new.items ≢ []) }
    ensures length { OnOk result (length kept.new.items ≤ length kept.old.items + 1) }
    ensures wanted { OnOk result (IfSome wanted (λ n. length kept.old.items ≤ n → length kept.new.items ≤ n)) }
{
    if is_full(wanted, kept.len()) {
        kept.pop_front();
    }
    kept.push_back(row)?;
    Ok(())
}

// The last rows of the source, as many as are wanted, or the static row alone.
fn last_shown<I: FragmentSource>(
    alloc: Global,
    source: &mut I,
    viewer: &mut Viewer,
    wanted: Option<u32>,
) -> Result<VecDeque<LiveRow>, I::Fault>
    requires { wanted ≢ Some 0 }
    ensures query { viewer.new.query ≡ viewer.old.query }
    ensures moment { viewer.new.moment ≡ viewer.old.moment }
    ensures top { I.over_all source.new ≡ I.over_all source.old }
    ensures rows { IfOk result (λ q. (fs : List Fragment) → I.to_come source.old ≡ Some fs → limited wanted (reverse q.items)
        ≡ limited wanted (or_static viewer.old.query viewer.old.moment (shared_at_end viewer.old fs) (reverse (rows_ahead viewer.old fs)))) }
    ensures length { IfOk result (λ q. length q.items ≤ I.at_most source.old + 1) }
    ensures wanted { IfOk result (λ q. IfSome wanted (λ n. length q.items ≤ n)) }
    ensures causes { IfErr result (λ e. (I.broken_by source.new ≡ Some e) ⊎ I.Fault.from_gives alloc_error e) }
{
    let mut kept = VecDeque::new(alloc);
    while let Some(row) = next_shown(alloc, source, viewer)? {
        keep(&mut kept, wanted, row)?;
    }
    if kept.is_empty() {
        kept = static_rows(alloc, viewer)?;
    }
    Ok(kept)
}

// How many more rows are wanted: one fewer where one was given.
fn left_wanted(wanted: Option<u32>, given: bool) -> Option<u32>
    requires { wanted ≢ Some 0 }
    ensures { result ≡ left_wanted wanted given }
{
    match wanted {
        Some(most) if given => Some(most - 1),
        _ => wanted,
    }
}

// Takes the last of the rows that are kept.
fn take_last(rows: &mut VecDeque<LiveRow>) -> Option<LiveRow>
    ensures row { TakesLast rows.old.items rows.new.items result }
    ensures length { length rows.old.items ≡ length rows.new.items + length (option_to_list result) }
{
    rows.pop_back()
}

/// What a source shows to a query, row by row.
#[derive(Drop)]
pub struct LiveRows<I: FragmentSource> {
    alloc: Global,
    source: I,
    viewer: Viewer,
    wanted: Option<u32>,
    stage: Stage,
    broken: Option<I::Fault>,
}

impl<I: FragmentSource> LiveRows<I> {
    /// What the source shows to the query at the moment, in seconds. It takes no memory, and asks
    /// the source for nothing yet.
    pub fn new(alloc: Global, source: I, query: Query, moment: i64) -> Self
        requires begun { pos 0 ≤ℤ moment }
        requires columns { AreNumbered query.columns }
        ensures rows { (fs : List Fragment) → I.to_come source ≡ Some fs → IsOrdered (clustering_order query.columns) fs
            → rows_to_come (I.over_all result.source) result.wanted result.stage result.viewer (I.to_come result.source)
            ≡ Some (answer query (flat (I.over_all source) fs) moment) }
        ensures source { result.source ≡ source }
        ensures wanted { result.wanted ≡ query.limit }
        ensures sound { result.broken ≡ None }
    {
        let wanted = query.limit;
        LiveRows {
            alloc,
            source,
            viewer: Viewer::blank(alloc, query, moment),
            wanted,
            stage: Stage::Unasked,
            broken: None,
        }
    }

    /// The next live row; none when all were given. A fault, once answered, is answered again.
    pub fn next(&mut self) -> Result<Option<LiveRow>, I::Fault>
        ensures first { (rs : List LiveRow)
            → rows_to_come (I.over_all self.old.source) self.old.wanted self.old.stage self.old.viewer (I.to_come self.old.source) ≡ Some rs
            → GivesFirst rs (rows_to_come (I.over_all self.new.source) self.new.wanted self.new.stage self.new.viewer (I.to_come self.new.source)) result }
        ensures ends { GoesDown (rows_left self.old.stage (I.at_most self.old.source)) (rows_left self.new.stage (I.at_most self.new.source)) result }
        ensures faults { RepeatsFault self.old.broken self.new.broken result }
        ensures causes { self.old.broken ≡ None → IfErr result (λ e. (I.broken_by self.new.source ≡ Some e) ⊎ I.Fault.from_gives alloc_error e) }
        ensures wanted { self.new.wanted ≡ wanted_after self.old.wanted result }
        ensures stops { self.old.wanted ≡ Some 0 → self.new.source ≡ self.old.source }
        ensures reads { OnOk result ((fs : List Fragment) → I.to_come self.old.source ≡ Some fs → self.old.viewer.query.reversed ≡ false
            → ReadsToARow self.old.viewer (told_so_far (I.over_all self.old.source) self.old.stage self.old.viewer) fs (I.to_come self.new.source)) }
        ensures same_query { (self.new.viewer.query ≡ self.old.viewer.query) × (self.new.viewer.moment ≡ self.old.viewer.moment) }
        ensures same_top { I.over_all self.new.source ≡ I.over_all self.old.source }
    {
        if let Some(fault) = self.broken {
            return Err(fault);
        }
        match self.advance() {
            Ok(row) => Ok(row),
            Err(fault) => {
                self.broken = Some(fault);
                Err(fault)
            }
        }
    }

    /// The source, at the place that was reached.
    pub fn end(self) -> I
        ensures { result ≡ self.source }
    {
        drop(self.viewer);
        drop(self.stage);
        self.source
    }

    // The next row, where nothing is broken.
    fn advance(&mut self) -> Result<Option<LiveRow>, I::Fault>
        ensures first { (rs : List LiveRow)
            → rows_to_come (I.over_all self.old.source) self.old.wanted self.old.stage self.old.viewer (I.to_come self.old.source) ≡ Some rs
            → GivesFirst rs (rows_to_come (I.over_all self.new.source) self.new.wanted self.new.stage self.new.viewer (I.to_come self.new.source)) result }
        ensures ends { GoesDown (rows_left self.old.stage (I.at_most self.old.source)) (rows_left self.new.stage (I.at_most self.new.source)) result }
        ensures broken { self.new.broken ≡ self.old.broken }
        ensures causes { IfErr result (λ e. (I.broken_by self.new.source ≡ Some e) ⊎ I.Fault.from_gives alloc_error e) }
        ensures wanted { self.new.wanted ≡ wanted_after self.old.wanted result }
        ensures stops { self.old.wanted ≡ Some 0 → self.new.source ≡ self.old.source }
        ensures reads { OnOk result ((fs : List Fragment) → I.to_come self.old.source ≡ Some fs → self.old.viewer.query.reversed ≡ false
            → ReadsToARow self.old.viewer (told_so_far (I.over_all self.old.source) self.old.stage self.old.viewer) fs (I.to_come self.new.source)) }
        ensures same_query { (self.new.viewer.query ≡ self.old.viewer.query) × (self.new.viewer.moment ≡ self.old.viewer.moment) }
        ensures same_top { I.over_all self.new.source ≡ I.over_all self.old.source }
    {
        if is_full(self.wanted, 0) {
            return Ok(None);
        }
        self.begin()?;
        let row = self.next_begun()?;
        self.wanted = left_wanted(self.wanted, row.is_some());
        Ok(row)
    }

    // Tells the viewer the deletion of the whole, and reads all where the last rows are wanted first.
    fn begin(&mut self) -> Result<(), I::Fault>
        requires { self.old.wanted ≢ Some 0 }
        ensures begun { OnOk result (HasBegun self.new.stage) }
        ensures same { OnOk result ((rs : List LiveRow)
            → rows_to_come (I.over_all self.old.source) self.old.wanted self.old.stage self.old.viewer (I.to_come self.old.source) ≡ Some rs
            → rows_to_come (I.over_all self.new.source) self.new.wanted self.new.stage self.new.viewer (I.to_come self.new.source) ≡ Some rs) }
        ensures ends { OnOk result (rows_left self.new.stage (I.at_most self.new.source) ≤ rows_left self.old.stage (I.at_most self.old.source)) }
        ensures broken { self.new.broken ≡ self.old.broken }
        ensures wanted { self.new.wanted ≡ self.old.wanted }
        ensures causes { IfErr result (λ e. (I.broken_by self.new.source ≡ Some e) ⊎ I.Fault.from_gives alloc_error e) }
        ensures unread { OnOk result (self.old.viewer.query.reversed ≡ false → (self.new.source ≡ self.old.source)
            × (self.new.viewer.in_force ≡ self.old.viewer.in_force)
            × (self.new.viewer.shared.items ≡ told_so_far (I.over_all self.old.source) self.old.stage self.old.viewer)) }
        ensures same_query { (self.new.viewer.query ≡ self.old.viewer.query) × (self.new.viewer.moment ≡ self.old.viewer.moment) }
        ensures same_top { I.over_all self.new.source ≡ I.over_all self.old.source }
    {
        match &self.stage {
            Stage::Unasked => {}
            _ => return Ok(()),
        }
        self.viewer.enter(self.source.top())?;
        self.stage = if self.viewer.is_reversed() {
            Stage::Kept(last_shown(self.alloc, &mut self.source, &mut self.viewer, self.wanted)?)
        } else {
            Stage::Coming(false)
        };
        Ok(())
    }

    // The next row, whatever the limit.
    fn next_begun(&mut self) -> Result<Option<LiveRow>, I::Fault>
        requires { HasBegun self.old.stage }
        ensures first { (rs : List LiveRow) → rows_of_stage (I.over_all self.old.source) self.old.stage self.old.viewer (I.to_come self.old.source) ≡ Some rs
            → GivesFirst rs (rows_of_stage (I.over_all self.new.source) self.new.stage self.new.viewer (I.to_come self.new.source)) result }
        ensures ends { GoesDown (rows_left self.old.stage (I.at_most self.old.source)) (rows_left self.new.stage (I.at_most self.new.source)) result }
        ensures broken { self.new.broken ≡ self.old.broken }
        ensures wanted { self.new.wanted ≡ self.old.wanted }
        ensures causes { IfErr result (λ e. (I.broken_by self.new.source ≡ Some e) ⊎ I.Fault.from_gives alloc_error e) }
        ensures reads { OnOk result ((fs : List Fragment) → I.to_come self.old.source ≡ Some fs
            → ReadsToARow self.old.viewer self.old.viewer.shared.items fs (I.to_come self.new.source)) }
        ensures same_query { (self.new.viewer.query ≡ self.old.viewer.query) × (self.new.viewer.moment ≡ self.old.viewer.moment) }
        ensures same_top { I.over_all self.new.source ≡ I.over_all self.old.source }
    {
        if let Stage::Coming(given) = self.stage {
            return self.next_coming(given);
        }
        match mem::replace(&mut self.stage, Stage::Unasked) {
            Stage::Kept(kept) => {
                let mut rows = kept;
                let row = take_last(&mut rows);
                self.stage = Stage::Kept(rows);
                Ok(row)
            }
            _ => Ok(None),
        }
    }

    // The next row as it comes; at the end, where none was given, the static row.
    fn next_coming(&mut self, given: bool) -> Result<Option<LiveRow>, I::Fault>
        requires { self.old.stage ≡ stages.Coming given }
        ensures first { (rs : List LiveRow) → rows_of_stage (I.over_all self.old.source) self.old.stage self.old.viewer (I.to_come self.old.source) ≡ Some rs
            → GivesFirst rs (rows_of_stage (I.over_all self.new.source) self.new.stage self.new.viewer (I.to_come self.new.source)) result }
        ensures ends { GoesDown (rows_left self.old.stage (I.at_most self.old.source)) (rows_left self.new.stage (I.at_most self.new.source)) result }
        ensures broken { self.new.broken ≡ self.old.broken }
        ensures wanted { self.new.wanted ≡ self.old.wanted }
        ensures causes { IfErr result (λ e. (I.broken_by self.new.source ≡ Some e) ⊎ I.Fault.from_gives alloc_error e) }
        ensures reads { OnOk result ((fs : List Fragment) → I.to_come self.old.source ≡ Some fs
            → ReadsToARow self.old.viewer self.old.viewer.shared.items fs (I.to_come self.new.source)) }
        ensures same_query { (self.new.viewer.query ≡ self.old.viewer.query) × (self.new.viewer.moment ≡ self.old.viewer.moment) }
        ensures same_top { I.over_all self.new.source ≡ I.over_all self.old.source }
    {
        if let Some(row) = next_shown(self.alloc, &mut self.source, &mut self.viewer)? {
            self.stage = Stage::Coming(true);
            return Ok(Some(row));
        }
        if given {
            self.stage = Stage::Kept(VecDeque::new(self.alloc));
            return Ok(None);
        }
        let mut rows = static_rows(self.alloc, &self.viewer)?;
        let row = take_last(&mut rows);
        self.stage = Stage::Kept(rows);
        Ok(row)
    }
}
