//! What holds of every run of a script.

ghost use Rattle.cas_node.specs.Laws.{AllAreRead, BeginsLittle, FewHaveFiles, FilesAreFew, FlushesAreGranted, FlushesEndWell, FoundRise, FoundSaid, LittleFits};
ghost use Rattle.cas_node.specs.Laws.{LittleFlushesFit, MemtablesFit, NoFlushFits, NumbersStay, OneOutcome, SaidStay, WhatFitsIsFlushed};

use cas_disk::Folder;
use cas_io::Clock;
use cas_lasting::little_is_never_too_much;

/// Under the manual clock a script prints one output, as long as memory doesn't run out, the disk is well,
/// no table file is bad that was there before it, and what it flushes fits into table files: its lines have
/// one list of answers, and leave one store. A script that flushes nothing always fits.
pub fn one_outcome<C: Clock>()
    ensures one { (clock : C) → OneOutcome (C.may_give clock) }
    ensures none { (clock : C) → NoFlushFits (C.may_give clock) }
{}

/// Along a run the mutations of each shard are numbered upwards, those of the run by one, so that a SELECT
/// reads all of its partition that its shard has accepted, before the run or in it.
pub fn numbers_rise<C: Clock, F: Folder>(folder: &F)
    ensures begin { FoundRise (F.disk folder.now) }
    ensures stay { (clock : C) → NumbersStay (C.may_give clock) }
    ensures read { AllAreRead }
{
    let _folder = folder;
}

/// Along a run each line adds at most one table file for each shard, and one, and gives as many numbers.
pub fn files_are_few<C: Clock>()
    ensures { (clock : C) → FilesAreFew (C.may_give clock) }
{}

/// Before the first line and along a run the tables are as a manifest may tell them. So what is flushed of a table
/// of which little stands in memory fits into table files; and what fits is flushed.
pub fn little_fits<C: Clock>()
    ensures begin { FoundSaid }
    ensures stay { (clock : C) → SaidStay (C.may_give clock) }
    ensures fits { LittleFits }
    ensures flushes { (clock : C) → LittleFlushesFit (C.may_give clock) }
    ensures flushed { WhatFitsIsFlushed }
{
    little_is_never_too_much();
}

/// Memtables that are flushed before they have more than 2^27 bytes of records fit into table files, each of them
/// along a run, as long as the disk is well, memory doesn't run out, and there may be more files.
pub fn memtables_fit<C: Clock>()
    ensures begin { BeginsLittle }
    ensures fit { (clock : C) → MemtablesFit (C.may_give clock) }
    ensures few { (clock : C) → FewHaveFiles (C.may_give clock) }
{
    little_is_never_too_much();
}

/// A run whose flushes fit ends well where its other lines do, as long as the disk is well and memory doesn't run
/// out: so no line of its script is refused, as `run` asks where all is well.
pub fn flushes_are_granted<C: Clock>()
    ensures ends { (clock : C) → FlushesEndWell (C.may_give clock) }
    ensures granted { (clock : C) → FlushesAreGranted (C.may_give clock) }
{}
