//! Gives shards what a store has of them beside its log: the listed files, and what the manifest tells.

ghost use Rattle.std.specs.Prelude.{◌≡◌, ◌<◌, ◌≤◌, length, IfErr, IsErrOf, None, OnOk, Some};
ghost use Rattle.cas_disk.specs.Counts.{Counted};
ghost use Rattle.cas_disk.specs.Disk.{During, Follows, Image, Same};
ghost use Rattle.cas_recovery.specs.Openings.{times_of};
ghost use Rattle.cas_recovery.specs.Inner.Filling.{AreFilled, AreGiven, IsBadIn, IsBadOf, IsBadOfShard, IsFilled, IsGiven, IsWithin};

use crate::fault::{RecoveryFault, of_listed};
use crate::memory::NONE_DRAWN;
use cas_changes::{Said, ShardTimes};
use cas_disk::{Count, Folder};
use cas_listed::load_listed;
use cas_shard::Shard;
use cas_types::{Mem, TableSchema};
use std::alloc::Global;

// The moment and the last drawn timestamp that the manifest tells of a shard.
fn times_of(said: &Said, shard: u8) -> ShardTimes
    ensures { result ≡ times_of said.now shard }
{
    match said.times().get(shard as usize) {
        Some(times) => *times,
        None => ShardTimes {
            moment: 0,
            drawn: NONE_DRAWN,
        },
    }
}

// Gives a shard the listed files of a table, and up to which number its mutations stand in these.
fn fill_table<F: Folder>(
    alloc: Global,
    folder: &mut F,
    said: &Said,
    table: &TableSchema,
    shard: u8,
    filled: &mut Shard<F::Sealed>,
    tally: &mut F::Tally,
) -> Result<(), RecoveryFault>
    requires within { IsWithin said.now }
    ensures given { OnOk result (IsGiven said.now (F.disk folder.old) shard table.now filled.old filled.new) }
    ensures bad { IfErr result (λ f. (c : Image) → (F.disk folder.old).reads c → IsBadOf said.now c table.now shard f) }
    ensures reads { Follows Same (F.disk folder.old).reads (F.disk folder.new).reads }
    ensures during { During Same (F.disk folder.old) (F.disk folder.new) }
    ensures count { Counted (F.faults_of folder.old) (F.faults_of folder.new) (IsErrOf result RecoveryFault.Failed) }
    ensures read { Counted (F.Tally.number tally.old) (F.Tally.number tally.new) (IsErrOf result RecoveryFault.Read) }
{
    let listed = said.listed(table.number, shard);
    let view = match load_listed(alloc, folder, table, shard, listed, tally) {
        Ok(view) => view,
        Err(fault) => return Err(of_listed(fault)),
    };
    filled.tell_number(said.frontier(table.number, shard));
    match filled.adopt(alloc, table.number, view) {
        Ok(()) => Ok(()),
        Err(Mem) => Err(RecoveryFault::Mem),
    }
}

// Gives a shard the listed files of each table.
fn fill_tables<F: Folder>(
    alloc: Global,
    folder: &mut F,
    said: &Said,
    shard: u8,
    filled: &mut Shard<F::Sealed>,
    tally: &mut F::Tally,
) -> Result<(), RecoveryFault>
    requires within { IsWithin said.now }
    ensures given { OnOk result (AreGiven said.now (F.disk folder.old) shard (length said.now.tables) filled.old filled.new) }
    ensures bad { IfErr result (λ f. (c : Image) → (F.disk folder.old).reads c → IsBadIn said.now c shard f) }
    ensures reads { Follows Same (F.disk folder.old).reads (F.disk folder.new).reads }
    ensures during { During Same (F.disk folder.old) (F.disk folder.new) }
    ensures count { Counted (F.faults_of folder.old) (F.faults_of folder.new) (IsErrOf result RecoveryFault.Failed) }
    ensures read { Counted (F.Tally.number tally.old) (F.Tally.number tally.new) (IsErrOf result RecoveryFault.Read) }
{
    for table in said.tables() {
        if let Err(fault) = fill_table(alloc, folder, said, table, shard, filled, tally) {
            return Err(fault);
        }
    }
    Ok(())
}

// Gives a shard all that the store has of it beside the log.
fn fill_shard<F: Folder>(
    alloc: Global,
    folder: &mut F,
    said: &Said,
    shard: u8,
    filled: &mut Shard<F::Sealed>,
    tally: &mut F::Tally,
) -> Result<(), RecoveryFault>
    requires within { IsWithin said.now }
    ensures filled { OnOk result (IsFilled said.now (F.disk folder.old) shard filled.old filled.new) }
    ensures bad { IfErr result (λ f. (c : Image) → (F.disk folder.old).reads c → IsBadIn said.now c shard f) }
    ensures reads { Follows Same (F.disk folder.old).reads (F.disk folder.new).reads }
    ensures during { During Same (F.disk folder.old) (F.disk folder.new) }
    ensures count { Counted (F.faults_of folder.old) (F.faults_of folder.new) (IsErrOf result RecoveryFault.Failed) }
    ensures read { Counted (F.Tally.number tally.old) (F.Tally.number tally.new) (IsErrOf result RecoveryFault.Read) }
{
    let times = times_of(said, shard);
    filled.tell_times(times.drawn, times.moment);
    fill_tables(alloc, folder, said, shard, filled, tally)
}

/// Gives each shard all that the store has of it beside the log.
pub(crate) fn fill_shards<F: Folder>(
    alloc: Global,
    folder: &mut F,
    said: &Said,
    shards: &mut Vec<Shard<F::Sealed>>,
    tally: &mut F::Tally,
) -> Result<(), RecoveryFault>
    requires within { IsWithin said.now }
    requires count { said.now.shards ≤ length shards.old.items }
    ensures filled { OnOk result (AreFilled said.now (F.disk folder.old) said.now.shards shards.old.items shards.new.items) }
    ensures bad { IfErr result (λ f. (c : Image) → (F.disk folder.old).reads c → IsBadOfShard said.now c f) }
    ensures reads { Follows Same (F.disk folder.old).reads (F.disk folder.new).reads }
    ensures during { During Same (F.disk folder.old) (F.disk folder.new) }
    ensures count { Counted (F.faults_of folder.old) (F.faults_of folder.new) (IsErrOf result RecoveryFault.Failed) }
    ensures read { Counted (F.Tally.number tally.old) (F.Tally.number tally.new) (IsErrOf result RecoveryFault.Read) }
{
    for shard in 0..said.shards() {
        let filled = &mut shards[shard as usize];
        if let Err(fault) = fill_shard(alloc, folder, said, shard, filled, tally) {
            return Err(fault);
        }
    }
    Ok(())
}
