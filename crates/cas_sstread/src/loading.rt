//! Reads the parts of a table file that are kept in memory.

ghost use Rattle.std.specs.Prelude.{◌≡◌, ◌+◌, ◌-◌, ◌<◌, ◌≤◌, ◌^◌, ℕ, List, Some, true, IfOk, IsErrOf, length};
ghost use Rattle.cas_disk.specs.Counts.{Counted};
ghost use Rattle.cas_info.specs.declared.info.TheConstants.{FILE_LIMIT};
ghost use Rattle.cas_index.specs.declared.footer.TheConstants.{FOOTER_LENGTH};
ghost use Rattle.cas_tables.specs.declared.header.TheConstants.{HEADER_LENGTH};
ghost use Rattle.cas_tables.specs.Reading.{header_of_at};
ghost use Rattle.cas_sstread.specs.Reading.{part, filled_at, last_footer_at, own_index_at, own_filter_at, own_info_at, stand_before, loaded_at};
ghost use Rattle.cas_sstread.specs.Loading.{Answers};
ghost use Rattle.cas_sstread.specs.Inner.Ends.{told_fault};
ghost use Rattle.cas_sstread.specs.Inner.Parts.{kept_of};

use crate::fault::TableFault;
use crate::fields::{filter_in, footer_in, header_in, index_in};
use crate::parts::read_part;
use crate::told::check_told;
use cas_bounds::RowOrder;
use cas_codec::ReadFault;
use cas_disk::Sealed;
use cas_filter::Filter;
use cas_fragments::Version;
use cas_index::{FOOTER_LENGTH, Footer, PartitionEntry, PartitionIndex};
use cas_info::TableInfo;
use cas_tables::HEADER_LENGTH;
use std::alloc::Global;

// What is answered of such a fault in the file of that number.
fn told_fault(number: u64, fault: ReadFault) -> TableFault
    ensures { result ≡ told_fault number fault }
{
    match fault {
        ReadFault::Short { at } => TableFault::BadBlock { number, at },
        ReadFault::Bad { at } => TableFault::BadBlock { number, at },
        ReadFault::Mem => TableFault::Mem,
    }
}

/// The version that the header tells.
pub(crate) fn load_header<F: Sealed>(
    alloc: Global,
    file: &F,
    table: u16,
    shard: u8,
    number: u64,
    tally: &mut F::Tally,
) -> Result<Version, TableFault>
    ensures loaded { (b : List ℕ) → F.contents file.now ≡ Some b
        → Answers (λ v. v) number result (filled_at (header_of_at table shard number) (part b 0 HEADER_LENGTH)) }
    ensures count { Counted (F.Tally.number tally.old) (F.Tally.number tally.new) (IsErrOf result TableFault.ReadFault) }
{
    let bytes = read_part(alloc, file, 0, HEADER_LENGTH as usize, tally)?;
    match header_in(&bytes, table, shard, number) {
        Ok(version) => Ok(version),
        Err(fault) => Err(told_fault(number, fault)),
    }
}

/// The footer of a file that is so long.
pub(crate) fn load_footer<F: Sealed>(
    alloc: Global,
    file: &F,
    number: u64,
    bytes: u64,
    tally: &mut F::Tally,
) -> Result<Footer, TableFault>
    requires { bytes ≤ FILE_LIMIT }
    ensures loaded { (b : List ℕ) → F.contents file.now ≡ Some b
        → Answers (λ f. f) number result (last_footer_at (part b (bytes - FOOTER_LENGTH) (FOOTER_LENGTH + 1))) }
    ensures in_order { IfOk result (λ f. (f.index ≤ f.filter) × (f.filter ≤ f.info) × (f.info ≤ bytes - FOOTER_LENGTH)) }
    ensures count { Counted (F.Tally.number tally.old) (F.Tally.number tally.new) (IsErrOf result TableFault.ReadFault) }
{
    let at = bytes.saturating_sub(FOOTER_LENGTH);
    let bytes = read_part(alloc, file, at, FOOTER_LENGTH as usize + 1, tally)?;
    match footer_in(&bytes, at) {
        Ok(footer) => Ok(footer),
        Err(fault) => Err(told_fault(number, fault)),
    }
}

/// The index that stands from that place to another.
pub(crate) fn load_index<F: Sealed>(
    alloc: Global,
    file: &F,
    number: u64,
    order: &RowOrder,
    footer: &Footer,
    tally: &mut F::Tally,
) -> Result<PartitionIndex, TableFault>
    requires below { footer.now.index ≤ footer.now.filter }
    requires within { footer.now.filter ≤ FILE_LIMIT }
    ensures loaded { (b : List ℕ) → F.contents file.now ≡ Some b
        → Answers (λ i. i.partitions) number result (own_index_at order.now (part b footer.now.index (footer.now.filter - footer.now.index))) }
    ensures order { IfOk result (λ i. i.order ≡ order.now) }
    ensures before { IfOk result (λ i. stand_before footer.now.index i.partitions ≡ true) }
    ensures count { Counted (F.Tally.number tally.old) (F.Tally.number tally.new) (IsErrOf result TableFault.ReadFault) }
{
    let long = footer.filter - footer.index;
    let bytes = read_part(alloc, file, footer.index, long as usize, tally)?;
    match index_in(alloc, &bytes, footer.index, order) {
        Ok(index) => Ok(index),
        Err(fault) => Err(told_fault(number, fault)),
    }
}

/// The filter of so many keys, which stands behind the index.
pub(crate) fn load_filter<F: Sealed>(
    alloc: Global,
    file: &F,
    number: u64,
    keys: usize,
    footer: &Footer,
    tally: &mut F::Tally,
) -> Result<Filter, TableFault>
    requires few { keys < 2 ^ 32 }
    requires below { footer.now.filter ≤ footer.now.info }
    requires within { footer.now.info ≤ FILE_LIMIT }
    ensures loaded { (b : List ℕ) → F.contents file.now ≡ Some b
        → Answers (λ f. f) number result (own_filter_at keys (part b footer.now.filter (footer.now.info - footer.now.filter))) }
    ensures count { Counted (F.Tally.number tally.old) (F.Tally.number tally.new) (IsErrOf result TableFault.ReadFault) }
{
    let long = footer.info - footer.filter;
    let bytes = read_part(alloc, file, footer.filter, long as usize, tally)?;
    match filter_in(alloc, &bytes, footer.filter, keys) {
        Ok(filter) => Ok(filter),
        Err(fault) => Err(told_fault(number, fault)),
    }
}

/// Whether the file tells of itself what is listed.
pub(crate) fn load_told<F: Sealed>(
    alloc: Global,
    file: &F,
    info: &TableInfo,
    partitions: &[PartitionEntry],
    at: u64,
    tally: &mut F::Tally,
) -> Result<(), TableFault>
    requires below { at ≤ info.now.bytes - FOOTER_LENGTH }
    requires within { info.now.bytes ≤ FILE_LIMIT }
    ensures loaded { (b : List ℕ) → F.contents file.now ≡ Some b
        → Answers (λ u. u) info.now.number result (filled_at (own_info_at info.now partitions.now) (part b at (info.now.bytes - FOOTER_LENGTH - at))) }
    ensures count { Counted (F.Tally.number tally.old) (F.Tally.number tally.new) (IsErrOf result TableFault.ReadFault) }
{
    let long = info.bytes.saturating_sub(FOOTER_LENGTH) - at;
    let bytes = read_part(alloc, file, at, long as usize, tally)?;
    match check_told(&bytes, at, info, partitions) {
        Ok(()) => Ok(()),
        Err(fault) => Err(told_fault(info.number, fault)),
    }
}

/// What is kept of a file: its version, where its partitions end, its index and its filter.
#[derive(Drop)]
pub(crate) struct Parts {
    pub(crate) version: Version,
    pub(crate) end: u64,
    pub(crate) index: PartitionIndex,
    pub(crate) filter: Filter,
}

/// The parts of the file of that table and that shard of which this is listed.
#[tactic(auto, unfolding(crate::specs::Reading::loaded_at))]
pub(crate) fn load_parts<F: Sealed>(
    alloc: Global,
    file: &F,
    order: &RowOrder,
    table: u16,
    shard: u8,
    info: &TableInfo,
    tally: &mut F::Tally,
) -> Result<Parts, TableFault>
    requires { info.now.bytes ≤ FILE_LIMIT }
    ensures loaded { (b : List ℕ) → F.contents file.now ≡ Some b
        → Answers kept_of info.now.number result (loaded_at order.now table shard info.now b) }
    ensures order { IfOk result (λ p. p.index.order ≡ order.now) }
    ensures before { IfOk result (λ p. (stand_before p.end p.index.partitions ≡ true) × (p.end ≤ FILE_LIMIT)) }
    ensures count { Counted (F.Tally.number tally.old) (F.Tally.number tally.new) (IsErrOf result TableFault.ReadFault) }
{
    let version = load_header(alloc, file, table, shard, info.number, tally)?;
    let footer = load_footer(alloc, file, info.number, info.bytes, tally)?;
    let index = load_index(alloc, file, info.number, order, &footer, tally)?;
    let keys = index.as_slice().len();
    let filter = load_filter(alloc, file, info.number, keys, &footer, tally)?;
    load_told(alloc, file, info, index.as_slice(), footer.info, tally)?;
    Ok(Parts {
        version,
        end: footer.index,
        index,
        filter,
    })
}
