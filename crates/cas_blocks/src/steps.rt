//! The blocks of a partition, one after another.

ghost use Rattle.std.specs.Prelude.{◌≡◌, ◌+◌, ◌≤◌, ◌<◌, ◌^◌, ℕ, List as ListOf, Some, None, length, vec_len, nat_le, IfOk, IfSome, MatchOption, IsErrOf, OnOk};
ghost use Rattle.std.specs.Option.{option_copied};
ghost use Rattle.cas_disk.specs.Counts.{Counted};
ghost use Rattle.cas_streams.specs.Streams.{IsThere};
ghost use Rattle.cas_fragments.specs.Blocks.{past_all, last_place, is_full};
ghost use Rattle.cas_blocks.specs.Reading.{left_at};
ghost use Rattle.cas_blocks.specs.Inner.Bodies.{TellsLength, NoBody, IsBody};
ghost use Rattle.cas_blocks.specs.Inner.Steps.{reached, IsStep, Parses, Answers, IsShorter};

use crate::fault::TableFault;
use crate::file::TableFile;
use crate::origin::Origin;
use crate::reading::read_range;
use cas_bounds::Cut;
use cas_cell::Deletion;
use cas_codec::{ReadFault, Reader};
use cas_disk::{FolderFault, Sealed};
use cas_fragments::BLOCK_LEAST;
use cas_skips::{Checked, Spelled, check_block};
use cas_streams::Fragment;

/// How a partition goes on: the place of the next block, or of the end; whether the end may stand
/// there, and whether a block may; the last fragment's place and the range deletion in force there.
#[derive(Drop)]
pub struct Onward {
    pub place: u64,
    pub ends: bool,
    pub goes_on: bool,
    pub last: Option<Fragment>,
    pub force: Option<Deletion>,
}

/// A block's fragments, and how the partition goes on behind them.
#[derive(Drop)]
pub struct Step<'a> {
    pub fragments: Spelled<'a>,
    pub onward: Onward,
}

// The length that is told at a place; none where it doesn't stand before the end.
fn read_length<F: Sealed>(
    file: &TableFile<'_, F>,
    place: u64,
    tally: &mut F::Tally,
) -> Result<Option<u32>, FolderFault>
    ensures told { IfOk result (λ n. (b : ListOf ℕ) → F.contents file.now.sealed.now ≡ Some b → TellsLength n (left_at b file.now.end place)) }
    ensures within { IfOk result (λ n. IfSome n (λ long. place + 4 ≤ file.now.end)) }
    ensures count { Counted (F.Tally.number tally.old) (F.Tally.number tally.new) (IsErrOf result FolderFault.Failed) }
{
    if file.end.saturating_sub(place) < 4 {
        return Ok(None);
    }
    let bytes = read_range(file.alloc, file.sealed, place, 4, tally)?;
    let mut reader = Reader::new(&bytes, place);
    match reader.u32() {
        Ok(long) => Ok(Some(long)),
        Err(_) => Ok(None),
    }
}

/// The bytes behind the length that is told at a place; none where they don't stand before the end.
pub(crate) fn read_body<F: Sealed>(
    file: &TableFile<'_, F>,
    place: u64,
    tally: &mut F::Tally,
) -> Result<Option<Vec<u8>>, FolderFault>
    ensures told { IfOk result (λ v. (b : ListOf ℕ) → F.contents file.now.sealed.now ≡ Some b
        → MatchOption v (NoBody (left_at b file.now.end place)) (λ body. IsBody body.items (left_at b file.now.end place))) }
    ensures within { IfOk result (λ v. IfSome v (λ body. place + 4 + vec_len body ≤ file.now.end)) }
    ensures count { Counted (F.Tally.number tally.old) (F.Tally.number tally.new) (IsErrOf result FolderFault.Failed) }
{
    let Some(long) = read_length(file, place, tally)? else {
        return Ok(None);
    };
    if u64::from(long) > file.end - place - 4 {
        return Ok(None);
    }
    let long = long as usize;
    let body = read_range(file.alloc, file.sealed, place + 4, long, tally)?;
    if body.len() < long {
        return Ok(None);
    }
    Ok(Some(body))
}

// How the partition goes on behind a block of so many bytes.
fn behind<'a>(at: &Onward, block: Checked<'a>, long: usize) -> Step<'a>
    requires place { at.now.place + 4 + long ≤ 2 ^ 62 }
    requires some { IsThere block.fragments }
    requires few { length block.fragments ≤ long }
    requires reached { record { last = last_place block.last; force = block.force } ≡ past_all (reached at.now) block.fragments }
    requires full { is_full block.fragments ≡ nat_le BLOCK_LEAST long }
    ensures same { result.fragments ≡ block.entry.fragments }
    ensures step { IsStep at.now long result }
{
    Step {
        fragments: block.fragments,
        onward: Onward {
            place: at.place + 4 + long as u64,
            ends: block.force.is_none(),
            goes_on: BLOCK_LEAST <= long,
            last: block.last,
            force: block.force,
        },
    }
}

// The fragment that stands for what comes before the next block.
fn mark_before(at: &Onward) -> Option<&Fragment>
    ensures { option_copied result ≡ at.now.last }
{
    match &at.last {
        Some(last) => Some(last),
        None => None,
    }
}

// The block that these bytes are, of whose fragments those behind the cut are looked for next.
fn parse_block<'a, F: Sealed>(
    file: &TableFile<'a, F>,
    at: &Onward,
    low: Option<&Cut>,
    body: Vec<u8>,
) -> Result<Step<'a>, TableFault>
    requires { at.now.place + 4 + vec_len body ≤ file.now.end }
    ensures { Parses file.now.order.now file.now.columns.now file.now.number at.now body.items result }
{
    let long = body.len();
    let last = mark_before(at);
    match check_block(
        file.alloc,
        body,
        at.place + 4,
        file.order,
        file.columns,
        last,
        at.force,
        low,
    ) {
        Ok(block) => Ok(behind(at, block, long)),
        Err(ReadFault::Mem) => Err(TableFault::Mem),
        Err(_) => Err(file.bad_block(at.place)),
    }
}

// What these bytes are, which the file tells there: a block, or none where they are the end.
fn judge<'a, F: Sealed>(
    file: &TableFile<'a, F>,
    at: &Onward,
    low: Option<&Cut>,
    body: Vec<u8>,
) -> Result<Option<Step<'a>>, TableFault>
    requires { at.now.place + 4 + vec_len body ≤ file.now.end }
    ensures told { (b : ListOf ℕ) → IsBody body.items (left_at b file.now.end at.now.place)
        → Answers file.now.order.now file.now.columns.now file.now.number file.now.end b at.now result }
    ensures shorter { IfOk result (λ o. IfSome o (IsShorter file.now.end at.now)) }
    ensures no_read { IsErrOf result TableFault.Read → ⊥ }
{
    if body.is_empty() {
        if at.ends {
            return Ok(None);
        }
        return Err(file.bad_block(at.place));
    }
    if !at.goes_on {
        return Err(file.bad_block(at.place));
    }
    match parse_block(file, at, low, body) {
        Ok(step) => Ok(Some(step)),
        Err(fault) => Err(fault),
    }
}

/// The next block of a partition; none at its end. Where its fragments behind a cut are looked for
/// next, that is told.
pub(crate) fn next_block<'a, F: Sealed, O: Origin<F>>(
    file: &TableFile<'a, F>,
    at: &Onward,
    low: Option<&Cut>,
    state: &mut O::State,
) -> Result<Option<Step<'a>>, TableFault>
    requires fits { O.fits (F.contents file.now.sealed.now) file.now.end state.old }
    ensures told { (b : ListOf ℕ) → F.contents file.now.sealed.now ≡ Some b
        → Answers file.now.order.now file.now.columns.now file.now.number file.now.end b at.now result }
    ensures shorter { IfOk result (λ o. IfSome o (IsShorter file.now.end at.now)) }
    ensures count { Counted (O.faults state.old) (O.faults state.new) (IsErrOf result TableFault.Read) }
    ensures fits { O.fits (F.contents file.now.sealed.now) file.now.end state.new }
    ensures leads { O.leads state.old state.new }
{
    match O::body(file, at.place, state) {
        Ok(Some(body)) => judge(file, at, low, body),
        Ok(None) => Err(file.bad_block(at.place)),
        Err(fault) => Err(TableFault::from(fault)),
    }
}
