//! The head of a table file.

ghost use Rattle.std.specs.Prelude.{◌≡◌, ◌+◌, ◌<◌, ◌≤◌, ◌++◌, OnOk, OnErr, vec_len};
ghost use Rattle.std.specs.Vec.{vec_capacity};
ghost use Rattle.cas_codec.specs.Reading.{Gives};
ghost use Rattle.cas_tables.specs.declared.header.TheConstants.{HEADER_LENGTH};
ghost use Rattle.cas_tables.specs.Versions.{version_of, version_number};
ghost use Rattle.cas_tables.specs.Spelling.{header_bytes};
ghost use Rattle.cas_tables.specs.Reading.{version_at, start_at, header_at, header_of_at};

use cas_codec::{ReadFault, Reader, put_u8, put_u16, put_u64};
use cas_fragments::Version;
use cas_info::FILE_NUMBER_LIMIT;
use cas_types::{Mem, SHARD_LIMIT};

/// The word CASSTAB1, by which a table file begins.
pub(crate) const START_WORD: u64 = 0x4341_5353_5441_4231;

/// The first version of the format.
pub(crate) const FIRST_VERSION: u16 = 1;

/// The version of the format that is written.
pub(crate) const LAST_VERSION: u16 = 2;

/// The greatest shard.
pub const LAST_SHARD: u8 = SHARD_LIMIT - 1;

/// The bytes of a header.
pub const HEADER_LENGTH: u64 = 21;

/// What a table file begins with: its version, the number of the table, the shard and the number of
/// the file.
#[derive(Clone, Copy)]
pub struct Header {
    pub version: Version,
    pub table: u16,
    pub shard: u8,
    pub number: u64,
}

fn version_of(number: u16) -> Version
    ensures { result ≡ version_of number }
{
    if number == FIRST_VERSION {
        Version::First
    } else {
        Version::Second
    }
}

fn version_number(version: Version) -> u16
    ensures { result ≡ version_number version }
{
    match version {
        Version::First => FIRST_VERSION,
        Version::Second => LAST_VERSION,
    }
}

#[tactic(auto, unfolding(crate::specs::Reading::version_at))]
fn read_version(reader: &mut Reader<'_>) -> Result<Version, ReadFault>
    ensures { Gives (λ v. v) result reader.new (version_at reader.old) }
{
    let number = reader.u16_within(FIRST_VERSION, LAST_VERSION)?;
    Ok(version_of(number))
}

// The word that tells a table file, and its version.
#[tactic(auto, unfolding(crate::specs::Reading::start_at))]
fn read_start(reader: &mut Reader<'_>) -> Result<Version, ReadFault>
    ensures { Gives (λ v. v) result reader.new (start_at reader.old) }
{
    reader.u64_within(START_WORD, START_WORD)?;
    read_version(reader)
}

/// Reads the head of a table file.
#[tactic(auto, unfolding(crate::specs::Reading::header_at))]
pub fn read_header(reader: &mut Reader<'_>) -> Result<Header, ReadFault>
    ensures { Gives (λ h. h) result reader.new (header_at reader.old) }
{
    let version = read_start(reader)?;
    let table = reader.u16()?;
    let shard = reader.u8_within(0, LAST_SHARD)?;
    let number = reader.u64_within(1, FILE_NUMBER_LIMIT)?;
    Ok(Header {
        version,
        table,
        shard,
        number,
    })
}

/// Reads the head of the file of this number, of this table and this shard: another value isn't
/// allowed where one of them stands.
#[tactic(auto, unfolding(crate::specs::Reading::header_of_at))]
pub fn read_header_of(
    reader: &mut Reader<'_>,
    table: u16,
    shard: u8,
    number: u64,
) -> Result<Version, ReadFault>
    ensures { Gives (λ v. v) result reader.new (header_of_at table shard number reader.old) }
{
    let version = read_start(reader)?;
    reader.u16_within(table, table)?;
    reader.u8_within(shard, shard)?;
    reader.u64_within(number, number)?;
    Ok(version)
}

/// Adds the head of a table file.
pub fn put_header(out: &mut Vec<u8>, header: &Header) -> Result<(), Mem>
    ensures written { OnOk result (out.new.items ≡ out.old.items ++ header_bytes header.now) }
    ensures length { OnOk result (vec_len out.new ≡ vec_len out.old + HEADER_LENGTH) }
    ensures unchanged { OnErr result (out.new.items ≡ out.old.items) }
    ensures full { OnErr result (vec_capacity out.old < vec_len out.old + HEADER_LENGTH) }
    ensures capacity { vec_capacity out.old ≤ vec_capacity out.new }
{
    out.reserve(HEADER_LENGTH as usize)?;
    put_u64(out, START_WORD)?;
    put_u16(out, version_number(header.version))?;
    put_u16(out, header.table)?;
    put_u8(out, header.shard)?;
    put_u64(out, header.number)
}
