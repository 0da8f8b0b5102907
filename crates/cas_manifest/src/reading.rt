//! The fields of a manifest, from left to right.

ghost use Rattle.std.specs.Prelude.{◌≡◌, ◌==◌, length, IfOk};
ghost use Rattle.cas_codec.specs.Reading.{Gives, checked, u8_at};
ghost use Rattle.cas_changes.specs.Allowed.{IsListable};
ghost use Rattle.cas_manifest.specs.Reading.{length_at, count_at, block_at, next_at, blocks_at, word_at, manifest_at, manifest_of};
ghost use Rattle.cas_manifest.specs.Reads.{Reads, IsRead};

use crate::fault::ManifestFault;
use cas_changes::{Entry, FILE_LIMIT, Said, read_entry};
use cas_codec::{ReadFault, Reader};
use cas_types::Mem;
use std::alloc::Global;

// The length of a block's body.
#[tactic(auto, unfolding(crate::specs::Reading::length_at, cas_codec::specs::Reading::checked))]
fn read_length(reader: &mut Reader<'_>) -> Result<u32, ReadFault>
    ensures { Gives (λ n. n) result reader.new (length_at reader.old) }
{
    let at = reader.at();
    let long = reader.u32()?;
    if at <= FILE_LIMIT && long as u64 + 9 <= FILE_LIMIT - at {
        return Ok(long);
    }
    Err(ReadFault::Bad { at })
}

// The number of a block's entries.
#[tactic(auto, unfolding(crate::specs::Reading::count_at, cas_codec::specs::Reading::checked))]
fn read_count(reader: &mut Reader<'_>) -> Result<u32, ReadFault>
    ensures { Gives (λ n. n) result reader.new (count_at reader.old) }
{
    let at = reader.at();
    let count = reader.u32()?;
    if count == 1 {
        return Ok(count);
    }
    Err(ReadFault::Bad { at })
}

// A block, behind its open gate.
#[tactic(auto, unfolding(crate::specs::Reading::block_at, cas_codec::specs::Reading::bytes_at))]
fn read_block(alloc: Global, reader: &mut Reader<'_>, said: &Said) -> Result<Entry, ReadFault>
    ensures read { Gives (λ e. e) result reader.new (block_at said.now reader.old) }
    ensures listable { IfOk result (λ e. IsListable said.now e) }
{
    let at = reader.at();
    let long = read_length(reader)?;
    read_count(reader)?;
    if reader.left().len() < long as usize {
        return Err(ReadFault::Short { at });
    }
    let mut body = reader.part(long as usize)?;
    let entry = read_entry(alloc, &mut body, said)?;
    if !body.is_empty() {
        return Err(ReadFault::Bad { at: body.at() });
    }
    Ok(entry)
}

// Adds the entry of a block.
#[tactic(auto, unfolding(crate::specs::Reading::next_at))]
fn add_block(
    alloc: Global,
    reader: &mut Reader<'_>,
    said: &mut Said,
    entries: &mut Vec<Entry>,
) -> Result<(), ReadFault>
    ensures { Gives (λ _. (said.new, entries.new.items)) result reader.new (next_at (said.old, entries.old.items) reader.old) }
{
    let entry = read_block(alloc, reader, said)?;
    match said.take(alloc, &entry) {
        Ok(()) => entries.push(entry)?,
        Err(Mem) => return Err(ReadFault::Mem),
    }
    Ok(())
}

// Adds the entries of the blocks up to the first gate that isn't open, and gives its place.
fn add_blocks(
    alloc: Global,
    reader: &mut Reader<'_>,
    said: &mut Said,
    entries: &mut Vec<Entry>,
) -> Result<u64, ReadFault>
    ensures { Gives (λ at. ((said.new, entries.new.items), at)) result reader.new
        (blocks_at (length reader.old.bytes) (said.old, entries.old.items) reader.old) }
{
    // There are fewer blocks than bytes.
    for _block in 0..reader.left().len() {
        let at = reader.at();
        match reader.u8() {
            Ok(1) => {}
            Ok(_) => return Ok(at),
            Err(fault) => return Err(fault),
        }
        if let Err(fault) = add_block(alloc, reader, said, entries) {
            return Err(fault);
        }
    }
    Err(ReadFault::Short { at: reader.at() })
}

// The file's own gate, open.
#[tactic(auto, unfolding(cas_codec::specs::Reading::checked))]
fn read_gate(reader: &mut Reader<'_>) -> Result<u8, ReadFault>
    ensures { Gives (λ g. g) result reader.new (checked (λ g. g == 1) u8_at reader.old) }
{
    let at = reader.at();
    let gate = reader.u8()?;
    if gate == 1 {
        return Ok(gate);
    }
    Err(ReadFault::Bad { at })
}

// The file's own gate, and the word.
#[tactic(auto, unfolding(crate::specs::Reading::word_at, cas_codec::specs::Reading::checked))]
fn read_word<'a>(reader: &mut Reader<'a>) -> Result<&'a [u8], ReadFault>
    ensures { Gives (λ w. w.now) result reader.new (word_at reader.old) }
{
    read_gate(reader)?;
    let at = reader.at();
    let word = reader.bytes(8)?;
    if word == b"CASSMAN1".as_slice() {
        return Ok(word);
    }
    Err(ReadFault::Bad { at })
}

// What a manifest says together, its entries, and the place of its closed gate.
#[tactic(auto, unfolding(crate::specs::Reading::manifest_at))]
fn manifest(alloc: Global, reader: &mut Reader<'_>) -> Result<(Said, Vec<Entry>, u64), ReadFault>
    ensures { Gives (λ m. ((m.0, m.1.items), m.2)) result reader.new (manifest_at reader.old) }
{
    read_word(reader)?;
    let mut said = Said::nothing(alloc);
    let mut entries = Vec::new(alloc);
    let at = add_blocks(alloc, reader, &mut said, &mut entries)?;
    Ok((said, entries, at))
}

/// What the entries of a manifest's bytes say together, the entries, and the place of the closed gate;
/// or the place of the first field that isn't as it must be.
#[tactic(auto, unfolding(crate::specs::Reading::manifest_of))]
pub fn read_manifest(alloc: Global, file: &[u8]) -> Result<(Said, Vec<Entry>, u64), ManifestFault>
    ensures exact { Reads (λ m. ((m.0, m.1.items), m.2)) result (manifest_of file.now) }
    ensures found { IfOk result (λ m. IsRead (m.0, m.1.items) m.2 file.now) }
{
    let mut reader = Reader::new(file, 0);
    match manifest(alloc, &mut reader) {
        Ok(read) => Ok(read),
        Err(ReadFault::Short { at } | ReadFault::Bad { at }) => Err(ManifestFault::Bad { at }),
        Err(ReadFault::Mem) => Err(ManifestFault::Mem),
    }
}
