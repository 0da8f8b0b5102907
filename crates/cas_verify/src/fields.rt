//! Compares the bytes behind the partitions with what must stand there, field by field.

ghost use Rattle.std.specs.Prelude.{◌≡◌, ◌<◌, ◌^◌, ◌++◌, [], ◌∷◌, length, IsOk, IfErr, OnOk};
ghost use Rattle.std.specs.List.{All, flat_map};
ghost use Rattle.cas_codec.specs.Fields.{u8, u32, u64, i64, bytes16, maybe};
ghost use Rattle.cas_codec.specs.Reading.{Gives};
ghost use Rattle.cas_records.specs.Spelling.{deletion_bytes, cut_bytes};
ghost use Rattle.cas_index.specs.Allowed.{HasRoom, HasRooms};
ghost use Rattle.cas_verify.specs.Fields.{field_at, fields_at, block_fields, head_fields, partition_fields, index_fields, filter_fields, info_fields};

use cas_cell::Deletion;
use cas_codec::{
    ReadFault, Reader, put_bytes16, put_flag, put_i64, put_maybe_i64, put_u8, put_u32, put_u64,
};
use cas_filter::Filter;
use cas_index::{BlockEntry, PartitionEntry};
use cas_info::TableInfo;
use cas_records::{put_cut, put_deletion};
use cas_types::{Mem, compare_bytes};

// Whether a field was spelled.
fn spelled(written: Result<(), Mem>) -> Result<(), ReadFault>
    ensures ok { OnOk result (IsOk written) }
    ensures why { IfErr result (λ f. f ≡ ReadFault.Mem) }
{
    match written {
        Ok(()) => Ok(()),
        Err(Mem) => Err(ReadFault::Mem),
    }
}

// The field is to stand there.
#[tactic(auto, unfolding(crate::specs::Fields::field_at, cas_codec::specs::Reading::checked))]
fn check_field(reader: &mut Reader<'_>, field: &[u8]) -> Result<(), ReadFault>
    ensures { Gives (λ u. u) result reader.new (field_at field.now reader.old) }
{
    let at = reader.at();
    let bytes = reader.bytes(field.len())?;
    if compare_bytes(bytes, field).is_eq() {
        return Ok(());
    }
    Err(ReadFault::Bad { at })
}

// Adds a deletion that may be there.
fn put_maybe_deletion(out: &mut Vec<u8>, deletion: Option<Deletion>) -> Result<(), Mem>
    ensures { OnOk result (out.new.items ≡ out.old.items ++ maybe deletion_bytes deletion) }
{
    match deletion {
        None => put_flag(out, false),
        Some(deletion) => {
            put_flag(out, true)?;
            put_deletion(out, &deletion)
        }
    }
}

/// What is left to be compared, and room for a field as it is spelled.
#[derive(Drop)]
pub(crate) struct Fields<'a> {
    pub(crate) left: Reader<'a>,
    pub(crate) field: Vec<u8>,
}

impl Fields<'_> {
    fn u8(&mut self, number: u8) -> Result<(), ReadFault>
        ensures { Gives (λ u. u) result self.new.left (field_at (u8 number) self.old.left) }
    {
        self.field.clear();
        spelled(put_u8(&mut self.field, number))?;
        check_field(&mut self.left, &self.field)
    }

    fn u32(&mut self, number: u32) -> Result<(), ReadFault>
        ensures { Gives (λ u. u) result self.new.left (field_at (u32 number) self.old.left) }
    {
        self.field.clear();
        spelled(put_u32(&mut self.field, number))?;
        check_field(&mut self.left, &self.field)
    }

    fn u64(&mut self, number: u64) -> Result<(), ReadFault>
        ensures { Gives (λ u. u) result self.new.left (field_at (u64 number) self.old.left) }
    {
        self.field.clear();
        spelled(put_u64(&mut self.field, number))?;
        check_field(&mut self.left, &self.field)
    }

    fn i64(&mut self, number: i64) -> Result<(), ReadFault>
        ensures { Gives (λ u. u) result self.new.left (field_at (i64 number) self.old.left) }
    {
        self.field.clear();
        spelled(put_i64(&mut self.field, number))?;
        check_field(&mut self.left, &self.field)
    }

    fn maybe_i64(&mut self, number: Option<i64>) -> Result<(), ReadFault>
        ensures { Gives (λ u. u) result self.new.left (field_at (maybe i64 number) self.old.left) }
    {
        self.field.clear();
        spelled(put_maybe_i64(&mut self.field, number))?;
        check_field(&mut self.left, &self.field)
    }

    fn bytes16(&mut self, bytes: &[u8]) -> Result<(), ReadFault>
        requires { length bytes.now < 2 ^ 16 }
        ensures { Gives (λ u. u) result self.new.left (field_at (bytes16 bytes.now) self.old.left) }
    {
        self.field.clear();
        spelled(put_bytes16(&mut self.field, bytes))?;
        check_field(&mut self.left, &self.field)
    }

    fn cut(&mut self, block: &BlockEntry) -> Result<(), ReadFault>
        requires { HasRoom block.now }
        ensures { Gives (λ u. u) result self.new.left (field_at (cut_bytes block.now.cut) self.old.left) }
    {
        self.field.clear();
        spelled(put_cut(&mut self.field, &block.cut))?;
        check_field(&mut self.left, &self.field)
    }

    fn in_force(&mut self, deletion: Option<Deletion>) -> Result<(), ReadFault>
        ensures { Gives (λ u. u) result self.new.left (field_at (maybe deletion_bytes deletion) self.old.left) }
    {
        self.field.clear();
        spelled(put_maybe_deletion(&mut self.field, deletion))?;
        check_field(&mut self.left, &self.field)
    }

    // What the index tells of a block.
    #[tactic(auto, unfolding(crate::specs::Fields::fields_at))]
    fn block(&mut self, block: &BlockEntry) -> Result<(), ReadFault>
        requires { HasRoom block.now }
        ensures { Gives (λ u. u) result self.new.left (fields_at (block_fields block.now) self.old.left) }
    {
        self.cut(block)?;
        self.u64(block.place)?;
        self.in_force(block.in_force)?;
        Ok(())
    }

    fn blocks(&mut self, blocks: &[BlockEntry]) -> Result<(), ReadFault>
        requires { All HasRoom blocks.now }
        ensures { Gives (λ u. u) result self.new.left (fields_at (flat_map block_fields blocks.now) self.old.left) }
    {
        for block in blocks {
            match self.block(block) {
                Ok(()) => {}
                Err(fault) => return Err(fault),
            }
        }
        Ok(())
    }

    // What it tells of a partition, before its blocks.
    #[tactic(auto, unfolding(crate::specs::Fields::fields_at))]
    fn head(&mut self, partition: &PartitionEntry) -> Result<(), ReadFault>
        requires { HasRooms partition.now }
        ensures { Gives (λ u. u) result self.new.left (fields_at (head_fields partition.now) self.old.left) }
    {
        self.bytes16(partition.key.as_slice())?;
        self.u64(partition.place)?;
        self.u32(partition.blocks.len() as u32)?;
        Ok(())
    }

    fn partition(&mut self, partition: &PartitionEntry) -> Result<(), ReadFault>
        requires { HasRooms partition.now }
        ensures { Gives (λ u. u) result self.new.left (fields_at (partition_fields partition.now) self.old.left) }
    {
        match self.head(partition) {
            Ok(()) => self.blocks(partition.blocks.as_slice()),
            Err(fault) => Err(fault),
        }
    }

    fn partitions(&mut self, partitions: &[PartitionEntry]) -> Result<(), ReadFault>
        requires { All HasRooms partitions.now }
        ensures { Gives (λ u. u) result self.new.left (fields_at (flat_map partition_fields partitions.now) self.old.left) }
    {
        for partition in partitions {
            match self.partition(partition) {
                Ok(()) => {}
                Err(fault) => return Err(fault),
            }
        }
        Ok(())
    }

    // How many partitions the index has.
    #[tactic(auto, unfolding(crate::specs::Fields::fields_at))]
    fn count(&mut self, partitions: &[PartitionEntry]) -> Result<(), ReadFault>
        requires { length partitions.now < 2 ^ 32 }
        ensures { Gives (λ u. u) result self.new.left (fields_at (u32 (length partitions.now) ∷ []) self.old.left) }
    {
        self.u32(partitions.len() as u32)?;
        Ok(())
    }

    /// The index of these partitions.
    pub(crate) fn index(&mut self, partitions: &[PartitionEntry]) -> Result<(), ReadFault>
        requires few { length partitions.now < 2 ^ 32 }
        requires rooms { All HasRooms partitions.now }
        ensures { Gives (λ u. u) result self.new.left (fields_at (index_fields partitions.now) self.old.left) }
    {
        match self.count(partitions) {
            Ok(()) => self.partitions(partitions),
            Err(fault) => Err(fault),
        }
    }

    /// The filter of these bytes.
    #[tactic(auto, unfolding(crate::specs::Fields::fields_at))]
    pub(crate) fn filter(&mut self, filter: &Filter) -> Result<(), ReadFault>
        ensures { Gives (λ u. u) result self.new.left (fields_at (filter_fields filter.now) self.old.left) }
    {
        self.u32(filter.bits())?;
        check_field(&mut self.left, filter.as_slice())?;
        Ok(())
    }

    /// What is told of the file.
    #[tactic(auto, unfolding(crate::specs::Fields::fields_at))]
    pub(crate) fn info(&mut self, info: &TableInfo) -> Result<(), ReadFault>
        requires first { length info.now.first < 2 ^ 16 }
        requires last { length info.now.last < 2 ^ 16 }
        ensures { Gives (λ u. u) result self.new.left (fields_at (info_fields info.now) self.old.left) }
    {
        self.u64(info.number)?;
        self.u64(info.bytes)?;
        self.bytes16(info.first.as_slice())?;
        self.bytes16(info.last.as_slice())?;
        self.i64(info.least)?;
        self.i64(info.greatest)?;
        self.maybe_i64(info.dead)?;
        self.u8(info.level)?;
        self.u32(info.keys)?;
        Ok(())
    }
}
