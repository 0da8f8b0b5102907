//! The footer of a table file, which tells where its parts stand.

ghost use Rattle.std.specs.Prelude.{◌≡◌, ◌+◌, ◌<◌, ◌≤◌, ◌++◌, OnOk, OnErr, vec_len};
ghost use Rattle.std.specs.Vec.{vec_capacity};
ghost use Rattle.cas_codec.specs.Reading.{Gives};
ghost use Rattle.cas_index.specs.declared.footer.TheConstants.{FOOTER_LENGTH};
ghost use Rattle.cas_index.specs.Spelling.{footer_bytes};
ghost use Rattle.cas_index.specs.Reading.{footer_at};

use cas_codec::{ReadFault, Reader, put_u64};
use cas_types::Mem;

/// The bytes of a footer, with which a table file ends.
pub const FOOTER_LENGTH: u64 = 32;

/// The word CASSEND1, by which a footer ends.
pub(crate) const END_WORD: u64 = 0x4341_5353_454e_4431;

/// Where the index, the filter and what is told of a table file stand in it.
#[derive(Clone, Copy)]
pub struct Footer {
    pub index: u64,
    pub filter: u64,
    pub info: u64,
}

/// Reads a footer.
#[tactic(auto, unfolding(crate::specs::Reading::footer_at))]
pub fn read_footer(reader: &mut Reader<'_>) -> Result<Footer, ReadFault>
    ensures { Gives (λ f. f) result reader.new (footer_at reader.old) }
{
    let index = reader.u64()?;
    let filter = reader.u64()?;
    let info = reader.u64()?;
    reader.u64_within(END_WORD, END_WORD)?;
    Ok(Footer {
        index,
        filter,
        info,
    })
}

/// Adds a footer.
pub fn put_footer(out: &mut Vec<u8>, footer: &Footer) -> Result<(), Mem>
    ensures written { OnOk result (out.new.items ≡ out.old.items ++ footer_bytes footer.now) }
    ensures length { OnOk result (vec_len out.new ≡ vec_len out.old + FOOTER_LENGTH) }
    ensures unchanged { OnErr result (out.new.items ≡ out.old.items) }
    ensures full { OnErr result (vec_capacity out.old < vec_len out.old + FOOTER_LENGTH) }
    ensures capacity { vec_capacity out.old ≤ vec_capacity out.new }
{
    out.reserve(FOOTER_LENGTH as usize)?;
    put_u64(out, footer.index)?;
    put_u64(out, footer.filter)?;
    put_u64(out, footer.info)?;
    put_u64(out, END_WORD)
}
