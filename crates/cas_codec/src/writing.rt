//! Writes fields after what a vector holds.

ghost use Rattle.std.specs.Prelude.{◌≡◌, ◌+◌, ◌^◌, ◌<◌, ◌≤◌, ◌++◌, length, OnOk, OnErr, is_some, if◌then◌else◌, vec_len};
ghost use Rattle.std.specs.Vec.{vec_capacity};
ghost use Rattle.cas_codec.specs.Fields.{u8, u16, u32, u64, i64, bytes16, bytes32, flag, maybe};

use cas_types::Mem;

/// Adds a byte.
#[tactic(auto, unfolding(crate::specs::Fields::u8))]
pub fn put_u8(out: &mut Vec<u8>, number: u8) -> Result<(), Mem>
    ensures written { OnOk result (out.new.items ≡ out.old.items ++ u8 number) }
    ensures length { OnOk result (vec_len out.new ≡ vec_len out.old + 1) }
    ensures unchanged { OnErr result (out.new.items ≡ out.old.items) }
    ensures full { OnErr result (vec_capacity out.old < vec_len out.old + 1) }
    ensures capacity { vec_capacity out.old ≤ vec_capacity out.new }
{
    out.push(number)?;
    Ok(())
}

/// Adds a number of two bytes.
#[tactic(auto, unfolding(crate::specs::Fields::u16))]
pub fn put_u16(out: &mut Vec<u8>, number: u16) -> Result<(), Mem>
    ensures written { OnOk result (out.new.items ≡ out.old.items ++ u16 number) }
    ensures length { OnOk result (vec_len out.new ≡ vec_len out.old + 2) }
    ensures unchanged { OnErr result (out.new.items ≡ out.old.items) }
    ensures full { OnErr result (vec_capacity out.old < vec_len out.old + 2) }
    ensures capacity { vec_capacity out.old ≤ vec_capacity out.new }
{
    out.extend_from_slice(&number.to_be_bytes())?;
    Ok(())
}

/// Adds a number of four bytes.
#[tactic(auto, unfolding(crate::specs::Fields::u32))]
pub fn put_u32(out: &mut Vec<u8>, number: u32) -> Result<(), Mem>
    ensures written { OnOk result (out.new.items ≡ out.old.items ++ u32 number) }
    ensures length { OnOk result (vec_len out.new ≡ vec_len out.old + 4) }
    ensures unchanged { OnErr result (out.new.items ≡ out.old.items) }
    ensures full { OnErr result (vec_capacity out.old < vec_len out.old + 4) }
    ensures capacity { vec_capacity out.old ≤ vec_capacity out.new }
{
    out.extend_from_slice(&number.to_be_bytes())?;
    Ok(())
}

/// Adds a number of eight bytes.
#[tactic(auto, unfolding(crate::specs::Fields::u64))]
pub fn put_u64(out: &mut Vec<u8>, number: u64) -> Result<(), Mem>
    ensures written { OnOk result (out.new.items ≡ out.old.items ++ u64 number) }
    ensures length { OnOk result (vec_len out.new ≡ vec_len out.old + 8) }
    ensures unchanged { OnErr result (out.new.items ≡ out.old.items) }
    ensures full { OnErr result (vec_capacity out.old < vec_len out.old + 8) }
    ensures capacity { vec_capacity out.old ≤ vec_capacity out.new }
{
    out.extend_from_slice(&number.to_be_bytes())?;
    Ok(())
}

/// Adds a signed number of eight bytes.
#[tactic(auto, unfolding(crate::specs::Fields::i64, crate::specs::Fields::u64))]
pub fn put_i64(out: &mut Vec<u8>, number: i64) -> Result<(), Mem>
    ensures written { OnOk result (out.new.items ≡ out.old.items ++ i64 number) }
    ensures length { OnOk result (vec_len out.new ≡ vec_len out.old + 8) }
    ensures unchanged { OnErr result (out.new.items ≡ out.old.items) }
    ensures full { OnErr result (vec_capacity out.old < vec_len out.old + 8) }
    ensures capacity { vec_capacity out.old ≤ vec_capacity out.new }
{
    out.extend_from_slice(&number.to_be_bytes())?;
    Ok(())
}

/// Adds 0 for no, 1 for yes.
pub fn put_flag(out: &mut Vec<u8>, there: bool) -> Result<(), Mem>
    ensures written { OnOk result (out.new.items ≡ out.old.items ++ flag there) }
    ensures length { OnOk result (vec_len out.new ≡ vec_len out.old + 1) }
    ensures unchanged { OnErr result (out.new.items ≡ out.old.items) }
    ensures full { OnErr result (vec_capacity out.old < vec_len out.old + 1) }
    ensures capacity { vec_capacity out.old ≤ vec_capacity out.new }
{
    match there {
        false => put_u8(out, 0),
        true => put_u8(out, 1),
    }
}

/// Adds at most 65,535 bytes, after their number.
#[tactic(auto, unfolding(crate::specs::Fields::bytes16))]
pub fn put_bytes16(out: &mut Vec<u8>, bytes: &[u8]) -> Result<(), Mem>
    requires { length bytes.now < 2 ^ 16 }
    ensures written { OnOk result (out.new.items ≡ out.old.items ++ bytes16 bytes.now) }
    ensures length { OnOk result (vec_len out.new ≡ vec_len out.old + (2 + length bytes.now)) }
    ensures unchanged { OnErr result (out.new.items ≡ out.old.items) }
    ensures full { OnErr result (vec_capacity out.old < vec_len out.old + (2 + length bytes.now)) }
    ensures capacity { vec_capacity out.old ≤ vec_capacity out.new }
{
    out.reserve(2 + bytes.len())?;
    put_u16(out, bytes.len() as u16)?;
    out.extend_from_slice(bytes)?;
    Ok(())
}

/// Adds fewer than 2^32 bytes, after their number.
#[tactic(auto, unfolding(crate::specs::Fields::bytes32))]
pub fn put_bytes32(out: &mut Vec<u8>, bytes: &[u8]) -> Result<(), Mem>
    requires { length bytes.now < 2 ^ 32 }
    ensures written { OnOk result (out.new.items ≡ out.old.items ++ bytes32 bytes.now) }
    ensures length { OnOk result (vec_len out.new ≡ vec_len out.old + (4 + length bytes.now)) }
    ensures unchanged { OnErr result (out.new.items ≡ out.old.items) }
    ensures full { OnErr result (vec_capacity out.old < vec_len out.old + (4 + length bytes.now)) }
    ensures capacity { vec_capacity out.old ≤ vec_capacity out.new }
{
    out.reserve(4 + bytes.len())?;
    put_u32(out, bytes.len() as u32)?;
    out.extend_from_slice(bytes)?;
    Ok(())
}

/// Adds a signed number that may be there.
pub fn put_maybe_i64(out: &mut Vec<u8>, number: Option<i64>) -> Result<(), Mem>
    ensures written { OnOk result (out.new.items ≡ out.old.items ++ maybe i64 number) }
    ensures length { OnOk result (vec_len out.new ≡ vec_len out.old + (if is_some number then 9 else 1)) }
    ensures unchanged { OnErr result (out.new.items ≡ out.old.items) }
    ensures full { OnErr result (vec_capacity out.old < vec_len out.old + (if is_some number then 9 else 1)) }
    ensures capacity { vec_capacity out.old ≤ vec_capacity out.new }
{
    let Some(number) = number else {
        return put_flag(out, false);
    };
    out.reserve(9)?;
    put_flag(out, true)?;
    put_i64(out, number)
}
