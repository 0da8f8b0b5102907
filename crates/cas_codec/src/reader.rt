//! Reads fields from bytes.

ghost use Rattle.std.specs.Prelude.{◌≡◌, ◌+◌, ◌^◌, ◌<◌, ◌≤◌, ◌≤ℤ◌, ◌==◌, length, OnOk, OnErr, IfOk, IfSome, FitsSigned};
ghost use Rattle.std.specs.Int.{w64, is_in_range};
ghost use Rattle.cas_codec.specs.Fields.{u8, u16, u32, u64, i64, bytes16, bytes32, flag, maybe};
ghost use Rattle.cas_codec.specs.Reading.{Gives, bytes_at, u8_at, u16_at, u32_at, u64_at, i64_at, checked, is_within};
ghost use Rattle.cas_codec.specs.Reading.{flag_at, maybe_at, bytes16_at, bytes32_at};
ghost use Rattle.cas_codec.specs.Exact.{AreBytes, Begins, Reads};
ghost use Rattle.cas_codec.specs.Inner.Answers.{Answers};

use crate::fault::ReadFault;
use cas_types::Bytes;
use std::alloc::Global;
use std::marker::Model;

/// Reads fields from bytes, and knows its place in the file. Contracts see the bytes that are left
/// and the place of the first of them. Where a field isn't read, the reader stands where it stood.
#[derive(Drop)]
pub struct Reader<'a> {
    left: &'a [u8],
    at: u64,
}

impl<'a> Model for Reader<'a> {
    ghost use Rattle.std.specs.Prelude.{◌+◌, ◌<◌, ◌^◌, length};
    ghost use Rattle.cas_codec.specs.Reading.{Left};

    ghost Value = { Left };

    ghost view = { λ r. record { bytes = r.left.now; at = r.at } };

    ghost invariant = { λ r. r.at + length r.left.now < 2 ^ 64 };
}

// That bytes are below 256, which the readers' answers rest on.
fn know_bytes(bytes: &[u8])
    ensures { AreBytes bytes.now }
{
    let _bytes = bytes;
}

// What the readers of fields are made of.
impl<'a> Reader<'a> {
    // The same of the bytes that are left.
    fn know_left(&self)
        ensures { AreBytes self.now.bytes }
    {
        know_bytes(self.left);
    }

    // A reader that stands where this one does, to read on while this one stays.
    fn ahead(&self) -> Reader<'a>
        ensures { result ≡ self.now }
    {
        Reader {
            left: self.left,
            at: self.at,
        }
    }

    // The next bytes, of a field that begins at this place.
    #[tactic(auto, unfolding(crate::specs::Reading::bytes_at))]
    fn take_of(&mut self, length: usize, at: u64) -> Result<&'a [u8], ReadFault>
        ensures answer { Answers (λ b. b.now) result self.new (bytes_at at length self.old) }
        ensures unchanged { OnErr result (self.new ≡ self.old) }
    {
        if self.left.len() < length {
            return Err(ReadFault::Short { at });
        }
        let (front, rest) = self.left.split_at(length);
        self.left = rest;
        self.at += length as u64;
        Ok(front)
    }

    fn take(&mut self, length: usize) -> Result<&'a [u8], ReadFault>
        ensures answer { Answers (λ b. b.now) result self.new (bytes_at self.old.at length self.old) }
        ensures unchanged { OnErr result (self.new ≡ self.old) }
    {
        let at = self.at;
        self.take_of(length, at)
    }

    #[tactic(auto, unfolding(crate::specs::Reading::u8_at, crate::specs::Reading::unsigned_at, crate::specs::Reading::bytes_at))]
    fn take_u8(&mut self) -> Result<u8, ReadFault>
        ensures answer { Answers (λ n. n) result self.new (u8_at self.old) }
        ensures unchanged { OnErr result (self.new ≡ self.old) }
    {
        let Some((front, rest)) = self.left.split_first() else {
            return Err(ReadFault::Short { at: self.at });
        };
        self.left = rest;
        self.at += 1;
        Ok(*front)
    }

    #[tactic(auto, unfolding(crate::specs::Reading::u16_at, crate::specs::Reading::unsigned_at, crate::specs::Reading::bytes_at))]
    fn take_u16(&mut self) -> Result<u16, ReadFault>
        ensures answer { Answers (λ n. n) result self.new (u16_at self.old) }
        ensures unchanged { OnErr result (self.new ≡ self.old) }
    {
        let Some((front, rest)) = self.left.split_first_chunk::<2>() else {
            return Err(ReadFault::Short { at: self.at });
        };
        self.left = rest;
        self.at += 2;
        Ok(u16::from_be_bytes(*front))
    }

    #[tactic(auto, unfolding(crate::specs::Reading::u32_at, crate::specs::Reading::unsigned_at, crate::specs::Reading::bytes_at))]
    fn take_u32(&mut self) -> Result<u32, ReadFault>
        ensures answer { Answers (λ n. n) result self.new (u32_at self.old) }
        ensures at { OnOk result (self.new.at ≡ self.old.at + 4) }
        ensures unchanged { OnErr result (self.new ≡ self.old) }
    {
        let Some((front, rest)) = self.left.split_first_chunk::<4>() else {
            return Err(ReadFault::Short { at: self.at });
        };
        self.left = rest;
        self.at += 4;
        Ok(u32::from_be_bytes(*front))
    }

    #[tactic(auto, unfolding(crate::specs::Reading::u64_at, crate::specs::Reading::unsigned_at, crate::specs::Reading::bytes_at))]
    fn take_u64(&mut self) -> Result<u64, ReadFault>
        ensures answer { Answers (λ n. n) result self.new (u64_at self.old) }
        ensures unchanged { OnErr result (self.new ≡ self.old) }
    {
        let Some((front, rest)) = self.left.split_first_chunk::<8>() else {
            return Err(ReadFault::Short { at: self.at });
        };
        self.left = rest;
        self.at += 8;
        Ok(u64::from_be_bytes(*front))
    }

    #[tactic(auto, unfolding(crate::specs::Reading::i64_at))]
    fn take_i64(&mut self) -> Result<i64, ReadFault>
        ensures answer { Answers (λ n. n) result self.new (i64_at self.old) }
        ensures unchanged { OnErr result (self.new ≡ self.old) }
    {
        let number = self.take_u64()?;
        Ok(number.cast_signed())
    }

    #[tactic(auto, unfolding(crate::specs::Reading::flag_at, crate::specs::Reading::checked))]
    fn take_flag(&mut self) -> Result<bool, ReadFault>
        ensures answer { Answers (λ there. there) result self.new (flag_at self.old) }
        ensures unchanged { OnErr result (self.new ≡ self.old) }
    {
        let mut ahead = self.ahead();
        let byte = ahead.take_u8()?;
        if byte < 2 {
            *self = ahead;
            return Ok(byte == 1);
        }
        Err(ReadFault::Bad { at: self.at })
    }

    #[tactic(auto, unfolding(crate::specs::Reading::bytes16_at, crate::specs::Reading::bytes_at))]
    fn take_bytes16(&mut self) -> Result<&'a [u8], ReadFault>
        ensures answer { Answers (λ b. b.now) result self.new (bytes16_at self.old) }
        ensures unchanged { OnErr result (self.new ≡ self.old) }
    {
        let mut ahead = self.ahead();
        let count = ahead.take_u16()? as usize;
        let bytes = ahead.take_of(count, self.at)?;
        *self = ahead;
        Ok(bytes)
    }

    #[tactic(auto, unfolding(crate::specs::Reading::bytes32_at, crate::specs::Reading::bytes_at))]
    fn take_bytes32(&mut self) -> Result<&'a [u8], ReadFault>
        ensures answer { Answers (λ b. b.now) result self.new (bytes32_at self.old) }
        ensures unchanged { OnErr result (self.new ≡ self.old) }
    {
        let mut ahead = self.ahead();
        let count = ahead.take_u32()? as usize;
        let bytes = ahead.take_of(count, self.at)?;
        *self = ahead;
        Ok(bytes)
    }

    #[tactic(auto, unfolding(crate::specs::Reading::maybe_at))]
    fn take_maybe_i64(&mut self) -> Result<Option<i64>, ReadFault>
        ensures answer { Answers (λ number. number) result self.new (maybe_at i64_at self.old) }
        ensures unchanged { OnErr result (self.new ≡ self.old) }
    {
        let mut ahead = self.ahead();
        let number = match ahead.take_flag()? {
            true => Some(ahead.take_i64()?),
            false => None,
        };
        *self = ahead;
        Ok(number)
    }
}

impl<'a> Reader<'a> {
    /// A reader of bytes whose first stands at a place of the file.
    pub fn new(bytes: &'a [u8], at: u64) -> Self
        requires { at + length bytes.now < 2 ^ 64 }
        ensures bytes { result.bytes ≡ bytes.now }
        ensures at { result.at ≡ at }
        ensures are_bytes { AreBytes bytes.now }
    {
        know_bytes(bytes);
        Reader { left: bytes, at }
    }

    /// The place of the next byte, counted from the file's start.
    pub fn at(&self) -> u64
        ensures { result ≡ self.now.at }
    {
        self.at
    }

    /// The bytes that are left.
    pub fn left(&self) -> &'a [u8]
        ensures left { result.now ≡ self.now.bytes }
        ensures are_bytes { AreBytes self.now.bytes }
    {
        self.know_left();
        self.left
    }

    /// Whether no bytes are left.
    pub fn is_empty(&self) -> bool
        ensures { result ≡ (length self.now.bytes == 0) }
    {
        self.left.is_empty()
    }

    /// The next bytes, so many.
    pub fn bytes(&mut self, count: usize) -> Result<&'a [u8], ReadFault>
        ensures field { Reads (λ b. b.now) (λ b. length b ≡ count) (λ b. b) result self.old self.new }
        ensures exact { Gives (λ b. b.now) result self.new (bytes_at self.old.at count self.old) }
    {
        self.know_left();
        self.take(count)
    }

    /// A reader of the next bytes, so many; this one goes on after them.
    #[tactic(auto, unfolding(crate::specs::Reading::bytes_at))]
    pub fn part(&mut self, count: usize) -> Result<Reader<'a>, ReadFault>
        ensures exact { Gives (λ part. part.bytes) result self.new (bytes_at self.old.at count self.old) }
        ensures at { IfOk result (λ part. part.at ≡ self.old.at) }
        ensures unchanged { OnErr result (self.new ≡ self.old) }
    {
        let at = self.at;
        let left = self.take(count)?;
        Ok(Reader { left, at })
    }

    /// A reader of the bytes that follow their number of four bytes; this one goes on after them.
    #[tactic(auto, unfolding(crate::specs::Reading::bytes32_at, crate::specs::Reading::bytes_at))]
    pub fn part32(&mut self) -> Result<Reader<'a>, ReadFault>
        ensures exact { Gives (λ part. part.bytes) result self.new (bytes32_at self.old) }
        ensures at { IfOk result (λ part. part.at ≡ self.old.at + 4) }
        ensures unchanged { OnErr result (self.new ≡ self.old) }
    {
        let mut ahead = self.ahead();
        let count = ahead.take_u32()? as usize;
        let at = ahead.at;
        let left = ahead.take_of(count, self.at)?;
        *self = ahead;
        Ok(Reader { left, at })
    }

    /// A byte.
    pub fn u8(&mut self) -> Result<u8, ReadFault>
        ensures field { Reads (λ n. n) (λ n. n < 2 ^ 8) u8 result self.old self.new }
        ensures exact { Gives (λ n. n) result self.new (u8_at self.old) }
    {
        self.know_left();
        self.take_u8()
    }

    /// A number of two bytes.
    pub fn u16(&mut self) -> Result<u16, ReadFault>
        ensures field { Reads (λ n. n) (λ n. n < 2 ^ 16) u16 result self.old self.new }
        ensures exact { Gives (λ n. n) result self.new (u16_at self.old) }
    {
        self.know_left();
        self.take_u16()
    }

    /// A number of four bytes.
    pub fn u32(&mut self) -> Result<u32, ReadFault>
        ensures field { Reads (λ n. n) (λ n. n < 2 ^ 32) u32 result self.old self.new }
        ensures exact { Gives (λ n. n) result self.new (u32_at self.old) }
    {
        self.know_left();
        self.take_u32()
    }

    /// A number of eight bytes.
    pub fn u64(&mut self) -> Result<u64, ReadFault>
        ensures field { Reads (λ n. n) (λ n. n < 2 ^ 64) u64 result self.old self.new }
        ensures exact { Gives (λ n. n) result self.new (u64_at self.old) }
    {
        self.know_left();
        self.take_u64()
    }

    /// A signed number of eight bytes.
    pub fn i64(&mut self) -> Result<i64, ReadFault>
        ensures field { Reads (λ n. n) (FitsSigned w64) i64 result self.old self.new }
        ensures exact { Gives (λ n. n) result self.new (i64_at self.old) }
    {
        self.know_left();
        self.take_i64()
    }

    /// A byte that is 0 or 1.
    pub fn flag(&mut self) -> Result<bool, ReadFault>
        ensures field { Reads (λ there. there) (λ there. Unit {0}) flag result self.old self.new }
        ensures exact { Gives (λ there. there) result self.new (flag_at self.old) }
    {
        self.know_left();
        self.take_flag()
    }

    /// At most 65,535 bytes, after their number.
    pub fn bytes16(&mut self) -> Result<&'a [u8], ReadFault>
        ensures field { Reads (λ b. b.now) (λ b. length b < 2 ^ 16) bytes16 result self.old self.new }
        ensures exact { Gives (λ b. b.now) result self.new (bytes16_at self.old) }
    {
        self.know_left();
        self.take_bytes16()
    }

    /// Fewer than 2^32 bytes, after their number.
    pub fn bytes32(&mut self) -> Result<&'a [u8], ReadFault>
        ensures field { Reads (λ b. b.now) (λ b. length b < 2 ^ 32) bytes32 result self.old self.new }
        ensures exact { Gives (λ b. b.now) result self.new (bytes32_at self.old) }
    {
        self.know_left();
        self.take_bytes32()
    }

    /// A signed number that may be there.
    pub fn maybe_i64(&mut self) -> Result<Option<i64>, ReadFault>
        ensures found { IfOk result (λ number. Begins (maybe i64 number) self.old self.new) }
        ensures exact { Gives (λ number. number) result self.new (maybe_at i64_at self.old) }
        ensures unchanged { OnErr result (self.new ≡ self.old) }
    {
        self.know_left();
        self.take_maybe_i64()
    }

    /// A byte, from least to greatest.
    #[tactic(auto, unfolding(crate::specs::Reading::checked))]
    pub fn u8_within(&mut self, least: u8, greatest: u8) -> Result<u8, ReadFault>
        ensures exact { Gives (λ n. n) result self.new (checked (is_in_range least greatest) u8_at self.old) }
        ensures within { IfOk result (λ n. (least ≤ n) × (n ≤ greatest)) }
        ensures found { IfOk result (λ n. Begins (u8 n) self.old self.new) }
        ensures unchanged { OnErr result (self.new ≡ self.old) }
    {
        let mut ahead = self.ahead();
        let number = ahead.u8()?;
        if least <= number && number <= greatest {
            *self = ahead;
            return Ok(number);
        }
        Err(ReadFault::Bad { at: self.at })
    }

    /// A number of two bytes, from least to greatest.
    #[tactic(auto, unfolding(crate::specs::Reading::checked))]
    pub fn u16_within(&mut self, least: u16, greatest: u16) -> Result<u16, ReadFault>
        ensures exact { Gives (λ n. n) result self.new (checked (is_in_range least greatest) u16_at self.old) }
        ensures within { IfOk result (λ n. (least ≤ n) × (n ≤ greatest)) }
        ensures found { IfOk result (λ n. Begins (u16 n) self.old self.new) }
        ensures unchanged { OnErr result (self.new ≡ self.old) }
    {
        let mut ahead = self.ahead();
        let number = ahead.u16()?;
        if least <= number && number <= greatest {
            *self = ahead;
            return Ok(number);
        }
        Err(ReadFault::Bad { at: self.at })
    }

    /// A number of four bytes, from least to greatest.
    #[tactic(auto, unfolding(crate::specs::Reading::checked))]
    pub fn u32_within(&mut self, least: u32, greatest: u32) -> Result<u32, ReadFault>
        ensures exact { Gives (λ n. n) result self.new (checked (is_in_range least greatest) u32_at self.old) }
        ensures within { IfOk result (λ n. (least ≤ n) × (n ≤ greatest)) }
        ensures found { IfOk result (λ n. Begins (u32 n) self.old self.new) }
        ensures unchanged { OnErr result (self.new ≡ self.old) }
    {
        let mut ahead = self.ahead();
        let number = ahead.u32()?;
        if least <= number && number <= greatest {
            *self = ahead;
            return Ok(number);
        }
        Err(ReadFault::Bad { at: self.at })
    }

    /// A number of eight bytes, from least to greatest.
    #[tactic(auto, unfolding(crate::specs::Reading::checked))]
    pub fn u64_within(&mut self, least: u64, greatest: u64) -> Result<u64, ReadFault>
        ensures exact { Gives (λ n. n) result self.new (checked (is_in_range least greatest) u64_at self.old) }
        ensures within { IfOk result (λ n. (least ≤ n) × (n ≤ greatest)) }
        ensures found { IfOk result (λ n. Begins (u64 n) self.old self.new) }
        ensures unchanged { OnErr result (self.new ≡ self.old) }
    {
        let mut ahead = self.ahead();
        let number = ahead.u64()?;
        if least <= number && number <= greatest {
            *self = ahead;
            return Ok(number);
        }
        Err(ReadFault::Bad { at: self.at })
    }

    /// A signed number of eight bytes, from least to greatest.
    #[tactic(auto, unfolding(crate::specs::Reading::checked))]
    pub fn i64_within(&mut self, least: i64, greatest: i64) -> Result<i64, ReadFault>
        ensures exact { Gives (λ n. n) result self.new (checked (is_within least greatest) i64_at self.old) }
        ensures within { IfOk result (λ n. (least ≤ℤ n) × (n ≤ℤ greatest)) }
        ensures found { IfOk result (λ n. Begins (i64 n) self.old self.new) }
        ensures unchanged { OnErr result (self.new ≡ self.old) }
    {
        let mut ahead = self.ahead();
        let number = ahead.i64()?;
        if least <= number && number <= greatest {
            *self = ahead;
            return Ok(number);
        }
        Err(ReadFault::Bad { at: self.at })
    }

    /// A copy of what `bytes16` gives.
    pub fn copy16(&mut self, alloc: Global) -> Result<Bytes, ReadFault>
        ensures exact { Gives (λ b. b) result self.new (bytes16_at self.old) }
        ensures unchanged { OnErr result (self.new ≡ self.old) }
    {
        let mut ahead = self.ahead();
        let bytes = ahead.take_bytes16()?;
        let Ok(copy) = Bytes::copy_of(alloc, bytes) else {
            return Err(ReadFault::Mem);
        };
        *self = ahead;
        Ok(copy)
    }

    /// A copy of what `bytes32` gives.
    pub fn copy32(&mut self, alloc: Global) -> Result<Bytes, ReadFault>
        ensures exact { Gives (λ b. b) result self.new (bytes32_at self.old) }
        ensures unchanged { OnErr result (self.new ≡ self.old) }
    {
        let mut ahead = self.ahead();
        let bytes = ahead.take_bytes32()?;
        let Ok(copy) = Bytes::copy_of(alloc, bytes) else {
            return Err(ReadFault::Mem);
        };
        *self = ahead;
        Ok(copy)
    }
}
