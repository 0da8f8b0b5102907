//! What was written is read back, whatever follows it.

ghost use Rattle.std.specs.Prelude.{◌<◌, ◌^◌, length, IfSome, FitsSigned};
ghost use Rattle.std.specs.Int.{w64};
ghost use Rattle.cas_codec.specs.Fields.{u8, u16, u32, u64, i64, bytes16, bytes32, flag, maybe};
ghost use Rattle.cas_codec.specs.Reading.{u8_at, u16_at, u32_at, u64_at, i64_at, flag_at, maybe_at, bytes16_at, bytes32_at};
ghost use Rattle.cas_codec.specs.Exact.{IsField, IsExact};

/// Each field is read where its spelling stands and nowhere else, whatever follows it, and no
/// spelling of a field begins another one.
pub fn fields_are_exact()
    ensures u8 { IsField (λ n. n < 2 ^ 8) u8 u8_at }
    ensures u16 { IsField (λ n. n < 2 ^ 16) u16 u16_at }
    ensures u32 { IsField (λ n. n < 2 ^ 32) u32 u32_at }
    ensures u64 { IsField (λ n. n < 2 ^ 64) u64 u64_at }
    ensures i64 { IsField (FitsSigned w64) i64 i64_at }
    ensures flag { IsField (λ there. Unit {0}) flag flag_at }
    ensures bytes16 { IsField (λ b. length b < 2 ^ 16) bytes16 bytes16_at }
    ensures bytes32 { IsField (λ b. length b < 2 ^ 32) bytes32 bytes32_at }
    ensures maybe { IsExact (λ number. IfSome number (FitsSigned w64)) (maybe i64) (maybe_at i64_at) }
{}
