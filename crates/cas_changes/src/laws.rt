//! What was written is read back, whatever follows it.

ghost use Rattle.std.specs.Prelude.{◌<◌, ◌^◌, length};
ghost use Rattle.cas_codec.specs.Exact.{IsExact};
ghost use Rattle.cas_changes.specs.declared.entry.Entry.{Entry};
ghost use Rattle.cas_changes.specs.Saying.{Saying, IsSaid};
ghost use Rattle.cas_changes.specs.Allowed.{FitsEntry, FitsNext, HasSpelling};
ghost use Rattle.cas_changes.specs.Spelling.{entry_bytes};
ghost use Rattle.cas_changes.specs.Reading.{entry_at};

/// By what is said so far, the entries that may follow are read where their spelling stands and
/// nowhere else, whatever follows it; and each has room in its fields and in a block.
pub fn entries_are_exact()
    ensures exact { (s : Saying) → IsSaid s → IsExact (FitsNext s) entry_bytes (entry_at s) }
    ensures spelled { (s : Saying) (e : Entry) → FitsEntry s e → HasSpelling e }
    ensures short { (s : Saying) (e : Entry) → FitsNext s e → length (entry_bytes e) < 2 ^ 32 }
{}
