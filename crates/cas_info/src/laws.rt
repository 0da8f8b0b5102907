//! What was written is read back, and two files overlap where a key may be in both.

ghost use Rattle.std.specs.Prelude.{◌≡◌, true, ℕ, List};
ghost use Rattle.cas_codec.specs.Exact.{IsExact};
ghost use Rattle.cas_info.specs.declared.info.TableInfo.{TableInfo};
ghost use Rattle.cas_info.specs.Spelling.{info_bytes};
ghost use Rattle.cas_info.specs.Reading.{info_at};
ghost use Rattle.cas_info.specs.Allowed.{FitsInfo};
ghost use Rattle.cas_info.specs.Overlaps.{reaches, overlaps, MayHold};

/// What is told of table files is read where its spelling stands and nowhere else, whatever follows
/// it.
pub fn infos_are_exact()
    ensures { IsExact FitsInfo info_bytes info_at }
{}

/// Two files that overlap may both hold some key, and files that may both hold a key overlap.
pub fn overlap_is_a_key()
    ensures shared { (a b : TableInfo) → reaches a.first a.last ≡ true → reaches b.first b.last ≡ true → overlaps a b ≡ true
        → (key : List ℕ) × MayHold a key × MayHold b key }
    ensures found { (a b : TableInfo) (key : List ℕ) → MayHold a key → MayHold b key → overlaps a b ≡ true }
{}
