//! What was written is read back, and what a filter says of keys.

ghost use Rattle.std.specs.Prelude.{◌≡◌, [], ◌∷◌};
ghost use Rattle.cas_codec.specs.Exact.{IsExact};
ghost use Rattle.cas_filter.specs.Hashing.{hash};
ghost use Rattle.cas_filter.specs.Filters.{bits_for, filter_of};
ghost use Rattle.cas_filter.specs.Spelling.{filter_bytes};
ghost use Rattle.cas_filter.specs.Reading.{filter_at};
ghost use Rattle.cas_filter.specs.Allowed.{FitsFilter};
ghost use Rattle.cas_filter.specs.Laws.{SetsWhatIsProbed, IsOnlyFilter, HoldsItsKeys, HasNoOrder};

/// A filter is read where its spelling stands and nowhere else, whatever follows it.
pub fn filters_are_exact()
    ensures { IsExact FitsFilter filter_bytes filter_at }
{}

/// In the filter of some keys just those bits are set that one of them probes; so it may hold each
/// of them, in whichever order they came.
pub fn filters_hold_their_keys()
    ensures bits { SetsWhatIsProbed }
    ensures only { IsOnlyFilter }
    ensures held { HoldsItsKeys }
    ensures order { HasNoOrder }
{}

/// The definitions by hand: the published vectors of FNV-1a for no bytes, `a` and `foobar`, and the
/// filter of the one key `a`, which probes the bits 12, 25, 38, 51, 0, 13 and 26.
pub fn filters_by_hand()
    ensures none { hash [] ≡ 0xcbf2_9ce4_8422_2325 }
    ensures a { hash (0x61 ∷ []) ≡ 0xaf63_dc4c_8601_ec8c }
    ensures foobar { hash (0x66 ∷ 0x6f ∷ 0x6f ∷ 0x62 ∷ 0x61 ∷ 0x72 ∷ []) ≡ 0x8594_4171_f739_67e8 }
    ensures filter { filter_of (bits_for 1) ((0x61 ∷ []) ∷ []) ≡ 0x01 ∷ 0x30 ∷ 0x00 ∷ 0x06 ∷ 0x40 ∷ 0x00 ∷ 0x08 ∷ 0x00 ∷ [] }
{}
