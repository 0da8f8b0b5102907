//! What was written is read back, whatever follows it.

ghost use Rattle.std.specs.Prelude.{◌≡◌, List, [], ◌∷◌};
ghost use Rattle.cas_bounds.specs.declared.order.Ordered.{Ordered};
ghost use Rattle.cas_codec.specs.Exact.{IsExact};
ghost use Rattle.cas_index.specs.Spelling.{index_bytes, footer_bytes};
ghost use Rattle.cas_index.specs.Reading.{index_at, footer_at};
ghost use Rattle.cas_index.specs.Examples.{two_partitions, a_footer};
ghost use Rattle.cas_index.specs.Allowed.{FitsIndex, FitsFooter};

/// The index of each table is read where its spelling stands and nowhere else, whatever follows it.
pub fn indexes_are_exact()
    ensures { (order : List Ordered) → IsExact (FitsIndex order) index_bytes (index_at order) }
{}

/// And so is a footer.
pub fn footers_are_exact()
    ensures { IsExact FitsFooter footer_bytes footer_at }
{}

/// The definitions by hand: the index and the footer of FORMATS.md.
pub fn indexes_by_hand()
    ensures index { (order : List Ordered) → index_bytes (two_partitions order) ≡
        0 ∷ 0 ∷ 0 ∷ 2 ∷ 0 ∷ 1 ∷ 1 ∷ 0 ∷ 0 ∷ 0 ∷ 0 ∷ 0 ∷ 0 ∷ 0 ∷ 0x15 ∷ 0 ∷ 0 ∷ 0 ∷ 2 ∷ 0 ∷ 1 ∷ 0 ∷ 1 ∷ 1 ∷ 0 ∷ 0 ∷
        0 ∷ 0 ∷ 0 ∷ 0 ∷ 0 ∷ 0x1e ∷ 0 ∷ 0 ∷ 1 ∷ 0 ∷ 1 ∷ 5 ∷ 0 ∷ 0 ∷ 0 ∷ 0 ∷ 0 ∷ 0 ∷ 0 ∷ 0x50 ∷ 1 ∷ 0 ∷ 0 ∷ 0 ∷ 0 ∷ 0 ∷
        0 ∷ 0 ∷ 3 ∷ 0 ∷ 0 ∷ 0 ∷ 0 ∷ 0 ∷ 0 ∷ 0 ∷ 4 ∷ 0 ∷ 1 ∷ 2 ∷ 0 ∷ 0 ∷ 0 ∷ 0 ∷ 0 ∷ 0 ∷ 0 ∷ 0x82 ∷ 0 ∷ 0 ∷ 0 ∷ 0 ∷ [] }
    ensures footer { footer_bytes a_footer ≡
        0 ∷ 0 ∷ 0 ∷ 0 ∷ 0 ∷ 0 ∷ 0 ∷ 0xb5 ∷ 0 ∷ 0 ∷ 0 ∷ 0 ∷ 0 ∷ 0 ∷ 1 ∷ 3 ∷
        0 ∷ 0 ∷ 0 ∷ 0 ∷ 0 ∷ 0 ∷ 1 ∷ 0x0f ∷ 0x43 ∷ 0x41 ∷ 0x53 ∷ 0x53 ∷ 0x45 ∷ 0x4e ∷ 0x44 ∷ 0x31 ∷ [] }
{}
