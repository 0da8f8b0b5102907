//! Cuts as keys of an ordered map.

ghost use Rattle.std.specs.Prelude.{◌≡◌, Some, refl};
ghost use Rattle.std.specs.Ordering.{eq_by_cmp};
ghost use Rattle.std.specs.Cmp.{eq_by_cmp_equiv, partial_equiv_from_equiv, partial_order_from_agreeing_total};
ghost use Rattle.cas_bounds.specs.Keys.{key_cmp};
ghost use Rattle.cas_bounds.specs.Inner.KeyLaws.{key_total};
ghost use Rattle.cas_partition.specs.Inner.Fronts.{front_at};
ghost use Rattle.cas_partition.specs.Inner.Slots.{cut_of};
ghost use Rattle.cas_partition.specs.Ranges.{key_of};

use crate::front::{Front, front_at};
use cas_bounds::{Cut, End, MapKey};
use std::cmp::Ordering;
use std::marker::Model;

/// A cut's key, and the number of its prefix before it, which decides most comparisons. Contracts see
/// the key.
#[derive(Drop)]
pub struct CutKey {
    front: Front,
    key: MapKey,
}

impl Model for CutKey {
    ghost use Rattle.std.specs.Prelude.{◌≡◌};
    ghost use Rattle.cas_bounds.specs.declared.map_key.MapKey.{MapKey};
    ghost use Rattle.cas_partition.specs.Inner.Fronts.{front_at};

    ghost Value = { MapKey };

    ghost view = { λ k. k.key };

    ghost invariant = { λ k. k.front ≡ front_at k.key.order k.key.values };
}

impl CutKey {
    /// The key of a cut.
    pub(crate) fn of(cut: Cut) -> Self
        ensures { result ≡ key_of cut }
    {
        let key = MapKey::of_cut(cut);
        CutKey {
            front: front_at(key.order.as_slice(), key.values.as_slice()),
            key,
        }
    }

    /// The key without its number.
    pub(crate) fn key(&self) -> &MapKey
        ensures { result.now ≡ self.now }
    {
        &self.key
    }

    /// The cut.
    pub(crate) fn into_cut(self) -> Cut
        ensures { result ≡ cut_of self }
    {
        let MapKey { values, end, order } = self.key;
        let after = match end {
            End::Before | End::Row => false,
            End::After => true,
        };
        Cut {
            prefix: values,
            after,
            order,
        }
    }

    /// The number of its prefix.
    #[inline]
    pub(crate) fn front(&self) -> Front
        ensures { result ≡ front_at self.now.order self.now.values }
    {
        self.front
    }
}

impl PartialEq for CutKey {
    ghost eq = { eq_by_cmp key_cmp };

    ghost laws = { partial_equiv_from_equiv (eq_by_cmp_equiv key_total) };

    fn eq(&self, other: &CutKey) -> bool {
        self.cmp(other).is_eq()
    }
}

impl Eq for CutKey {
    ghost laws = { eq_by_cmp_equiv key_total };
}

impl PartialOrd for CutKey {
    ghost partial_cmp = { λ a b. Some (key_cmp a b) };

    ghost laws = { partial_order_from_agreeing_total key_cmp key_total (λ a b. refl) (λ a b. refl) };

    fn partial_cmp(&self, other: &CutKey) -> Option<Ordering> {
        Some(self.cmp(other))
    }
}

impl Ord for CutKey {
    ghost cmp = { key_cmp };

    ghost total = { key_total };

    ghost matches_partial_cmp = { λ a b. refl };

    ghost matches_eq = { λ a b. refl };

    #[inline]
    fn cmp(&self, other: &CutKey) -> Ordering {
        if self.front.kind == other.front.kind && self.front.number != other.front.number {
            self.front.number.cmp(&other.front.number)
        } else {
            self.key.cmp(&other.key)
        }
    }
}
