//! Rows as keys of an ordered map.

ghost use Rattle.std.specs.Prelude.{◌≡◌, true, Some, refl};
ghost use Rattle.std.specs.Ordering.{eq_by_cmp};
ghost use Rattle.std.specs.Cmp.{eq_by_cmp_equiv, partial_equiv_from_equiv, partial_order_from_agreeing_total};
ghost use Rattle.cas_partition.specs.Spots.{row_cmp};
ghost use Rattle.cas_partition.specs.Inner.Fronts.{front_of, row_total, HaveSameValues};

use crate::front::{Front, front_of};
use cas_bounds::{End, MapKey};
use std::cmp::Ordering;
use std::marker::Model;

/// A row or the static row, and its number before it, which decides most comparisons. Contracts see
/// the row.
#[derive(Drop)]
pub struct RowKey {
    front: Front,
    row: Option<MapKey>,
}

impl Model for RowKey {
    ghost use Rattle.std.specs.Prelude.{◌≡◌, Option};
    ghost use Rattle.cas_bounds.specs.declared.map_key.MapKey.{MapKey};
    ghost use Rattle.cas_partition.specs.Inner.Fronts.{front_of};

    ghost Value = { Option MapKey };

    ghost view = { λ k. k.row };

    ghost invariant = { λ k. k.front ≡ front_of k.row };
}

// Whether both are rows with the same values.
#[inline]
fn have_same_values(a: &Option<MapKey>, b: &Option<MapKey>) -> bool
    ensures { result ≡ true → HaveSameValues a.now b.now }
{
    match (a, b) {
        (Some(k), Some(q)) => match (k.end, q.end) {
            (End::Row, End::Row) => k.values.as_slice() == q.values.as_slice(),
            _ => false,
        },
        _ => false,
    }
}

impl RowKey {
    /// The key of a row.
    pub(crate) fn of(row: Option<MapKey>) -> Self
        ensures { result ≡ row }
    {
        RowKey {
            front: front_of(&row),
            row,
        }
    }

    /// The row of a key.
    pub(crate) fn row(&self) -> &Option<MapKey>
        ensures { result.now ≡ self.now }
    {
        &self.row
    }

    /// The number of the row.
    #[inline]
    pub(crate) fn front(&self) -> Front
        ensures { result ≡ front_of self.now }
    {
        self.front
    }
}

// The order of two rows whose numbers don't tell them apart. It stands apart, so that comparisons
// that numbers decide are short.
#[inline(never)]
fn compare_tied(a: &RowKey, b: &RowKey) -> Ordering
    ensures { result ≡ row_cmp a.now b.now }
{
    if a.front.kind == b.front.kind && a.front.kind != 0 && have_same_values(&a.row, &b.row) {
        Ordering::Equal
    } else {
        a.row.cmp(&b.row)
    }
}

impl PartialEq for RowKey {
    ghost eq = { eq_by_cmp row_cmp };

    ghost laws = { partial_equiv_from_equiv (eq_by_cmp_equiv row_total) };

    fn eq(&self, other: &RowKey) -> bool {
        self.cmp(other).is_eq()
    }
}

impl Eq for RowKey {
    ghost laws = { eq_by_cmp_equiv row_total };
}

impl PartialOrd for RowKey {
    ghost partial_cmp = { λ a b. Some (row_cmp a b) };

    ghost laws = { partial_order_from_agreeing_total row_cmp row_total (λ a b. refl) (λ a b. refl) };

    fn partial_cmp(&self, other: &RowKey) -> Option<Ordering> {
        Some(self.cmp(other))
    }
}

impl Ord for RowKey {
    ghost cmp = { row_cmp };

    ghost total = { row_total };

    ghost matches_partial_cmp = { λ a b. refl };

    ghost matches_eq = { λ a b. refl };

    #[inline]
    fn cmp(&self, other: &RowKey) -> Ordering {
        if self.front.kind == other.front.kind && self.front.number != other.front.number {
            self.front.number.cmp(&other.front.number)
        } else {
            compare_tied(self, other)
        }
    }
}
