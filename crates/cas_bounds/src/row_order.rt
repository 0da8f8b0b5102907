//! How a table orders its rows: a list of its clustering columns, which takes no memory where they
//! are few.

ghost use Rattle.std.specs.Prelude.{◌≡◌, ◌≤◌, ◌++◌, ◌∷◌, [], length, IfSome};

use crate::order::Ordered;
use cas_types::TypeTag;
use std::alloc::AllocError;
use std::marker::Model;

/// So many columns stand in place: with their number they take no more room than a `Vec`.
const IN_PLACE: usize = 8;

/// What stands in the places that aren't used.
const UNUSED: Ordered = Ordered {
    tag: TypeTag::Ascii,
    descending: false,
};

/// A few clustering columns.
#[derive(Drop)]
pub(crate) struct Few {
    len: usize,
    columns: [Ordered; IN_PLACE],
}

impl Model for Few {
    ghost use Rattle.std.specs.Prelude.{List, ◌≤◌, take};
    ghost use Rattle.cas_bounds.specs.declared.order.Ordered.{Ordered};
    ghost use Rattle.cas_bounds.specs.declared.row_order.TheConstants.{IN_PLACE};

    ghost Value = { List Ordered };

    ghost view = { λ f. take f.len f.columns };

    ghost invariant = { λ f. f.len ≤ IN_PLACE };
}

impl Few {
    pub(crate) fn none() -> Self
        ensures { result ≡ [] }
    {
        Few {
            len: 0,
            columns: [UNUSED; IN_PLACE],
        }
    }

    /// These and one more, where there is a place.
    pub(crate) fn with(mut self, column: Ordered) -> Option<Self>
        ensures { IfSome result (λ f. f ≡ self ++ column ∷ []) }
    {
        if self.len >= IN_PLACE {
            return None;
        }
        self.columns[self.len] = column;
        self.len += 1;
        Some(self)
    }

    fn copied(&self) -> Self
        ensures { result ≡ self.now }
    {
        Few {
            len: self.len,
            columns: self.columns,
        }
    }

    #[inline]
    fn as_slice(&self) -> &[Ordered]
        ensures { result.now ≡ self.now }
    {
        &self.columns[..self.len]
    }
}

/// Where the columns stand.
#[derive(Drop)]
enum Kept {
    Here(Few),
    Apart(Vec<Ordered>),
}

/// How a table orders its rows, which contracts see as the list of its clustering columns.
pub struct RowOrder {
    kept: Kept,
}

// Written out, since a derived one is proved again in each crate and wherever a value is dropped.
impl Drop for RowOrder {
    #[inline]
    fn drop(self) {
        let RowOrder { kept: _kept } = self;
    }
}

impl Model for RowOrder {
    ghost use Rattle.std.specs.Prelude.{List};
    ghost use Rattle.cas_bounds.specs.declared.order.Ordered.{Ordered};
    ghost use Rattle.cas_bounds.specs.Inner.KeptOrder.{kept_columns};

    ghost Value = { List Ordered };

    ghost view = { λ o. kept_columns o.kept };
}

impl RowOrder {
    pub fn from_vec(columns: Vec<Ordered>) -> Self
        ensures { result ≡ columns.items }
    {
        RowOrder {
            kept: Kept::Apart(columns),
        }
    }

    pub(crate) fn of_few(columns: Few) -> Self
        ensures { result ≡ columns }
    {
        RowOrder {
            kept: Kept::Here(columns),
        }
    }

    #[inline]
    pub fn as_slice(&self) -> &[Ordered]
        ensures { result.now ≡ self.now }
    {
        match &self.kept {
            Kept::Here(few) => few.as_slice(),
            Kept::Apart(columns) => columns.as_slice(),
        }
    }

    pub fn len(&self) -> usize
        ensures { result ≡ length self.now }
    {
        self.as_slice().len()
    }
}

impl Clone for RowOrder {
    ghost is_clone = { λ o p. p ≡ o };

    fn clone(&self) -> Result<Self, AllocError> {
        match &self.kept {
            Kept::Here(few) => Ok(RowOrder {
                kept: Kept::Here(few.copied()),
            }),
            Kept::Apart(columns) => Ok(RowOrder {
                kept: Kept::Apart(columns.clone()?),
            }),
        }
    }
}
