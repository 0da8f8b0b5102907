//! The values of a row's clustering columns, or of the first of them: a list, which takes no memory
//! of its own where there is only one.

ghost use Rattle.std.specs.Prelude.{◌≡◌, ◌∷◌, [], length};

use cas_types::Bytes;
use std::alloc::AllocError;
use std::marker::Model;
use std::slice;

/// Where the values stand: a sole one in place.
#[derive(Drop)]
enum Kept {
    Here(Bytes),
    Apart(Vec<Bytes>),
}

/// The values of a row's clustering columns, or of the first of them, which contracts see as their
/// list. A sole one stands in place, so that it takes no memory of its own, and neither do none.
pub struct Values {
    kept: Kept,
}

// Written out, since a derived one is proved again in each crate and wherever a value is dropped.
impl Drop for Values {
    #[inline]
    fn drop(self) {
        let Values { kept: _kept } = self;
    }
}

impl Model for Values {
    ghost use Rattle.std.specs.Prelude.{List, ℕ};
    ghost use Rattle.cas_bounds.specs.Inner.KeptValues.{kept_values};

    ghost Value = { List (List ℕ) };

    ghost view = { λ v. kept_values v.kept };
}

impl Values {
    /// One value.
    pub fn one(value: Bytes) -> Self
        ensures { result ≡ value ∷ [] }
    {
        Values {
            kept: Kept::Here(value),
        }
    }

    /// These values. A sole one is taken out of the `Vec`, whose memory is given back.
    pub fn from_vec(values: Vec<Bytes>) -> Self
        ensures { result ≡ values.items }
    {
        let mut values = values;
        if values.len() == 1 {
            if let Some(value) = values.pop() {
                return Values::one(value);
            }
        }
        Values {
            kept: Kept::Apart(values),
        }
    }

    #[inline]
    pub fn as_slice(&self) -> &[Bytes]
        ensures { result.now ≡ self.now }
    {
        match &self.kept {
            Kept::Here(value) => slice::from_ref(value),
            Kept::Apart(values) => values.as_slice(),
        }
    }

    pub fn len(&self) -> usize
        ensures { result ≡ length self.now }
    {
        self.as_slice().len()
    }
}

impl Clone for Values {
    ghost is_clone = { λ v w. w ≡ v };

    fn clone(&self) -> Result<Self, AllocError> {
        match &self.kept {
            Kept::Here(value) => Ok(Values {
                kept: Kept::Here(value.clone()?),
            }),
            Kept::Apart(values) => Ok(Values {
                kept: Kept::Apart(values.clone()?),
            }),
        }
    }
}
