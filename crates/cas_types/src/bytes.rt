//! Byte strings, and their order.

ghost use Rattle.std.specs.Prelude.{◌≡◌, ◌==◌, IsTrue, ◌↔◌, length, IfOk, IfErr};
ghost use Rattle.cas_types.specs.Values.{bytes_cmp};

use crate::short::{IN_PLACE, Short};
use std::alloc::{AllocError, Global};
use std::cmp::Ordering;
use std::marker::Model;

/// How many bytes of a common front are passed over in one step.
const BLOCK: usize = 64;

/// The order of two byte strings, by unsigned bytes. A common front is passed over in blocks, so
/// that long equal fronts cost little more than a memory comparison.
pub fn compare_bytes(a: &[u8], b: &[u8]) -> Ordering
    ensures { result ≡ bytes_cmp a.now b.now }
{
    let mut x = a;
    let mut y = b;
    while x.len() >= BLOCK && y.len() >= BLOCK {
        let (x_front, x_rest) = x.split_at(BLOCK);
        let (y_front, y_rest) = y.split_at(BLOCK);
        if x_front != y_front {
            return x.cmp(&y);
        }
        x = x_rest;
        y = y_rest;
    }
    x.cmp(&y)
}

/// Where the bytes stand: short ones in place, so that they take no memory of their own.
#[derive(Drop)]
enum Kept {
    Here(Short),
    Apart(Vec<u8>),
}

/// A byte string, which contracts see as the list of its bytes.
pub struct Bytes {
    kept: Kept,
}

// Written out, since a derived one is proved again in each crate and wherever a value is dropped.
impl Drop for Bytes {
    #[inline]
    fn drop(self) {
        let Bytes { kept: _kept } = self;
    }
}

impl Model for Bytes {
    ghost use Rattle.std.specs.Prelude.{List, ℕ};
    ghost use Rattle.cas_types.specs.Inner.Kept.{kept_bytes};

    ghost Value = { List ℕ };

    ghost view = { λ b. kept_bytes b.kept };
}

impl Bytes {
    pub fn from_vec(bytes: Vec<u8>) -> Self
        ensures { result ≡ bytes.items }
    {
        if bytes.len() <= IN_PLACE {
            return Bytes {
                kept: Kept::Here(Short::of(&bytes)),
            };
        }
        Bytes {
            kept: Kept::Apart(bytes),
        }
    }

    #[inline]
    pub fn as_slice(&self) -> &[u8]
        ensures { result.now ≡ self.now }
    {
        match &self.kept {
            Kept::Here(short) => short.as_slice(),
            Kept::Apart(bytes) => bytes.as_slice(),
        }
    }

    /// A copy of the bytes.
    pub fn copy_of(alloc: Global, bytes: &[u8]) -> Result<Self, AllocError>
        ensures { IfOk result (λ b. b ≡ bytes.now) }
    {
        if bytes.len() <= IN_PLACE {
            return Ok(Bytes {
                kept: Kept::Here(Short::of(bytes)),
            });
        }
        Ok(Bytes {
            kept: Kept::Apart(bytes.to_vec(alloc)?),
        })
    }
}

impl Clone for Bytes {
    ghost is_clone = { λ b c. c ≡ b };

    fn clone(&self) -> Result<Self, AllocError> {
        match &self.kept {
            Kept::Here(short) => Ok(Bytes {
                kept: Kept::Here(short.copied()),
            }),
            Kept::Apart(bytes) => Ok(Bytes {
                kept: Kept::Apart(bytes.clone()?),
            }),
        }
    }
}

impl PartialEq for Bytes {
    ghost use Rattle.std.specs.Prelude.{nat_eq};
    ghost use Rattle.std.specs.Cmp.{partial_equiv_from_equiv};
    ghost use Rattle.std.specs.Cmp.Lexicographic.{pointwise, nat_list_eq_equiv};

    ghost eq = { pointwise nat_eq };

    ghost laws = { partial_equiv_from_equiv nat_list_eq_equiv };

    #[inline]
    fn eq(&self, other: &Self) -> bool {
        match (&self.kept, &other.kept) {
            (Kept::Here(x), Kept::Here(y)) => x.is_same(y),
            _ => self.as_slice() == other.as_slice(),
        }
    }
}

impl Eq for Bytes {
    ghost use Rattle.std.specs.Cmp.Lexicographic.{nat_list_eq_equiv};

    ghost laws = { nat_list_eq_equiv };
}

impl PartialOrd for Bytes {
    ghost use Rattle.std.specs.Prelude.{Some};
    ghost use Rattle.std.specs.Ordering.{nat_cmp};
    ghost use Rattle.std.specs.Cmp.Lexicographic.{slice_cmp, texts_po};

    ghost partial_cmp = { λ x y. Some (slice_cmp nat_cmp x y) };

    ghost laws = { texts_po };

    fn partial_cmp(&self, other: &Self) -> Option<Ordering> {
        Some(self.cmp(other))
    }
}

impl Ord for Bytes {
    ghost use Rattle.std.specs.Ordering.{nat_cmp};
    ghost use Rattle.std.specs.Cmp.Lexicographic.{slice_cmp, nat_list_cmp_total, texts_ties};
    ghost use Rattle.std.proofs.Common.{refl};

    ghost cmp = { slice_cmp nat_cmp };

    ghost total = { nat_list_cmp_total };

    ghost matches_partial_cmp = { λ x y. refl };

    ghost matches_eq = { λ x y. texts_ties x y };

    #[inline]
    fn cmp(&self, other: &Self) -> Ordering {
        match (&self.kept, &other.kept) {
            (Kept::Here(x), Kept::Here(y)) => x.compare(y),
            _ => compare_bytes(self.as_slice(), other.as_slice()),
        }
    }
}
