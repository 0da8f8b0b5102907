//! Texts as contracts see them.

ghost use Rattle.std.specs.Prelude.{◌≡◌, IsTrue, ◌↔◌, IfOk, string_bytes};

use crate::bytes::Bytes;
use std::alloc::{AllocError, Global};
use std::marker::Model;
use std::str::from_utf8_unchecked;

/// A text, which contracts see as the list of its UTF-8 bytes. A short one stands in place.
pub struct Text {
    bytes: Bytes,
}

// Written out, since a derived one is proved again in each crate and wherever a value is dropped.
impl Drop for Text {
    #[inline]
    fn drop(self) {
        let Text { bytes: _bytes } = self;
    }
}

impl Model for Text {
    ghost use Rattle.std.specs.Prelude.{List, ℕ, IsUtf8};

    ghost Value = { List ℕ };

    ghost view = { λ t. t.bytes };

    ghost invariant = { λ t. IsUtf8 t.bytes };
}

impl Text {
    pub fn from_string(text: String) -> Self
        ensures { result ≡ string_bytes text }
    {
        Text {
            bytes: Bytes::from_vec(text.into_bytes()),
        }
    }

    /// A copy of the text.
    pub fn copy_of(alloc: Global, text: &str) -> Result<Self, AllocError>
        ensures { IfOk result (λ t. t ≡ text.now) }
    {
        Ok(Text {
            bytes: Bytes::copy_of(alloc, text.as_bytes())?,
        })
    }

    pub fn as_str(&self) -> &str
        ensures { result.now ≡ self.now }
    {
        // The invariant says that they are UTF-8.
        unsafe { from_utf8_unchecked(self.bytes.as_slice()) }
    }

    /// Whether it is this text.
    pub fn is(&self, other: &str) -> bool
        ensures { IsTrue result ↔ (self.now ≡ other.now) }
    {
        self.as_str() == other
    }
}

impl Clone for Text {
    ghost is_clone = { λ t u. u ≡ t };

    fn clone(&self) -> Result<Self, AllocError> {
        Ok(Text {
            bytes: self.bytes.clone()?,
        })
    }
}
