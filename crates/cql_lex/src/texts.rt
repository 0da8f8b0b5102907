//! Bytes as texts.

ghost use Rattle.std.specs.Prelude.{◌≡◌, IfOk, Some, None, if◌then◌else◌};
ghost use Rattle.std.specs.Str.{is_utf8};

use cas_types::{Mem, Text};
use std::alloc::Global;
use std::str::from_utf8;

/// The text of these bytes, where they are UTF-8.
pub(crate) fn text_of(bytes: Vec<u8>) -> Option<Text>
    ensures { result ≡ (if is_utf8 bytes.items then Some bytes.items else None) }
{
    match String::from_utf8(bytes) {
        Ok(text) => Some(Text::from_string(text)),
        Err(_) => None,
    }
}

/// A copy of these bytes as a text, where they are UTF-8.
pub(crate) fn text_in(alloc: Global, bytes: &[u8]) -> Result<Option<Text>, Mem>
    ensures { IfOk result (λ text. text ≡ (if is_utf8 bytes.now then Some bytes.now else None)) }
{
    match from_utf8(bytes) {
        Ok(text) => Ok(Some(Text::copy_of(alloc, text)?)),
        Err(_) => Ok(None),
    }
}
