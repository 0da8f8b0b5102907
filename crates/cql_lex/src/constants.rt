//! Uuids and blobs.

ghost use Rattle.std.specs.Prelude.{◌≡◌, IfOk};
ghost use Rattle.cql_lex.specs.Constants.{uuid_value, blob_value, begins_blob};

use crate::characters::begins_pair;
use cas_types::{Bytes, Mem};
use std::alloc::Global;
use uuid::Uuid;

/// The 16 bytes of a uuid that a token's text writes with its hyphens. The text is the bytes of the
/// token's span.
pub fn uuid_of(text: &[u8]) -> Option<[u8; 16]>
    ensures { result ≡ uuid_value text.now }
{
    if text.len() != 36 {
        return None;
    }
    match Uuid::try_parse_ascii(text) {
        Ok(id) => Some(id.into_bytes()),
        Err(_) => None,
    }
}

pub(crate) fn begins_blob(text: &[u8]) -> bool
    ensures { result ≡ begins_blob text.now }
{
    begins_pair(text, b'0', b'x') || begins_pair(text, b'0', b'X')
}

/// The bytes that a token's text writes in hexadecimal digits after `0x`. The text is the bytes of
/// the token's span.
pub fn blob_of(alloc: Global, text: &[u8]) -> Result<Option<Bytes>, Mem>
    ensures { IfOk result (λ bytes. bytes ≡ blob_value text.now) }
{
    if !begins_blob(text) {
        return Ok(None);
    }
    match hex::decode(alloc, &text[2..]) {
        Ok(bytes) => Ok(Some(Bytes::from_vec(bytes))),
        Err(hex::FromHexError::OutOfMemory) => Err(Mem),
        Err(_) => Ok(None),
    }
}
