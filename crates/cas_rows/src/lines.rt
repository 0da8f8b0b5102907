//! Lines of a text, each with the line feed that ends it.

use std::alloc::{AllocError, Global};

pub(crate) fn is_feed(byte: &u8) -> bool {
    *byte == b'\n'
}

/// How many lines there are.
pub(crate) fn count_lines(text: &[u8]) -> usize {
    text.iter().filter(|byte| is_feed(byte)).count()
}

/// The first so many lines.
pub(crate) fn first_lines(alloc: Global, text: &[u8], count: usize) -> Result<Vec<u8>, AllocError> {
    let mut first = Vec::new(alloc);
    for line in text.split_inclusive(is_feed).take(count) {
        first.extend_from_slice(line)?;
    }
    Ok(first)
}
