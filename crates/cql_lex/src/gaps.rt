//! Blanks and comments.

ghost use Rattle.std.specs.Prelude.{◌≡◌, ◌<◌, ◌≤◌, length, IfSome};
ghost use Rattle.cql_lex.specs.Characters.{first_is};
ghost use Rattle.cql_lex.specs.Gaps.{is_blank, close_size, gap_size};

use crate::characters::begins_pair;

fn begins_blank(text: &[u8]) -> bool
    ensures { result ≡ first_is is_blank text.now }
{
    match text {
        [byte, _rest @ ..] => *byte == b' ' || *byte == b'\t',
        _ => false,
    }
}

/// How many bytes there are up to the end of the first `*/`.
fn close_size(text: &[u8]) -> Option<usize>
    ensures found { result ≡ close_size text.now }
    ensures size { IfSome result (λ n. (0 < n) × (n ≤ length text.now)) }
{
    let mut at = 0;
    while at < text.len() {
        if begins_pair(&text[at..], b'*', b'/') {
            return Some(at + 2);
        }
        at += 1;
    }
    None
}

/// The size of the blank or the comment that the text begins with.
#[inline(always)]
pub(crate) fn gap_size(text: &[u8]) -> Option<usize>
    ensures found { result ≡ gap_size text.now }
    ensures size { IfSome result (λ n. (0 < n) × (n ≤ length text.now)) }
{
    if begins_blank(text) {
        Some(1)
    } else if begins_pair(text, b'-', b'-') || begins_pair(text, b'/', b'/') {
        Some(text.len())
    } else if begins_pair(text, b'/', b'*') {
        match close_size(&text[2..]) {
            Some(size) => Some(2 + size),
            None => None,
        }
    } else {
        None
    }
}
