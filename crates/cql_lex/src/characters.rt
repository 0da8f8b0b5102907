//! The characters that tokens are made of.

ghost use Rattle.std.specs.Prelude.{◌≡◌, ◌≤◌, ◌==◌, IsTrue, length};
ghost use Rattle.std.specs.List.{prefix_len, list_all};
ghost use Rattle.std.specs.Char.{is_ascii_digit, is_ascii_alphabetic, is_ascii_hexdigit};
ghost use Rattle.cql_lex.specs.Characters.{is_word, first_is, begins_pair, word_size, digits_size, hex_pairs_size};

/// Whether the byte is a letter, a digit or `_`.
pub(crate) fn is_word(byte: u8) -> bool
    ensures { result ≡ is_word byte }
{
    byte.is_ascii_alphanumeric() || byte == b'_'
}

pub(crate) fn begins_word(text: &[u8]) -> bool
    ensures { result ≡ first_is is_word text.now }
{
    match text {
        [byte, _rest @ ..] => is_word(*byte),
        _ => false,
    }
}

pub(crate) fn begins_digit(text: &[u8]) -> bool
    ensures { result ≡ first_is is_ascii_digit text.now }
{
    match text {
        [byte, _rest @ ..] => byte.is_ascii_digit(),
        _ => false,
    }
}

pub(crate) fn begins_letter(text: &[u8]) -> bool
    ensures { result ≡ first_is is_ascii_alphabetic text.now }
{
    match text {
        [byte, _rest @ ..] => byte.is_ascii_alphabetic(),
        _ => false,
    }
}

pub(crate) fn begins_byte(text: &[u8], first: u8) -> bool
    ensures { result ≡ first_is (λ c. c == first) text.now }
{
    match text {
        [byte, _rest @ ..] => *byte == first,
        _ => false,
    }
}

pub(crate) fn begins_pair(text: &[u8], first: u8, second: u8) -> bool
    ensures pair { result ≡ begins_pair first second text.now }
    ensures long { IsTrue result → 2 ≤ length text.now }
{
    match text {
        [a, b, _rest @ ..] => *a == first && *b == second,
        _ => false,
    }
}

/// How many letters, digits and `_` the text begins with.
#[tactic(auto, using(crate::proofs::Sizes::words_within))]
pub(crate) fn word_size(text: &[u8]) -> usize
    ensures size { result ≡ word_size text.now }
    ensures within { result ≤ length text.now }
{
    text.iter().take_while(|byte| is_word(**byte)).count()
}

/// How many digits the text begins with.
#[tactic(auto, using(crate::proofs::Sizes::digits_within))]
pub(crate) fn digits_size(text: &[u8]) -> usize
    ensures size { result ≡ digits_size text.now }
    ensures within { result ≤ length text.now }
{
    text.iter().take_while(|byte| byte.is_ascii_digit()).count()
}

/// How many hexadecimal digits the text begins with.
fn hex_size(text: &[u8]) -> usize
    ensures { result ≡ prefix_len is_ascii_hexdigit text.now }
{
    text.iter()
        .take_while(|byte| byte.is_ascii_hexdigit())
        .count()
}

/// The bytes of the pairs of hexadecimal digits that the text begins with.
#[tactic(auto, using(crate::proofs::Sizes::hex_within))]
pub(crate) fn hex_pairs_size(text: &[u8]) -> usize
    ensures size { result ≡ hex_pairs_size text.now }
    ensures within { result ≤ length text.now }
{
    2 * (hex_size(text) / 2)
}

/// Whether each byte is a letter, a digit or `_`.
pub(crate) fn all_words(text: &[u8]) -> bool
    ensures { result ≡ list_all is_word text.now }
{
    text.iter().all(|byte| is_word(*byte))
}

/// Whether each byte is a digit.
pub(crate) fn all_digits(text: &[u8]) -> bool
    ensures { result ≡ list_all is_ascii_digit text.now }
{
    text.iter().all(|byte| byte.is_ascii_digit())
}
