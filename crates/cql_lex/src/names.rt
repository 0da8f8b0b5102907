//! Names, without regard to case.

ghost use Rattle.std.specs.Prelude.{◌≡◌, ◌≤◌, IfOk, IfSome, length, map, take, true};
ghost use Rattle.std.specs.Char.{to_ascii_lowercase};
ghost use Rattle.std.specs.Str.{bytes_eq};
ghost use Rattle.cql_lex.specs.Constants.{is_name, name_value};
ghost use Rattle.cql_lex.specs.Characters.{word_size};
ghost use Rattle.cql_lex.specs.Names.{IsNameAt};
ghost use Rattle.cql_lex.specs.Inner.Fronts.{folded};
ghost use Rattle.cql_lex.specs.declared.names.TheConstants.{IN_PLACE};

use crate::characters::{all_words, begins_letter};
use crate::rules::begins_uuid;
use cas_types::{Mem, Text};
use std::alloc::Global;
use std::marker::Model;
use std::str::from_utf8_unchecked;

/// A name of at most so many bytes stands in place.
const IN_PLACE: usize = 16;

/// Bytes that stand in place: the first ones of these.
#[derive(Drop)]
struct Few {
    len: usize,
    places: [u8; IN_PLACE],
}

impl Model for Few {
    ghost use Rattle.std.specs.Prelude.{List, ℕ, ◌≤◌, take};
    ghost use Rattle.cql_lex.specs.Characters.{word_size};
    ghost use Rattle.cql_lex.specs.Names.{IsNameAt};
    ghost use Rattle.cql_lex.specs.Inner.Fronts.{folded};
    ghost use Rattle.cql_lex.specs.declared.names.TheConstants.{IN_PLACE};

    ghost Value = { List ℕ };

    ghost view = { λ f. take f.len f.places };

    ghost invariant = { λ f. f.len ≤ IN_PLACE };
}

impl Few {
    #[inline]
    fn as_slice(&self) -> &[u8]
        ensures { result.now ≡ self.now }
    {
        &self.places[..self.len]
    }
}

/// Where the letters of a name stand.
#[derive(Drop)]
enum Letters {
    Here(Few),
    Apart(Vec<u8>),
}

/// A name in small letters. A short one takes no memory of its own.
#[derive(Drop)]
pub struct Name {
    letters: Letters,
}

impl Model for Name {
    ghost use Rattle.std.specs.Prelude.{List, ℕ, IsUtf8};
    ghost use Rattle.cql_lex.specs.Inner.Letters.{letters_of};

    ghost Value = { List ℕ };

    ghost view = { λ n. letters_of n.letters };

    ghost invariant = { λ n. IsUtf8 (letters_of n.letters) };
}

/// Whether two texts are the same: words are so short that the first byte that differs is met soon.
fn is_same(a: &[u8], b: &[u8]) -> bool
    ensures { result ≡ bytes_eq a.now b.now }
{
    match (a, b) {
        ([], []) => true,
        ([x, rest @ ..], [y, others @ ..]) => *x == *y && is_same(rest, others),
        _ => false,
    }
}

/// Each letter, digit and `_` as a small one, and 0 in the place of any other byte.
const FOLDED: [u8; 256] = [
    0, 0, 0, 0, 0, 0, 0, 0, 0, 0, 0, 0, 0, 0, 0, 0, 0, 0, 0, 0, 0, 0, 0, 0, 0, 0, 0, 0, 0, 0, 0, 0,
    0, 0, 0, 0, 0, 0, 0, 0, 0, 0, 0, 0, 0, 0, 0, 0, 48, 49, 50, 51, 52, 53, 54, 55, 56, 57, 0, 0,
    0, 0, 0, 0, 0, 97, 98, 99, 100, 101, 102, 103, 104, 105, 106, 107, 108, 109, 110, 111, 112,
    113, 114, 115, 116, 117, 118, 119, 120, 121, 122, 0, 0, 0, 0, 95, 0, 97, 98, 99, 100, 101, 102,
    103, 104, 105, 106, 107, 108, 109, 110, 111, 112, 113, 114, 115, 116, 117, 118, 119, 120, 121,
    122, 0, 0, 0, 0, 0, 0, 0, 0, 0, 0, 0, 0, 0, 0, 0, 0, 0, 0, 0, 0, 0, 0, 0, 0, 0, 0, 0, 0, 0, 0,
    0, 0, 0, 0, 0, 0, 0, 0, 0, 0, 0, 0, 0, 0, 0, 0, 0, 0, 0, 0, 0, 0, 0, 0, 0, 0, 0, 0, 0, 0, 0, 0,
    0, 0, 0, 0, 0, 0, 0, 0, 0, 0, 0, 0, 0, 0, 0, 0, 0, 0, 0, 0, 0, 0, 0, 0, 0, 0, 0, 0, 0, 0, 0, 0,
    0, 0, 0, 0, 0, 0, 0, 0, 0, 0, 0, 0, 0, 0, 0, 0, 0, 0, 0, 0, 0, 0, 0, 0, 0, 0, 0, 0, 0, 0, 0, 0,
    0, 0, 0, 0, 0, 0, 0,
];

/// A letter, a digit or `_` as a small one, and 0 of any other byte.
#[tactic(auto, using(crate::proofs::Words::folded_is))]
#[inline(always)]
fn folded(byte: u8) -> u8
    ensures { result ≡ folded byte }
{
    FOLDED[usize::from(byte)]
}

/// The letters, digits and `_` that the text begins with, as small ones, each read once; none where
/// they are too many.
#[inline(always)]
fn short_word(text: &[u8]) -> Option<Few>
    ensures { IfSome result (λ few. few ≡ map to_ascii_lowercase (take (word_size text.now) text.now)) }
{
    let mut places = [0u8; IN_PLACE];
    let mut at = 0;
    while at < IN_PLACE {
        if at >= text.len() {
            return Some(Few { len: at, places });
        }
        let small = folded(text[at]);
        if small == 0 {
            return Some(Few { len: at, places });
        }
        places[at] = small;
        at += 1;
    }
    None
}

/// The name that the text begins with, where it is a short one; none where there is none, and where
/// it may be something else.
#[inline(always)]
pub fn short_name_at(text: &[u8]) -> Option<Name>
    ensures { IfSome result (λ name. IsNameAt text.now name) }
{
    if !begins_letter(text) || begins_uuid(text) {
        return None;
    }
    match short_word(text) {
        Some(few) => Some(Name {
            letters: Letters::Here(few),
        }),
        None => None,
    }
}

fn is_name(text: &[u8]) -> bool
    ensures { result ≡ is_name text.now }
{
    begins_letter(text) && all_words(text)
}

/// These few bytes, large letters as small ones.
#[inline(always)]
fn few_lowered(text: &[u8]) -> Few
    requires { length text.now ≤ IN_PLACE }
    ensures { result ≡ map to_ascii_lowercase text.now }
{
    let mut places = [0u8; IN_PLACE];
    for at in 0..text.len() {
        places[at] = text[at].to_ascii_lowercase();
    }
    Few {
        len: text.len(),
        places,
    }
}

/// These bytes, large letters as small ones.
fn many_lowered(alloc: Global, text: &[u8]) -> Result<Vec<u8>, Mem>
    ensures { IfOk result (λ v. v.items ≡ map to_ascii_lowercase text.now) }
{
    let mut letters = text.to_vec(alloc)?;
    letters.as_mut_slice().make_ascii_lowercase();
    Ok(letters)
}

/// The name that these letters, digits and `_` write, in small letters: of `Ab_1` it is `ab_1`.
#[inline(always)]
pub fn name_in(alloc: Global, text: &[u8]) -> Result<Name, Mem>
    requires { is_name text.now ≡ true }
    ensures { IfOk result (λ name. name ≡ map to_ascii_lowercase text.now) }
{
    if text.len() <= IN_PLACE {
        return Ok(Name {
            letters: Letters::Here(few_lowered(text)),
        });
    }
    Ok(Name {
        letters: Letters::Apart(many_lowered(alloc, text)?),
    })
}

/// The name that a token's text writes, in small letters: of `Ab_1` it is `ab_1`. The text is the
/// bytes of the token's span; it is none where that is no name.
pub fn name_of(alloc: Global, text: &[u8]) -> Result<Option<Name>, Mem>
    ensures { IfOk result (λ name. name ≡ name_value text.now) }
{
    if !is_name(text) {
        return Ok(None);
    }
    Ok(Some(name_in(alloc, text)?))
}

impl Name {
    #[inline]
    fn as_str(&self) -> &str
        ensures { result.now ≡ self.now }
    {
        // The invariant says that they are UTF-8.
        match &self.letters {
            Letters::Here(few) => unsafe { from_utf8_unchecked(few.as_slice()) },
            Letters::Apart(letters) => unsafe { from_utf8_unchecked(letters.as_slice()) },
        }
    }

    /// How many bytes it has.
    #[inline]
    pub fn len(&self) -> usize
        ensures { result ≡ length self.now }
    {
        self.as_str().len()
    }

    /// Whether it is this word.
    #[inline]
    pub fn is(&self, word: &str) -> bool
        ensures { result ≡ bytes_eq self.now word.now }
    {
        is_same(self.as_str().as_bytes(), word.as_bytes())
    }

    /// The name as a text.
    pub fn text(&self, alloc: Global) -> Result<Text, Mem>
        ensures { IfOk result (λ text. text ≡ self.now) }
    {
        Ok(Text::copy_of(alloc, self.as_str())?)
    }
}
