//! Takes a text apart into its lines.

ghost use Rattle.std.specs.Prelude.{◌≡◌, ◌<◌, ◌∷◌, ◌==◌, length};
ghost use Rattle.std.specs.List.{position_or_len};
ghost use Rattle.std.specs.Str.Lines.{lines, strip_carriage_return};

use memchr::memchr;

/// The place of the first line feed, or the length where there is none.
#[tactic(auto, using(crate::proofs::Feeds::feed_found, crate::proofs::Feeds::feed_missing))]
fn feed_place(text: &[u8]) -> usize
    ensures { result ≡ position_or_len (λ b. b == 10) text.now }
{
    match memchr(b'\n', text) {
        Some(place) => place,
        None => text.len(),
    }
}

/// The line without the one carriage return that may stand at its end.
fn without_return(line: &[u8]) -> &[u8]
    ensures { result.now ≡ strip_carriage_return line.now }
{
    if !line.is_empty() && line[line.len() - 1] == b'\r' {
        &line[..line.len() - 1]
    } else {
        line
    }
}

/// The first line of a text that isn't empty, and what stands after it. A line ends at a line
/// feed, which a carriage return may stand before, or at the end of the text.
pub fn next_line(text: &[u8]) -> (&[u8], &[u8])
    requires { 0 < length text.now }
    ensures lines { lines text.now ≡ result.0.now ∷ lines result.1.now }
    ensures shorter { length result.1.now < length text.now }
{
    let at = feed_place(text);
    if at >= text.len() {
        return (text, &[]);
    }
    (without_return(&text[..at]), &text[at + 1..])
}
