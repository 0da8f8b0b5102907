//! Where a text in quotes ends.

ghost use Rattle.std.specs.Prelude.{◌≡◌, ◌<◌, ◌≤◌, length, IfSome};
ghost use Rattle.cql_lex.specs.Quotes.{closing_size};

/// How many bytes there are up to the end of the closing quote, which is the first that isn't
/// doubled.
pub(crate) fn closing_size(quote: u8, text: &[u8]) -> Option<usize>
    ensures found { result ≡ closing_size quote text.now }
    ensures size { IfSome result (λ n. (0 < n) × (n ≤ length text.now)) }
{
    let mut at = 0;
    while at < text.len() {
        if text[at] != quote {
            at += 1;
        } else if at + 1 < text.len() && text[at + 1] == quote {
            at += 2;
        } else {
            return Some(at + 1);
        }
    }
    None
}
