//! Lines of tables of altered bytes, and what they say is answered.

/// What a word says is answered: how many, or after `!` the place that is refused.
pub(crate) fn answer_of(word: &str) -> Option<Result<usize, u64>> {
    match word.strip_prefix("!") {
        Some(at) => Some(Err(at.parse().ok()?)),
        None => Some(Ok(word.parse().ok()?)),
    }
}

/// Of a line the first and the last place that are altered, the byte that stands there then, and the answer.
pub(crate) fn altered_of(line: &str) -> Option<(usize, usize, u8, Result<usize, u64>)> {
    let mut words = line.split(' ');
    let first = words.next()?.parse().ok()?;
    let last = words.next()?.parse().ok()?;
    let byte = words.next()?.parse().ok()?;
    Some((first, last, byte, answer_of(words.next()?)?))
}
