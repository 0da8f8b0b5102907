//! What a line of a script says.

ghost use Rattle.std.specs.Prelude.{◌≡◌, ◌≤◌, false, true, codes, map, option_map, IfOk, IsTrue, IsUtf8, Some};
ghost use Rattle.cql_lex.specs.Gaps.{is_blank};
ghost use Rattle.cas_lines.specs.Lines.{Says, clock_by, clock_in, has_bytes, is_command, seconds_in, words_of};
ghost use Rattle.cas_lines.specs.Lines.{names_status, status_in, word_by, word_in, word_of};
ghost use Rattle.cas_lines.specs.Inner.Flushing.{NamesTable};

use cas_types::{LAST_SECOND, Mem};
use cql_lex::number_of;
use cql_parse::{ParseFault, Statement, TableName, line_statement, table_name};
use std::alloc::{AllocError, Global};
use std::str::{from_utf8, from_utf8_unchecked};

/// What a line says.
#[derive(Drop)]
pub enum Line {
    /// Nothing.
    Blank,
    Statement(Statement),
    /// `\clock n`, with the seconds.
    Clock(i64),
    /// `\flush t`, with the table's name.
    Flush(TableName),
    /// `\verify t`, with the table's name.
    Verify(TableName),
    /// `\status`.
    Status,
    /// It is none of these.
    Syntax,
}

fn is_blank(byte: u8) -> bool
    ensures { result ≡ is_blank byte }
{
    byte == b' ' || byte == b'\t'
}

fn has_bytes(word: &[u8]) -> bool
    ensures { result ≡ has_bytes word.now }
{
    !word.is_empty()
}

// What stands between the blanks of a command.
fn words_of(alloc: Global, text: &[u8]) -> Result<Vec<&[u8]>, AllocError>
    ensures { IfOk result (λ v. map (λ w. w.now) v.items ≡ words_of text.now) }
{
    let words = text.split(|b| is_blank(*b));
    words.filter(|word| has_bytes(word)).collect(alloc)
}

fn seconds_in(number: Option<i128>) -> Option<i64>
    ensures { result ≡ seconds_in number }
{
    match number {
        Some(n) if 0 <= n && n <= i128::from(LAST_SECOND) => Some(n as i64),
        _ => None,
    }
}

fn clock_by(name: &[u8], number: &[u8]) -> Option<i64>
    ensures { result ≡ clock_by name.now number.now }
{
    if name.eq_ignore_ascii_case(b"\\clock") {
        seconds_in(number_of(number))
    } else {
        None
    }
}

fn clock_in(words: &[&[u8]]) -> Option<i64>
    ensures { result ≡ clock_in (map (λ w. w.now) words.now) }
{
    match words {
        [name, number] => clock_by(name, number),
        _ => None,
    }
}

fn is_command(text: &[u8]) -> bool
    ensures { result ≡ is_command text.now }
{
    match text {
        [first, ..] => *first == b'\\',
        [] => false,
    }
}

// The table that the word names, if it names one.
fn table_in(alloc: Global, word: &[u8]) -> Result<Option<TableName>, Mem>
    ensures { IfOk result (NamesTable word.now) }
{
    let Ok(text) = from_utf8(word) else {
        return Ok(None);
    };
    match table_name(alloc, text) {
        Ok(table) => Ok(Some(table)),
        Err(ParseFault::Syntax) => Ok(None),
        Err(ParseFault::Mem) => Err(Mem),
    }
}

fn word_by<'a>(command: &[u8], name: &[u8], word: &'a [u8]) -> Option<&'a [u8]>
    ensures { option_map (λ w. w.now) result ≡ word_by command.now name.now word.now }
{
    if name.eq_ignore_ascii_case(command) {
        Some(word)
    } else {
        None
    }
}

// The one word behind the name of a command, where that stands there.
fn word_in<'a>(command: &[u8], words: &[&'a [u8]]) -> Option<&'a [u8]>
    ensures { option_map (λ w. w.now) result ≡ word_in command.now (map (λ w. w.now) words.now) }
{
    match words {
        [name, word] => word_by(command, name, word),
        _ => None,
    }
}

fn names_status(name: &[u8]) -> bool
    ensures { result ≡ names_status name.now }
{
    name.eq_ignore_ascii_case(b"\\status")
}

fn is_status(words: &[&[u8]]) -> bool
    ensures { result ≡ status_in (map (λ w. w.now) words.now) }
{
    match words {
        [name] => names_status(name),
        _ => false,
    }
}

// What the command says that tells to flush what the word names.
#[tactic(auto, using(crate::proofs::LineReading::no_flushed_table))]
fn read_flush(alloc: Global, text: &[u8], word: &[u8]) -> Result<Line, Mem>
    requires command { is_command text.now ≡ true }
    requires word { word_of (codes "\\flush") text.now ≡ Some word.now }
    ensures { IfOk result (λ l. Says text.now l) }
{
    match table_in(alloc, word)? {
        Some(table) => Ok(Line::Flush(table)),
        None => Ok(Line::Syntax),
    }
}

// What the command says that tells to verify it.
#[tactic(auto, using(crate::proofs::LineReading::no_verified_table))]
fn read_verify(alloc: Global, text: &[u8], word: &[u8]) -> Result<Line, Mem>
    requires command { is_command text.now ≡ true }
    requires word { word_of (codes "\\verify") text.now ≡ Some word.now }
    ensures { IfOk result (λ l. Says text.now l) }
{
    match table_in(alloc, word)? {
        Some(table) => Ok(Line::Verify(table)),
        None => Ok(Line::Syntax),
    }
}

// What a line says that begins as a command does.
#[tactic(auto, using(crate::proofs::LineReading::commands_read), unfolding(crate::specs::Lines::clock_of))]
fn read_command(alloc: Global, text: &[u8]) -> Result<Line, Mem>
    requires { IsTrue (is_command text.now) }
    ensures { IfOk result (λ l. Says text.now l) }
{
    let words = words_of(alloc, text)?;
    if let Some(seconds) = clock_in(&words) {
        return Ok(Line::Clock(seconds));
    }
    if is_status(&words) {
        return Ok(Line::Status);
    }
    if let Some(word) = word_in(b"\\flush", &words) {
        return read_flush(alloc, text, word);
    }
    match word_in(b"\\verify", &words) {
        Some(word) => read_verify(alloc, text, word),
        None => Ok(Line::Syntax),
    }
}

fn read_text(alloc: Global, text: &str) -> Result<Line, Mem>
    requires utf8 { IsUtf8 text.now }
    requires command { is_command text.now ≡ false }
    ensures { IfOk result (λ l. Says text.now l) }
{
    match line_statement(alloc, text) {
        Ok(Some(statement)) => Ok(Line::Statement(statement)),
        Ok(None) => Ok(Line::Blank),
        Err(ParseFault::Syntax) => Ok(Line::Syntax),
        Err(ParseFault::Mem) => Err(Mem),
    }
}

// The greater of two bytes.
fn greater(a: u8, b: u8) -> u8
    ensures first { a ≤ result }
    ensures second { b ≤ result }
{
    if a < b { b } else { a }
}

// Whether all bytes are of ASCII, by the greatest of them: no branch hangs on a byte, so that many
// are looked at together.
#[tactic(auto, using(crate::proofs::Ascii::ascii_more))]
fn is_ascii(text: &[u8]) -> bool
    ensures { IsTrue result → IsUtf8 text.now }
{
    let mut most = 0;
    for byte in text {
        most = greater(most, *byte);
    }
    most < 128
}

/// What the line says.
#[tactic(auto, using(crate::proofs::LineReading::not_utf8))]
pub fn read_line(alloc: Global, line: &[u8]) -> Result<Line, Mem>
    ensures { IfOk result (λ l. Says line.now l) }
{
    if is_command(line) {
        return read_command(alloc, line);
    }
    if is_ascii(line) {
        // A byte of ASCII is a character of UTF-8.
        let text = unsafe { from_utf8_unchecked(line) };
        return read_text(alloc, text);
    }
    match from_utf8(line) {
        Ok(text) => read_text(alloc, text),
        Err(_) => Ok(Line::Syntax),
    }
}
