//! The words of the command: the limits of the store, the clock that a run reads, and the folder.

ghost use Rattle.std.specs.Prelude.{◌≡◌, ◌≢◌, ◌≤◌, IfOk, IfSome, MatchOption, None, false, map, option_map, string_bytes};
ghost use Rattle.std.specs.Char.{is_ascii_digit};
ghost use Rattle.std.specs.List.{list_all, list_any};
ghost use Rattle.clap.specs.Words.{app_of, kind_of, rule_of};
ghost use Rattle.cas_words.specs.Words.{clock_named, clock_or, command_in, command_of, folder_in, is_numeral, limits_in, name};
ghost use Rattle.cas_words.specs.Words.{AreLimits, number_between, number_in, number_or, path};
ghost use Rattle.cas_words.specs.Inner.Parser.{bare, folder_rule, found_in, is_stray, option_rule, parser, with_option};

use cas_bind::Limits;
use cas_types::{Mem, SHARD_LIMIT, Text};
use clap::error::ErrorKind;
use clap::{Arg, ArgMatches, Error};
use std::alloc::{AllocError, Global};

/// How many shards a store has where the words don't say.
pub const SHARDS_USUAL: u64 = 4;

/// The fewest bytes of a segment of the commit log.
pub const SEGMENT_LEAST: u64 = 4_096;

/// The most bytes of a segment: 32 MiB, which it has where the words don't say.
pub const SEGMENT_LIMIT: u64 = 33_554_432;

/// The fewest bytes of a memtable.
pub const MEMTABLE_LEAST: u64 = 4_096;

/// The most bytes of a memtable: 1 GiB.
pub const MEMTABLE_LIMIT: u64 = 1_073_741_824;

/// How many bytes a memtable has where the words don't say: 4 MiB.
pub const MEMTABLE_USUAL: u64 = 4_194_304;

/// The most compactors.
pub const COMPACTOR_LIMIT: u64 = 4;

/// How many compactors there are where the words don't say.
pub const COMPACTORS_USUAL: u64 = 1;

/// Which clock a run reads.
#[derive(Clone, Copy, PartialEq, Eq)]
pub enum ClockKind {
    System,
    Manual,
}

/// What the words of the command say.
#[derive(Drop)]
pub struct Command {
    pub limits: Limits,
    pub clock: ClockKind,
    pub folder: Text,
}

/// What a word, or two of them, sets.
#[derive(Clone, Copy)]
pub(crate) enum Setting {
    Shards,
    Segment,
    Memtable,
    Compactors,
    Clock,
    Folder,
}

impl Setting {
    /// How it is called: an option behind its two minuses.
    fn name(self) -> &'static str
        ensures { result.now ≡ name self }
    {
        match self {
            Setting::Shards => "shards",
            Setting::Segment => "segment",
            Setting::Memtable => "memtable",
            Setting::Compactors => "compactors",
            Setting::Clock => "clock",
            Setting::Folder => "folder",
        }
    }
}

// An option that takes one text.
fn option_arg<'a>(alloc: Global, name: &'static str) -> Arg<'a>
    ensures rule { rule_of result ≡ option_rule name.entry.now }
    ensures local { result.global ≡ false }
{
    Arg::new(alloc, name).long(name)
}

fn folder_arg<'a>(alloc: Global) -> Arg<'a>
    ensures rule { rule_of result ≡ folder_rule }
    ensures local { result.global ≡ false }
{
    Arg::new(alloc, "folder").required(true)
}

fn bare_parser<'a>(alloc: Global) -> clap::Command<'a>
    ensures { app_of result ≡ bare }
{
    clap::Command::new(alloc, "cassnode")
        .no_binary_name(true)
        .disable_help_flag(true)
        .disable_version_flag(true)
}

fn with_option<'a>(
    alloc: Global,
    parser: clap::Command<'a>,
    setting: Setting,
) -> Result<clap::Command<'a>, AllocError>
    ensures { IfOk result (λ p. app_of p ≡ with_option (app_of parser.entry) setting) }
{
    parser.arg(option_arg(alloc, setting.name()))
}

fn make_parser<'a>(alloc: Global) -> Result<clap::Command<'a>, AllocError>
    ensures { IfOk result (λ p. app_of p ≡ parser) }
{
    let parser = bare_parser(alloc);
    let parser = with_option(alloc, parser, Setting::Shards)?;
    let parser = with_option(alloc, parser, Setting::Segment)?;
    let parser = with_option(alloc, parser, Setting::Memtable)?;
    let parser = with_option(alloc, parser, Setting::Compactors)?;
    let parser = with_option(alloc, parser, Setting::Clock)?;
    parser.arg(folder_arg(alloc))
}

// Whether the word begins with a minus and is no `--NAME`.
fn is_stray(word: &[u8]) -> bool
    ensures { result ≡ is_stray word.now }
{
    match word {
        [b'-', b'-', _name, _rest @ ..] => false,
        [b'-', _rest @ ..] => true,
        _ => false,
    }
}

fn has_stray(words: &[String]) -> bool
    ensures { result ≡ list_any is_stray (map string_bytes words.now) }
{
    words.iter().any(|word| is_stray(word.as_bytes()))
}

fn are_digits(text: &[u8]) -> bool
    ensures { result ≡ list_all is_ascii_digit text.now }
{
    text.iter().all(|byte| byte.is_ascii_digit())
}

// Decimal digits, with no sign and no zero before another digit.
fn is_numeral(text: &[u8]) -> bool
    ensures { result ≡ is_numeral text.now }
{
    match text {
        [] => false,
        [digit] => digit.is_ascii_digit(),
        [first, _rest @ ..] => *first != b'0' && are_digits(text),
    }
}

fn number_between(number: u64, least: u64, most: u64) -> Option<u64>
    ensures { result ≡ number_between least most number }
{
    if least <= number && number <= most {
        Some(number)
    } else {
        None
    }
}

fn number_in(text: &str, least: u64, most: u64) -> Option<u64>
    ensures value { result ≡ number_in least most text.now }
    ensures within { IfSome result (λ n. n ≤ most) }
{
    if !is_numeral(text.as_bytes()) {
        return None;
    }
    match text.parse::<u64>() {
        Ok(number) => number_between(number, least, most),
        Err(_) => None,
    }
}

fn text_of<'a>(matches: &ArgMatches<'a>, setting: Setting) -> Option<&'a str>
    ensures { option_map (λ s. s.now) result ≡ found_in matches.now setting }
{
    matches.get_str(setting.name())
}

// The number given for the setting, or the usual one where none is.
fn number_of(
    matches: &ArgMatches<'_>,
    setting: Setting,
    least: u64,
    most: u64,
    usual: u64,
) -> Option<u64>
    requires { usual ≤ most }
    ensures value { result ≡ number_or least most usual (found_in matches.now setting) }
    ensures within { IfSome result (λ n. n ≤ most) }
{
    match text_of(matches, setting) {
        Some(text) => number_in(text, least, most),
        None => Some(usual),
    }
}

fn limits_of(matches: &ArgMatches<'_>) -> Option<Limits>
    ensures { result ≡ limits_in (found_in matches.now) }
{
    let shards = number_of(
        matches,
        Setting::Shards,
        1,
        u64::from(SHARD_LIMIT),
        SHARDS_USUAL,
    )?;
    let segment = number_of(
        matches,
        Setting::Segment,
        SEGMENT_LEAST,
        SEGMENT_LIMIT,
        SEGMENT_LIMIT,
    )?;
    let memtable = number_of(
        matches,
        Setting::Memtable,
        MEMTABLE_LEAST,
        MEMTABLE_LIMIT,
        MEMTABLE_USUAL,
    )?;
    let compactors = number_of(
        matches,
        Setting::Compactors,
        0,
        COMPACTOR_LIMIT,
        COMPACTORS_USUAL,
    )?;
    Some(Limits {
        shards: shards as u8,
        segment,
        memtable,
        compactors: compactors as u8,
    })
}

fn clock_named(text: &str) -> Option<ClockKind>
    ensures { result ≡ clock_named text.now }
{
    if text == "system" {
        Some(ClockKind::System)
    } else if text == "manual" {
        Some(ClockKind::Manual)
    } else {
        None
    }
}

fn clock_of(matches: &ArgMatches<'_>) -> Option<ClockKind>
    ensures { result ≡ clock_or (found_in matches.now Setting.Clock) }
{
    match text_of(matches, Setting::Clock) {
        Some(text) => clock_named(text),
        None => Some(ClockKind::System),
    }
}

fn folder_of<'a>(matches: &ArgMatches<'a>) -> Option<&'a str>
    ensures { option_map (λ s. s.now) result ≡ folder_in (found_in matches.now Setting.Folder) }
{
    match text_of(matches, Setting::Folder) {
        Some(text) if !text.is_empty() => Some(text),
        _ => None,
    }
}

fn command_from(alloc: Global, matches: &ArgMatches<'_>) -> Result<Option<Command>, AllocError>
    ensures { IfOk result (λ c. c ≡ command_in (found_in matches.now)) }
{
    let Some(limits) = limits_of(matches) else {
        return Ok(None);
    };
    let Some(clock) = clock_of(matches) else {
        return Ok(None);
    };
    let Some(folder) = folder_of(matches) else {
        return Ok(None);
    };
    let folder = Text::copy_of(alloc, folder)?;
    Ok(Some(Command {
        limits,
        clock,
        folder,
    }))
}

// No matches, unless the parser wanted memory.
fn refused<'a>(error: &Error) -> Result<Option<ArgMatches<'a>>, AllocError>
    ensures { IfOk result (λ o. (o ≡ None) × (kind_of error.now ≢ ErrorKind.OutOfMemory)) }
{
    if error.kind() == ErrorKind::OutOfMemory {
        Err(AllocError)
    } else {
        Ok(None)
    }
}

// What clap finds in the words, and nothing where it, or a stray word, refuses them.
fn matches_of<'a>(alloc: Global, words: &'a [String]) -> Result<Option<ArgMatches<'a>>, AllocError>
    ensures { IfOk result (λ o. MatchOption o (command_of (map string_bytes words.now) ≡ None)
        (λ m. command_of (map string_bytes words.now) ≡ command_in (found_in m))) }
{
    if has_stray(words) {
        return Ok(None);
    }
    let parser = make_parser(alloc)?;
    match parser.try_get_matches_from(words) {
        Ok(matches) => Ok(Some(matches)),
        Err(error) => refused(&error),
    }
}

fn command_of(alloc: Global, words: &[String]) -> Result<Option<Command>, AllocError>
    ensures { IfOk result (λ c. c ≡ command_of (map string_bytes words.now)) }
{
    match matches_of(alloc, words)? {
        Some(matches) => command_from(alloc, &matches),
        None => Ok(None),
    }
}

/// The command that the words are, and `None` exactly where they aren't in its definition.
#[tactic(auto, using(crate::proofs::Commands::each_command))]
pub fn read_words(alloc: Global, words: &[String]) -> Result<Option<Command>, AllocError>
    ensures exact { IfOk result (λ c. c ≡ command_of (map string_bytes words.now)) }
    ensures limits { IfOk result (λ c. IfSome c (λ k. AreLimits k.limits)) }
{
    let command = command_of(alloc, words)?;
    Ok(command)
}

/// The folder that the words name, and `None` exactly where they aren't in the command's
/// definition.
#[tactic(auto, unfolding(crate::specs::Words::path))]
pub fn path_of(alloc: Global, words: &[String]) -> Result<Option<String>, Mem>
    ensures { IfOk result (λ o. option_map string_bytes o ≡ path (map string_bytes words.now)) }
{
    match read_words(alloc, words)? {
        Some(Command { folder, .. }) => Ok(Some(String::from_str(alloc, folder.as_str())?)),
        None => Ok(None),
    }
}
