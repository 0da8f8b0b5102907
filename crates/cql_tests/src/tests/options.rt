//! The options of tables, from the text of a CREATE TABLE: no script shows them.

use cas_define::bind_create;
use cas_types::{Options, Strategy, TableSchema, Unit};
use cql_lex::tokens;
use cql_parse::{Statement, statement};
use std::alloc::Global;

// What stands behind a CREATE TABLE, and each option as it is given or by its default.
const OPTIONS: &str = "\
-- none => size days 864000 0 4 32 50 150 52428800 160 10 1
WITH gc_grace_seconds = 2147483647 AND default_time_to_live = 630720000 \
=> size days 2147483647 630720000 4 32 50 150 52428800 160 10 1
WITH compaction = {'min_threshold': 99, 'min_threshold': 2, 'max_threshold': '2', 'min_sstable_size': 1099511627776} \
=> size days 864000 0 2 2 50 150 1099511627776 160 10 1
WITH compaction = {'class': 'SizeTieredCompactionStrategy', 'bucket_low': '0.9', 'bucket_high': 100} \
=> size days 864000 0 4 32 90 10000 52428800 160 10 1
WITH compaction = {'class': 'LeveledCompactionStrategy', 'sstable_size_in_mb': 1024, 'fanout_size': '2'} \
=> leveled days 864000 0 4 32 50 150 52428800 1024 2 1
WITH compaction = {'class': 'org.apache.cassandra.db.compaction.TimeWindowCompactionStrategy', \
'compaction_window_unit': 'HOURS', 'compaction_window_size': 65535} \
=> window hours 864000 0 4 32 50 150 52428800 160 10 65535";

// The table that the CREATE TABLE makes.
fn created(alloc: Global, source: &str) -> Option<TableSchema> {
    let found = tokens(alloc, source).ok()?;
    match statement(alloc, &found, source) {
        Ok(Statement::Create(create)) => bind_create(alloc, &[], &create).ok(),
        _ => None,
    }
}

fn numbers(options: &Options) -> [u64; 10] {
    [
        u64::from(options.gc_grace_seconds),
        u64::from(options.default_time_to_live),
        u64::from(options.min_threshold),
        u64::from(options.max_threshold),
        u64::from(options.bucket_low),
        u64::from(options.bucket_high),
        options.min_sstable_size,
        u64::from(options.sstable_size_in_mb),
        u64::from(options.fanout_size),
        u64::from(options.window),
    ]
}

fn is_strategy(word: Option<&str>, strategy: Strategy) -> bool {
    match strategy {
        Strategy::SizeTiered => word == Some("size"),
        Strategy::Leveled => word == Some("leveled"),
        Strategy::TimeWindow => word == Some("window"),
    }
}

fn is_unit(word: Option<&str>, unit: Unit) -> bool {
    match unit {
        Unit::Minutes => word == Some("minutes"),
        Unit::Hours => word == Some("hours"),
        Unit::Days => word == Some("days"),
    }
}

fn is_number(word: Option<&str>, number: u64) -> bool {
    match word {
        Some(word) => word.parse().ok() == Some(number),
        None => false,
    }
}

fn are_told(options: &Options, told: &str) -> bool {
    let mut words = told.split(' ');
    if !is_strategy(words.next(), options.strategy) || !is_unit(words.next(), options.unit) {
        return false;
    }
    for number in numbers(options) {
        if !is_number(words.next(), number) {
            return false;
        }
    }
    true
}

fn source_of(alloc: Global, part: &str) -> Option<String> {
    let mut source = String::new(alloc);
    source.push_str("CREATE TABLE o (k int PRIMARY KEY) ").ok()?;
    source.push_str(part).ok()?;
    Some(source)
}

fn is_told(alloc: Global, line: &str) -> Option<bool> {
    let (part, told) = line.split_once(" => ")?;
    let source = source_of(alloc, part)?;
    let table = created(alloc, source.as_str())?;
    Some(are_told(&table.options, told))
}

#[test]
fn an_option_is_as_given_or_its_default(rt: HostRuntime) {
    for line in OPTIONS.lines() {
        assert!(rt; is_told(rt.alloc(), line) == Some(true), "{line}");
    }
}
