//! The options of a table.

ghost use Rattle.std.specs.Prelude.{◌≡◌, ◌≤◌, ◌<◌, ◌^◌, codes, IfSome};
ghost use Rattle.std.specs.Option.{option_copied};
ghost use Rattle.std.specs.List.{find, list_all};
ghost use Rattle.cas_types.specs.declared.limits.TheConstants.{TTL_LIMIT};
ghost use Rattle.cas_options.specs.Settings.{value_or, is_readable};
ghost use Rattle.cas_options.specs.Options.{is_option_named, value_given, option_given, is_known_option, whole_option, map_option};
ghost use Rattle.cas_options.specs.Options.{compaction_given, options_fit, options_of, suboption_number};

use crate::compaction::{compaction_fits, strategy_given, suboption_number, unit_given};
use crate::ranges::{
    BUCKET_HIGH, BUCKET_LOW, COMPACTION_WINDOW_SIZE, DEFAULT_TIME_TO_LIVE, FANOUT_SIZE,
    GC_GRACE_SECONDS, MAX_THRESHOLD, MIN_SSTABLE_SIZE, MIN_THRESHOLD, OptionRange,
    SSTABLE_SIZE_IN_MB,
};
use crate::settings::number_in_range;
use cas_terms::same_name;
use cas_types::Options;
use cql_parse::{Constant, OptionValue, Suboption, TableOption};

#[tactic(auto, unfolding(crate::specs::Options::is_option_named))]
fn is_option_named(name: &str, option: &TableOption) -> bool
    ensures { result ≡ is_option_named name.now option.now }
{
    match option {
        TableOption::Named(option) => same_name(option.name.as_str(), name),
        TableOption::ClusteringOrder(_) => false,
    }
}

#[tactic(auto, unfolding(crate::specs::Options::value_given))]
fn value_given(option: &TableOption) -> Option<&OptionValue>
    ensures { option_copied result ≡ value_given option.now }
{
    match option {
        TableOption::Named(option) => Some(&option.value),
        TableOption::ClusteringOrder(_) => None,
    }
}

fn option_named<'a>(name: &str, options: &'a [TableOption]) -> Option<&'a TableOption>
    ensures { option_copied result ≡ find (is_option_named name.now) options.now }
{
    options.iter().find(|o| is_option_named(name, o))
}

#[tactic(auto, unfolding(crate::specs::Options::option_given))]
fn option_given<'a>(name: &str, options: &'a [TableOption]) -> Option<&'a OptionValue>
    ensures { option_copied result ≡ option_given name.now options.now }
{
    match option_named(name, options) {
        Some(option) => value_given(option),
        None => None,
    }
}

#[tactic(auto, unfolding(crate::specs::Options::is_known_option))]
fn is_known_option(option: &TableOption) -> bool
    ensures { result ≡ is_known_option option.now }
{
    match option {
        TableOption::Named(option) => {
            let name = option.name.as_str();
            same_name(name, "gc_grace_seconds")
                || same_name(name, "default_time_to_live")
                || same_name(name, "compaction")
        }
        TableOption::ClusteringOrder(_) => true,
    }
}

fn are_known_options(options: &[TableOption]) -> bool
    ensures { result ≡ list_all is_known_option options.now }
{
    options.iter().all(|o| is_known_option(o))
}

#[tactic(auto, unfolding(crate::specs::Options::whole_option))]
fn whole_option(range: &OptionRange, value: &OptionValue) -> Option<u64>
    ensures number { result ≡ whole_option range.now value.now }
    ensures within { IfSome result (λ n. n ≤ range.now.greatest) }
{
    match value {
        OptionValue::Constant(Constant::Number(number)) => number_in_range(range, *number),
        _ => None,
    }
}

/// The seconds that an option is given.
fn seconds_given(options: &[TableOption], name: &str, range: &OptionRange) -> u32
    requires default { range.now.default ≤ range.now.greatest }
    requires greatest { range.now.greatest < 2 ^ 32 }
    ensures given { result ≡ value_or (whole_option range.now) range.now.default (option_given name.now options.now) }
    ensures within { result ≤ range.now.greatest }
{
    match option_given(name, options) {
        Some(value) => whole_option(range, value).unwrap_or(range.default) as u32,
        None => range.default as u32,
    }
}

fn seconds_fit(options: &[TableOption], name: &str, range: &OptionRange) -> bool
    ensures { result ≡ is_readable (whole_option range.now) (option_given name.now options.now) }
{
    match option_given(name, options) {
        Some(value) => whole_option(range, value).is_some(),
        None => true,
    }
}

#[tactic(auto, unfolding(crate::specs::Options::map_option))]
fn compaction_given(options: &[TableOption]) -> &[Suboption]
    ensures { result.now ≡ compaction_given options.now }
{
    match option_given("compaction", options) {
        Some(OptionValue::Suboptions(given)) => given.as_slice(),
        _ => &[],
    }
}

#[tactic(auto, unfolding(crate::specs::Options::map_option))]
fn is_map_given(options: &[TableOption]) -> bool
    ensures { result ≡ is_readable map_option (option_given (codes "compaction") options.now) }
{
    match option_given("compaction", options) {
        Some(OptionValue::Suboptions(_)) => true,
        Some(_) => false,
        None => true,
    }
}

/// Whether every option is one that there is, with a value that it can have.
#[tactic(auto, unfolding(crate::specs::Options::options_fit))]
pub fn options_fit(options: &[TableOption]) -> bool
    ensures { result ≡ options_fit options.now }
{
    are_known_options(options)
        && (seconds_fit(options, "gc_grace_seconds", &GC_GRACE_SECONDS)
            && (seconds_fit(options, "default_time_to_live", &DEFAULT_TIME_TO_LIVE)
                && (is_map_given(options) && compaction_fits(compaction_given(options)))))
}

fn small(given: &[Suboption], name: &str, range: &OptionRange) -> u16
    requires default { range.now.default ≤ range.now.greatest }
    requires greatest { range.now.greatest < 2 ^ 16 }
    ensures { result ≡ suboption_number given.now name.now range.now }
{
    suboption_number(given, name, range) as u16
}

fn hundredths(given: &[Suboption], name: &str, range: &OptionRange) -> u32
    requires default { range.now.default ≤ range.now.greatest }
    requires greatest { range.now.greatest < 2 ^ 32 }
    ensures { result ≡ suboption_number given.now name.now range.now }
{
    suboption_number(given, name, range) as u32
}

/// The options of a table, by what a CREATE TABLE gives them.
#[tactic(auto, unfolding(crate::specs::Options::options_of))]
pub fn options_of(options: &[TableOption]) -> Options
    ensures given { result ≡ options_of options.now }
    ensures lives { result.default_time_to_live ≤ TTL_LIMIT }
{
    let given = compaction_given(options);
    Options {
        gc_grace_seconds: seconds_given(options, "gc_grace_seconds", &GC_GRACE_SECONDS),
        default_time_to_live: seconds_given(options, "default_time_to_live", &DEFAULT_TIME_TO_LIVE),
        strategy: strategy_given(given),
        min_threshold: small(given, "min_threshold", &MIN_THRESHOLD),
        max_threshold: small(given, "max_threshold", &MAX_THRESHOLD),
        bucket_low: hundredths(given, "bucket_low", &BUCKET_LOW),
        bucket_high: hundredths(given, "bucket_high", &BUCKET_HIGH),
        min_sstable_size: suboption_number(given, "min_sstable_size", &MIN_SSTABLE_SIZE),
        sstable_size_in_mb: small(given, "sstable_size_in_mb", &SSTABLE_SIZE_IN_MB),
        fanout_size: small(given, "fanout_size", &FANOUT_SIZE),
        unit: unit_given(given),
        window: small(given, "compaction_window_size", &COMPACTION_WINDOW_SIZE),
    }
}
