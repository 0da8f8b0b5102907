//! The suboptions of compaction.

ghost use Rattle.std.specs.Prelude.{◌≡◌, ◌≤◌, ◌<◌, ◌^◌, codes};
ghost use Rattle.std.specs.Option.{option_copied};
ghost use Rattle.std.specs.List.{list_all, list_any};
ghost use Rattle.cas_types.specs.declared.schema.Unit.TheVariants as unit;
ghost use Rattle.cas_options.specs.Settings.{value_or, is_readable, unit_setting, strategy_setting};
ghost use Rattle.cas_options.specs.Options.{is_keyed, suboption_named, suboption_number, suboption_fits, strategy_given, sized_names, is_suboption};
ghost use Rattle.cas_options.specs.Options.{thresholds_fit, sized_fit, leveled_fit, window_fits, compaction_fits};

use crate::ranges::{
    BUCKET_HIGH, BUCKET_LOW, COMPACTION_WINDOW_SIZE, FANOUT_SIZE, MAX_THRESHOLD, MIN_SSTABLE_SIZE,
    MIN_THRESHOLD, OptionRange, SSTABLE_SIZE_IN_MB,
};
use crate::settings::{number_setting, strategy_setting, unit_setting};
use cas_terms::same_name;
use cas_types::{Strategy, Unit};
use cql_parse::{Setting, Suboption};

#[tactic(auto, unfolding(crate::specs::Options::is_keyed))]
fn is_keyed(name: &str, key: &Setting) -> bool
    ensures { result ≡ is_keyed name.now key.now }
{
    match key {
        Setting::Text(text) => same_name(text.as_str(), name),
        _ => false,
    }
}

#[tactic(auto, unfolding(crate::specs::Options::suboption_named))]
fn suboption_named<'a>(name: &str, given: &'a [Suboption]) -> Option<&'a Setting>
    ensures { option_copied result ≡ suboption_named name.now given.now }
{
    match given.iter().rev().find(|s| is_keyed(name, &s.key)) {
        Some(suboption) => Some(&suboption.value),
        None => None,
    }
}

/// The number that a suboption is.
#[tactic(auto, unfolding(crate::specs::Options::suboption_number))]
pub(crate) fn suboption_number(given: &[Suboption], name: &str, range: &OptionRange) -> u64
    requires { range.now.default ≤ range.now.greatest }
    ensures number { result ≡ suboption_number given.now name.now range.now }
    ensures within { result ≤ range.now.greatest }
{
    match suboption_named(name, given) {
        Some(setting) => number_setting(range, setting).unwrap_or(range.default),
        None => range.default,
    }
}

#[tactic(auto, unfolding(crate::specs::Options::suboption_fits))]
fn suboption_fits(given: &[Suboption], name: &str, range: &OptionRange) -> bool
    ensures { result ≡ suboption_fits given.now name.now range.now }
{
    match suboption_named(name, given) {
        Some(setting) => number_setting(range, setting).is_some(),
        None => true,
    }
}

fn unit_fits(given: &[Suboption]) -> bool
    ensures { result ≡ is_readable unit_setting (suboption_named (codes "compaction_window_unit") given.now) }
{
    match suboption_named("compaction_window_unit", given) {
        Some(setting) => unit_setting(setting).is_some(),
        None => true,
    }
}

fn class_fits(given: &[Suboption]) -> bool
    ensures { result ≡ is_readable strategy_setting (suboption_named (codes "class") given.now) }
{
    match suboption_named("class", given) {
        Some(setting) => strategy_setting(setting).is_some(),
        None => true,
    }
}

/// The unit of `compaction_window_unit`.
pub(crate) fn unit_given(given: &[Suboption]) -> Unit
    ensures { result ≡ value_or unit_setting unit.Days (suboption_named (codes "compaction_window_unit") given.now) }
{
    match suboption_named("compaction_window_unit", given) {
        Some(setting) => unit_setting(setting).unwrap_or(Unit::Days),
        None => Unit::Days,
    }
}

/// The strategy of `class`.
pub(crate) fn strategy_given(given: &[Suboption]) -> Strategy
    ensures { result ≡ strategy_given given.now }
{
    match suboption_named("class", given) {
        Some(setting) => strategy_setting(setting).unwrap_or(Strategy::SizeTiered),
        None => Strategy::SizeTiered,
    }
}

fn is_sized(key: &Setting) -> bool
    ensures { result ≡ list_any (λ n. is_keyed n key.now) sized_names }
{
    is_keyed("class", key)
        || (is_keyed("min_threshold", key)
            || (is_keyed("max_threshold", key)
                || (is_keyed("bucket_low", key)
                    || (is_keyed("bucket_high", key) || is_keyed("min_sstable_size", key)))))
}

#[tactic(auto, unfolding(crate::specs::Options::is_suboption))]
fn is_suboption(strategy: Strategy, key: &Setting) -> bool
    ensures { result ≡ is_suboption strategy key.now }
{
    match strategy {
        Strategy::SizeTiered => is_sized(key),
        Strategy::Leveled => {
            is_keyed("class", key)
                || is_keyed("sstable_size_in_mb", key)
                || is_keyed("fanout_size", key)
        }
        Strategy::TimeWindow => {
            is_sized(key)
                || is_keyed("compaction_window_unit", key)
                || is_keyed("compaction_window_size", key)
        }
    }
}

fn are_suboptions(strategy: Strategy, given: &[Suboption]) -> bool
    ensures { result ≡ list_all (λ o. is_suboption strategy o.key) given.now }
{
    given.iter().all(|s| is_suboption(strategy, &s.key))
}

#[tactic(auto, unfolding(crate::specs::Options::thresholds_fit))]
fn thresholds_fit(given: &[Suboption]) -> bool
    ensures { result ≡ thresholds_fit given.now }
{
    suboption_fits(given, "min_threshold", &MIN_THRESHOLD)
        && (suboption_fits(given, "max_threshold", &MAX_THRESHOLD)
            && suboption_number(given, "min_threshold", &MIN_THRESHOLD)
                <= suboption_number(given, "max_threshold", &MAX_THRESHOLD))
}

#[tactic(auto, unfolding(crate::specs::Options::sized_fit))]
fn sized_fit(given: &[Suboption]) -> bool
    ensures { result ≡ sized_fit given.now }
{
    thresholds_fit(given)
        && (suboption_fits(given, "bucket_low", &BUCKET_LOW)
            && (suboption_fits(given, "bucket_high", &BUCKET_HIGH)
                && suboption_fits(given, "min_sstable_size", &MIN_SSTABLE_SIZE)))
}

#[tactic(auto, unfolding(crate::specs::Options::leveled_fit))]
fn leveled_fit(given: &[Suboption]) -> bool
    ensures { result ≡ leveled_fit given.now }
{
    suboption_fits(given, "sstable_size_in_mb", &SSTABLE_SIZE_IN_MB)
        && suboption_fits(given, "fanout_size", &FANOUT_SIZE)
}

#[tactic(auto, unfolding(crate::specs::Options::window_fits))]
fn window_fits(given: &[Suboption]) -> bool
    ensures { result ≡ window_fits given.now }
{
    suboption_fits(given, "compaction_window_size", &COMPACTION_WINDOW_SIZE) && unit_fits(given)
}

/// Whether compaction can have what it is given.
#[tactic(auto, unfolding(crate::specs::Options::compaction_fits))]
pub(crate) fn compaction_fits(given: &[Suboption]) -> bool
    ensures { result ≡ compaction_fits given.now }
{
    class_fits(given)
        && (are_suboptions(strategy_given(given), given)
            && (sized_fit(given) && (leveled_fit(given) && window_fits(given))))
}
