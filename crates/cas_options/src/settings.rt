//! The values of compaction's suboptions.

ghost use Rattle.std.specs.Prelude.{◌≡◌, ◌≤◌, pos, ◌*ℤ◌, option_map, IfSome};
ghost use Rattle.std.specs.Option.{option_and_then, option_or};
ghost use Rattle.cql_lex.specs.Numbers.{number_value, ratio_value};
ghost use Rattle.cas_options.specs.Settings.{number_in_range, whole_setting, ratio_setting, number_setting, unit_setting, strategy_setting};

use crate::ranges::OptionRange;
use cas_terms::is_in_range;
use cas_types::{Strategy, Unit};
use cql_lex::{number_of, ratio_of};
use cql_parse::Setting;

/// The number, where it is in the range.
#[tactic(auto, unfolding(crate::specs::Settings::number_in_range))]
pub(crate) fn number_in_range(range: &OptionRange, number: i128) -> Option<u64>
    ensures number { result ≡ number_in_range range.now number }
    ensures within { IfSome result (λ n. n ≤ range.now.greatest) }
{
    if is_in_range(i128::from(range.least), i128::from(range.greatest), number) {
        Some(number.unsigned_abs() as u64)
    } else {
        None
    }
}

#[tactic(auto, unfolding(crate::specs::Settings::whole_setting))]
fn whole_setting(setting: &Setting) -> Option<i128>
    ensures { result ≡ whole_setting setting.now }
{
    match setting {
        Setting::Text(text) => number_of(text.as_str().as_bytes()),
        Setting::Number(number) => Some(*number),
        Setting::Ratio(_) => None,
    }
}

/// A whole number, where its hundredths are in the range.
#[tactic(auto, unfolding(crate::specs::Settings::number_in_range))]
fn hundreds_in_range(range: &OptionRange, number: i128) -> Option<u64>
    ensures number { result ≡ number_in_range range.now (number *ℤ pos 100) }
    ensures within { IfSome result (λ n. n ≤ range.now.greatest) }
{
    if is_in_range(0, i128::from(u64::MAX), number) {
        number_in_range(range, number * 100)
    } else {
        None
    }
}

fn spelled_in_range(range: &OptionRange, text: &[u8]) -> Option<u64>
    ensures number { result ≡ option_and_then (number_in_range range.now)
        (option_or (ratio_value text.now) (option_map (λ n. n *ℤ pos 100) (number_value text.now))) }
    ensures within { IfSome result (λ n. n ≤ range.now.greatest) }
{
    match ratio_of(text) {
        Some(ratio) => number_in_range(range, ratio),
        None => hundreds_in_range(range, number_of(text)?),
    }
}

#[tactic(auto, unfolding(crate::specs::Settings::ratio_setting))]
fn ratio_in_range(range: &OptionRange, setting: &Setting) -> Option<u64>
    ensures number { result ≡ option_and_then (number_in_range range.now) (ratio_setting setting.now) }
    ensures within { IfSome result (λ n. n ≤ range.now.greatest) }
{
    match setting {
        Setting::Text(text) => spelled_in_range(range, text.as_str().as_bytes()),
        Setting::Number(number) => hundreds_in_range(range, *number),
        Setting::Ratio(ratio) => number_in_range(range, *ratio),
    }
}

/// The number that the setting is, where it is in the range.
#[tactic(auto, unfolding(crate::specs::Settings::number_setting))]
pub(crate) fn number_setting(range: &OptionRange, setting: &Setting) -> Option<u64>
    ensures number { result ≡ number_setting range.now setting.now }
    ensures within { IfSome result (λ n. n ≤ range.now.greatest) }
{
    if range.is_ratio {
        ratio_in_range(range, setting)
    } else {
        number_in_range(range, whole_setting(setting)?)
    }
}

/// The unit that the setting is.
#[tactic(auto, unfolding(crate::specs::Settings::unit_setting))]
pub(crate) fn unit_setting(setting: &Setting) -> Option<Unit>
    ensures { result ≡ unit_setting setting.now }
{
    match setting {
        Setting::Text(text) => match text.as_str() {
            "MINUTES" => Some(Unit::Minutes),
            "HOURS" => Some(Unit::Hours),
            "DAYS" => Some(Unit::Days),
            _ => None,
        },
        _ => None,
    }
}

/// The strategy that the setting is.
#[tactic(auto, unfolding(crate::specs::Settings::strategy_setting))]
pub(crate) fn strategy_setting(setting: &Setting) -> Option<Strategy>
    ensures { result ≡ strategy_setting setting.now }
{
    match setting {
        Setting::Text(text) => match text.as_str() {
            "SizeTieredCompactionStrategy"
            | "org.apache.cassandra.db.compaction.SizeTieredCompactionStrategy" => {
                Some(Strategy::SizeTiered)
            }
            "LeveledCompactionStrategy"
            | "org.apache.cassandra.db.compaction.LeveledCompactionStrategy" => {
                Some(Strategy::Leveled)
            }
            "TimeWindowCompactionStrategy"
            | "org.apache.cassandra.db.compaction.TimeWindowCompactionStrategy" => {
                Some(Strategy::TimeWindow)
            }
            _ => None,
        },
        _ => None,
    }
}
