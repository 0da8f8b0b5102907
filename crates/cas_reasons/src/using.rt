//! USING TIMESTAMP and USING TTL, and numbers that have a range.

ghost use Rattle.std.specs.Prelude.{◌≡◌, ◌<◌, ◌||◌, pos, length, false, unwrap_or, option_map, unsigned_abs};
ghost use Rattle.std.specs.List.{filter_map};
ghost use Rattle.cas_types.specs.declared.limits.TheConstants.{LEAST_TIMESTAMP, GREATEST_TIMESTAMP, ROW_LIMIT, TTL_LIMIT};
ghost use Rattle.cas_reasons.specs.RowFaults.{uses_twice, is_outside};
ghost use Rattle.cas_reasons.specs.Statements.{timestamp_of, ttl_of, uses_of, timestamp_in, ttl_in};

use cas_terms::is_in_range;
use cql_parse::{Statement, Use};

#[tactic(auto, unfolding(crate::specs::Statements::timestamp_of))]
fn timestamp_of(one: &Use) -> Option<i128>
    ensures { result ≡ timestamp_of one.now }
{
    match one {
        Use::Timestamp(at) => Some(*at),
        Use::Ttl(_) => None,
    }
}

#[tactic(auto, unfolding(crate::specs::Statements::ttl_of))]
fn ttl_of(one: &Use) -> Option<i128>
    ensures { result ≡ ttl_of one.now }
{
    match one {
        Use::Timestamp(_) => None,
        Use::Ttl(seconds) => Some(*seconds),
    }
}

fn count_timestamps(uses: &[Use]) -> usize
    ensures { result ≡ length (filter_map timestamp_of uses.now) }
{
    uses.iter().filter_map(|u| timestamp_of(u)).count()
}

fn count_ttls(uses: &[Use]) -> usize
    ensures { result ≡ length (filter_map ttl_of uses.now) }
{
    uses.iter().filter_map(|u| ttl_of(u)).count()
}

#[tactic(auto, unfolding(crate::specs::RowFaults::uses_twice))]
fn uses_twice(uses: &[Use]) -> bool
    ensures { result ≡ uses_twice uses.now }
{
    count_timestamps(uses) > 1 || count_ttls(uses) > 1
}

#[tactic(auto, unfolding(crate::specs::Statements::timestamp_in))]
fn timestamp_in(uses: &[Use]) -> Option<i128>
    ensures { result ≡ timestamp_in uses.now }
{
    match uses {
        [] => None,
        [one, rest @ ..] => match timestamp_of(one) {
            Some(given) => Some(given),
            None => timestamp_in(rest),
        },
    }
}

#[tactic(auto, unfolding(crate::specs::Statements::ttl_in))]
fn ttl_in(uses: &[Use]) -> Option<i128>
    ensures { result ≡ ttl_in uses.now }
{
    match uses {
        [] => None,
        [one, rest @ ..] => match ttl_of(one) {
            Some(given) => Some(given),
            None => ttl_in(rest),
        },
    }
}

/// Whether TIMESTAMP or TTL stands twice.
#[tactic(auto, using(crate::proofs::UsingLemmas::deleted_once), unfolding(crate::specs::Statements::uses_of, crate::specs::RowFaults::uses_twice))]
pub(crate) fn has_use_twice(statement: &Statement) -> bool
    ensures { result ≡ uses_twice (uses_of statement.now) }
{
    match statement {
        Statement::Insert(insert) => uses_twice(insert.uses.as_slice()),
        Statement::Update(update) => uses_twice(update.uses.as_slice()),
        Statement::Delete(_) => false,
        Statement::Create(_) | Statement::Alter(_) | Statement::Select(_) => false,
    }
}

/// The number of USING TIMESTAMP.
#[tactic(auto, using(crate::proofs::UsingLemmas::deleted_at), unfolding(crate::specs::Statements::uses_of, crate::specs::Statements::timestamp_in))]
pub fn stated_timestamp(statement: &Statement) -> Option<i128>
    ensures { result ≡ timestamp_in (uses_of statement.now) }
{
    match statement {
        Statement::Insert(insert) => timestamp_in(insert.uses.as_slice()),
        Statement::Update(update) => timestamp_in(update.uses.as_slice()),
        Statement::Delete(delete) => delete.timestamp,
        Statement::Create(_) | Statement::Alter(_) | Statement::Select(_) => None,
    }
}

/// The number of USING TTL.
#[tactic(auto, using(crate::proofs::UsingLemmas::deleted_for_ever), unfolding(crate::specs::Statements::uses_of, crate::specs::Statements::ttl_in))]
pub fn stated_ttl(statement: &Statement) -> Option<i128>
    ensures { result ≡ ttl_in (uses_of statement.now) }
{
    match statement {
        Statement::Insert(insert) => ttl_in(insert.uses.as_slice()),
        Statement::Update(update) => ttl_in(update.uses.as_slice()),
        Statement::Delete(_) => None,
        Statement::Create(_) | Statement::Alter(_) | Statement::Select(_) => None,
    }
}

/// Whether there is a number that isn't between the two.
#[tactic(auto, unfolding(crate::specs::RowFaults::is_outside))]
pub(crate) fn is_outside(least: i128, greatest: i128, number: Option<i128>) -> bool
    ensures { result ≡ is_outside least greatest number }
{
    match number {
        Some(number) => !is_in_range(least, greatest, number),
        None => false,
    }
}

/// The timestamp, which is in range.
#[tactic(auto, unfolding(crate::specs::RowFaults::is_outside))]
pub fn timestamp_in_range(at: Option<i128>) -> Option<i64>
    requires { is_outside LEAST_TIMESTAMP GREATEST_TIMESTAMP at ≡ false }
    ensures { result ≡ at }
{
    match at {
        Some(at) => Some(at as i64),
        None => None,
    }
}

/// The seconds of a TTL, which is in range, or the default where there is none.
#[tactic(auto, unfolding(crate::specs::RowFaults::is_outside))]
pub fn ttl_or(default: u32, ttl: Option<i128>) -> u32
    requires { is_outside (pos 0) (pos TTL_LIMIT) ttl ≡ false }
    ensures { result ≡ unwrap_or (option_map unsigned_abs ttl) default }
{
    match ttl {
        Some(ttl) => ttl as u32,
        None => default,
    }
}

/// The number of rows that a LIMIT, which is in range, leaves at most.
#[tactic(auto, unfolding(crate::specs::RowFaults::is_outside))]
pub fn row_limit(limit: Option<i128>) -> Option<u32>
    requires { is_outside (pos 1) (pos ROW_LIMIT) limit ≡ false }
    ensures { result ≡ option_map unsigned_abs limit }
{
    match limit {
        Some(limit) => Some(limit as u32),
        None => None,
    }
}
