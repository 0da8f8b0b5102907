//! The parts of a statement that speak of columns.

ghost use Rattle.std.specs.Prelude.{◌≡◌};
ghost use Rattle.cas_mentions.specs.ColumnFaults.{has_other_count};
ghost use Rattle.cas_mentions.specs.Mentions.{relations_of, picks_in, shown_by, picked_name};

use cql_parse::{Pick, Picks, Relation, Statement};

/// The restrictions of the statement's WHERE.
#[tactic(auto, unfolding(crate::specs::Mentions::relations_of))]
pub fn relations_of(statement: &Statement) -> &[Relation]
    ensures { result.now ≡ relations_of statement.now }
{
    match statement {
        Statement::Update(update) => update.relations.as_slice(),
        Statement::Delete(delete) => delete.relations.as_slice(),
        Statement::Select(select) => select.relations.as_slice(),
        Statement::Create(_) | Statement::Alter(_) | Statement::Insert(_) => &[],
    }
}

/// What a SELECT names to be shown.
#[tactic(auto, unfolding(crate::specs::Mentions::picks_in))]
pub fn picks_in(picks: &Picks) -> &[Pick]
    ensures { result.now ≡ picks_in picks.now }
{
    match picks {
        Picks::All => &[],
        Picks::These(picks) => picks.as_slice(),
    }
}

/// What the statement shows of columns.
#[tactic(auto, unfolding(crate::specs::Mentions::shown_by))]
pub fn shown_by(statement: &Statement) -> &[Pick]
    ensures { result.now ≡ shown_by statement.now }
{
    match statement {
        Statement::Select(select) => picks_in(&select.picks),
        Statement::Create(_)
        | Statement::Alter(_)
        | Statement::Insert(_)
        | Statement::Update(_)
        | Statement::Delete(_) => &[],
    }
}

/// The name of the column of which something is shown.
#[tactic(auto, unfolding(crate::specs::Mentions::picked_name))]
pub fn picked_name(pick: &Pick) -> &str
    ensures { result.now ≡ picked_name pick.now }
{
    match pick {
        Pick::Value(name) => name.as_str(),
        Pick::WriteTime(name) => name.as_str(),
        Pick::Ttl(name) => name.as_str(),
    }
}

/// Whether it is an INSERT of more or fewer values than columns.
#[tactic(auto, unfolding(crate::specs::ColumnFaults::has_other_count))]
pub fn has_other_count(statement: &Statement) -> bool
    ensures { result ≡ has_other_count statement.now }
{
    match statement {
        Statement::Insert(insert) => insert.columns.len() != insert.values.len(),
        Statement::Create(_)
        | Statement::Alter(_)
        | Statement::Update(_)
        | Statement::Delete(_)
        | Statement::Select(_) => false,
    }
}
