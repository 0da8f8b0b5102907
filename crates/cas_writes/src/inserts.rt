//! Plain INSERTs, told to be so and bound at the same time, so that each name is looked up once.

ghost use Rattle.std.specs.Prelude.{◌≡◌, ◌++◌, true, None, Some, map, IfOk, OnOk};
ghost use Rattle.std.specs.Option.{IfSome};
ghost use Rattle.std.specs.List.{flat_map, zip};
ghost use Rattle.cas_types.specs.Limits.{IsNarrow};
ghost use Rattle.cas_effects.specs.Refusals.{refusal_for};
ghost use Rattle.cas_keys.specs.KeyTerms.{partition_key};
ghost use Rattle.cas_mentions.specs.Mentions.{inserted};
ghost use Rattle.cas_reasons.specs.Inner.PlainInserts.{fits_named, all_fit};
ghost use Rattle.cas_reasons.specs.RowReasons.{row_reasons};
ghost use Rattle.cas_reasons.specs.Statements.{key_terms_of};
ghost use Rattle.cas_terms.specs.Columns.{located};
ghost use Rattle.cas_writes.specs.Changes.{change_effects, effects_of};
ghost use Rattle.cql_parse.specs.declared.syntax.Statement.TheVariants as statements;

use crate::effects::{USUAL, clustered_row, whole_effect, with_live};
use crate::unbound::Unbound;
use cas_bounds::Clustering;
use cas_effects::Effect;
use cas_reasons::{inserts_static, is_plain_insert};
use cas_terms::{located, term_fits};
use cas_types::{Bytes, Column, List, TableSchema, Text};
use cas_where::{KeyTerms, partition_key};
use cql_parse::{Insert, Term};
use std::alloc::Global;

// The column of that name, which can be given the term, with its number.
fn fitting<'a>(columns: &'a [Column], name: &str, term: &Term) -> Option<(u16, &'a Column)>
    requires { IsNarrow columns.now }
    ensures there { IfSome result (λ p. located columns.now name.now ≡ Some (p.0, p.1.now)) }
    ensures fits { IfSome result (λ p. fits_named columns.now name.now term.now ≡ true) }
{
    match located(columns, name) {
        None => None,
        Some((number, column)) => {
            if term_fits(column, term) {
                Some((number, column))
            } else {
                None
            }
        }
    }
}

#[tactic(auto, unfolding(crate::specs::Changes::change_effects, crate::specs::Changes::column_effect, crate::specs::Changes::assigned_effect))]
fn push_fitting(
    alloc: Global,
    columns: &[Column],
    row: &Clustering,
    name: &str,
    term: &Term,
    effects: &mut Vec<Effect>,
) -> Result<(), Unbound>
    requires { IsNarrow columns.now }
    ensures fits { OnOk result (fits_named columns.now name.now term.now ≡ true) }
    ensures pushes { OnOk result (effects.new.items ≡ effects.old.items ++ change_effects columns.now row.now (inserted (name.now, term.now))) }
{
    match fitting(columns, name, term) {
        None => Err(Unbound),
        Some((number, column)) => {
            if column.kind.is_key() {
                return Ok(());
            }
            effects.push(whole_effect(alloc, row, number, column, term)?)?;
            Ok(())
        }
    }
}

fn push_all_fitting(
    alloc: Global,
    columns: &[Column],
    row: &Clustering,
    names: &[Text],
    terms: &[Term],
    effects: &mut Vec<Effect>,
) -> Result<(), Unbound>
    requires { IsNarrow columns.now }
    ensures fits { OnOk result (all_fit columns.now names.now terms.now ≡ true) }
    ensures pushes { OnOk result (effects.new.items ≡ effects.old.items ++ flat_map (change_effects columns.now row.now) (map inserted (zip names.now terms.now))) }
{
    match (names, terms) {
        ([name, names @ ..], [term, terms @ ..]) => {
            push_fitting(alloc, columns, row, name.as_str(), term, effects)?;
            push_all_fitting(alloc, columns, row, names, terms, effects)
        }
        ([], []) => Ok(()),
        ([], [_term, _terms @ ..]) => Err(Unbound),
        ([_name, _names @ ..], []) => Err(Unbound),
    }
}

// The effects of the INSERT, where each of its values fits the column beside whose name it stands.
#[tactic(auto, using(crate::proofs::PlainLemmas::inserted_effects))]
fn fitting_effects(
    alloc: Global,
    columns: &[Column],
    insert: &Insert,
) -> Result<List<Effect>, Unbound>
    requires { IsNarrow columns.now }
    ensures fits { OnOk result (all_fit columns.now insert.now.columns insert.now.values ≡ true) }
    ensures effects { IfOk result (λ v. v ≡ effects_of columns.now (statements.Insert insert.now)) }
{
    let names = insert.columns.as_slice();
    let terms = insert.values.as_slice();
    let row = clustered_row(alloc, KeyTerms::Insert(names, terms), columns)?;
    let mut effects = Vec::with_capacity(alloc, USUAL)?;
    push_all_fitting(alloc, columns, &row, names, terms, &mut effects)?;
    let effects = with_live(inserts_static(columns, names), row, effects)?;
    Ok(List::from_vec(effects))
}

// The partition key and the effects of a plain INSERT.
#[tactic(auto, using(crate::proofs::PlainLemmas::insert_terms))]
fn fitting_parts(
    alloc: Global,
    columns: &[Column],
    insert: &Insert,
) -> Result<(Bytes, List<Effect>), Unbound>
    requires { IsNarrow columns.now }
    ensures fits { OnOk result (all_fit columns.now insert.now.columns insert.now.values ≡ true) }
    ensures key { IfOk result (λ p. p.0 ≡ partition_key (key_terms_of (statements.Insert insert.now)) columns.now) }
    ensures effects { IfOk result (λ p. p.1 ≡ effects_of columns.now (statements.Insert insert.now)) }
{
    let terms = KeyTerms::Insert(insert.columns.as_slice(), insert.values.as_slice());
    match partition_key(alloc, terms, columns) {
        Ok(key) => Ok((key, fitting_effects(alloc, columns, insert)?)),
        Err(_) => Err(Unbound),
    }
}

/// The partition key and the effects of the INSERT, where it is a plain one and its values fit: there is nothing
/// then that it would be refused for but what is too large.
#[tactic(auto, using(crate::proofs::PlainLemmas::plain_is_done))]
pub(crate) fn plain_parts(
    alloc: Global,
    table: &TableSchema,
    insert: &Insert,
) -> Result<(Bytes, List<Effect>), Unbound>
    requires { IsNarrow table.now.columns }
    ensures good { OnOk result (refusal_for (row_reasons table.now None (statements.Insert insert.now)) ≡ None) }
    ensures key { IfOk result (λ p. p.0 ≡ partition_key (key_terms_of (statements.Insert insert.now)) table.now.columns) }
    ensures effects { IfOk result (λ p. p.1 ≡ effects_of table.now.columns (statements.Insert insert.now)) }
{
    let columns = table.columns.as_slice();
    if is_plain_insert(alloc, columns, insert)? {
        return fitting_parts(alloc, columns, insert);
    }
    Err(Unbound)
}
