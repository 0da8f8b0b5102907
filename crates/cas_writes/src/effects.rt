//! What INSERT, UPDATE and DELETE do to rows and columns.

ghost use Rattle.std.specs.Prelude.{◌≡◌, ◌++◌, [], map, IfOk, OnOk};
ghost use Rattle.std.specs.List.{flat_map, zip};
ghost use Rattle.cas_types.specs.Limits.{IsNarrow};
ghost use Rattle.cas_keys.specs.Inner.Sources.{terms_of};
ghost use Rattle.cas_keys.specs.KeyTerms.{in_front, value_in, prefix_values};
ghost use Rattle.cas_effects.specs.declared.effect.Effect.TheVariants as effects;
ghost use Rattle.cas_terms.specs.Columns.{column_ref, clustering_columns};
ghost use Rattle.cas_writes.specs.Changes.{row_for, whole_effect, assigned_effect, deleted_effect, column_effect, change_effects};
ghost use Rattle.cas_writes.specs.Changes.{clustered_row, deletion_effect, live_effect, deletion_effects, row_effects, effects_of};
ghost use Rattle.cas_mentions.specs.Inner.Borrowed.{change_in};
ghost use Rattle.cas_mentions.specs.Mentions.{assigns, deletes, inserted, changes_of};
ghost use Rattle.cas_reasons.specs.Statements.{key_terms_of};

use cas_bounds::{Clustering, Values, clustering_order};
use cas_effects::{Effect, Elements};
use cas_keys::{sole_clustering, value_in};
use cas_reasons::{RowChange, inserts_static, key_terms_of};
use cas_terms::{
    column_ref, constant_bytes, entry_elements, given_elements, located, prepended_elements,
    removed_elements, term_value, whole_elements,
};
use cas_types::{Column, List, Text};
use cas_where::{KeyTerms, is_clustering_fixed, is_clustering_free, prefix_values, slice_of};
use cql_parse::{Assigned, Assignment, Constant, Relation, Statement, Target, Term};
use std::alloc::{AllocError, Global};
use std::mem::drop;

/// Room for the effects of most statements.
pub(crate) const USUAL: usize = 4;

// The value of the only clustering column, if there is one.
fn sole_value(alloc: Global, terms: KeyTerms<'_>, column: &Column) -> Result<Values, AllocError>
    ensures { IfOk result (λ v. v ≡ in_front (value_in (terms_of terms.entry) column.now) []) }
{
    match value_in(alloc, terms, column)? {
        Some(value) => Ok(Values::one(value)),
        None => Ok(Values::from_vec(Vec::new(alloc))),
    }
}

// The values of the clustering columns. That of a sole one isn't put into a list first.
#[tactic(auto, using(crate::proofs::EffectLemmas::sole_prefix))]
fn row_values(alloc: Global, terms: KeyTerms<'_>, columns: &[Column]) -> Result<Values, AllocError>
    ensures { IfOk result (λ v. v ≡ prefix_values (terms_of terms.entry) (clustering_columns columns.now)) }
{
    match sole_clustering(columns) {
        Some(column) => sole_value(alloc, terms, column),
        None => Ok(Values::from_vec(prefix_values(alloc, terms, columns)?)),
    }
}

/// The row with the values of the clustering columns.
pub(crate) fn clustered_row(
    alloc: Global,
    terms: KeyTerms<'_>,
    columns: &[Column],
) -> Result<Clustering, AllocError>
    ensures { IfOk result (λ r. r ≡ clustered_row (terms_of terms.entry) columns.now) }
{
    Ok(Clustering {
        values: row_values(alloc, terms, columns)?,
        order: clustering_order(alloc, columns)?,
    })
}

fn row_for(row: &Clustering, column: &Column) -> Result<Option<Clustering>, AllocError>
    ensures { IfOk result (λ r. r ≡ row_for row.now column.now) }
{
    if column.kind.is_static() {
        Ok(None)
    } else {
        Ok(Some(row.copied()?))
    }
}

#[tactic(auto, unfolding(crate::specs::Changes::whole_effect))]
pub(crate) fn whole_effect(
    alloc: Global,
    row: &Clustering,
    number: u16,
    column: &Column,
    term: &Term,
) -> Result<Effect, AllocError>
    ensures { IfOk result (λ e. e ≡ whole_effect row.now number column.now term.now) }
{
    let place = row_for(row, column)?;
    let named = column_ref(number, column);
    if column.shape.is_plain() {
        let value = term_value(alloc, column.tag, term)?;
        Ok(Effect::Plain(place, named, value))
    } else {
        let elements = whole_elements(alloc, column, term)?;
        Ok(Effect::Whole(place, named, elements))
    }
}

// These elements are written beside those that are there.
fn parts_effect(
    row: &Clustering,
    number: u16,
    column: &Column,
    elements: Elements,
) -> Result<Effect, AllocError>
    ensures { IfOk result (λ e. e ≡ effects.Parts (row_for row.now column.now) (column_ref number column.now) elements) }
{
    match row_for(row, column) {
        Ok(place) => Ok(Effect::Parts(place, column_ref(number, column), elements)),
        Err(fault) => {
            drop(elements);
            Err(fault)
        }
    }
}

#[tactic(auto, unfolding(crate::specs::Changes::assigned_effect))]
fn assigned_effect(
    alloc: Global,
    row: &Clustering,
    number: u16,
    column: &Column,
    value: &Assigned,
) -> Result<Effect, AllocError>
    ensures { IfOk result (λ e. e ≡ assigned_effect row.now number column.now value.now) }
{
    match value {
        Assigned::Whole(term) => whole_effect(alloc, row, number, column, term),
        Assigned::Append(_, literal) => {
            let elements = given_elements(alloc, column, literal)?;
            parts_effect(row, number, column, elements)
        }
        Assigned::Prepend(literal, _) => {
            let elements = prepended_elements(alloc, column.tag, literal)?;
            parts_effect(row, number, column, elements)
        }
        Assigned::Remove(_, literal) => {
            let elements = removed_elements(alloc, column.tag, literal)?;
            parts_effect(row, number, column, elements)
        }
        Assigned::Entry(key, term) => {
            let key = constant_bytes(alloc, column.tag, key)?;
            let value = term_value(alloc, column.value_type(), term)?;
            let elements = entry_elements(alloc, key, value)?;
            parts_effect(row, number, column, elements)
        }
    }
}

#[tactic(auto, unfolding(crate::specs::Changes::deleted_effect))]
fn deleted_effect(
    alloc: Global,
    row: &Clustering,
    number: u16,
    column: &Column,
    key: &Option<Constant>,
) -> Result<Effect, AllocError>
    ensures { IfOk result (λ e. e ≡ deleted_effect row.now number column.now key.now) }
{
    let place = row_for(row, column)?;
    let named = column_ref(number, column);
    match key {
        Some(key) => {
            let key = constant_bytes(alloc, column.tag, key)?;
            Ok(Effect::Parts(place, named, entry_elements(alloc, key, None)?))
        }
        None => {
            if column.shape.is_plain() {
                Ok(Effect::Plain(place, named, None))
            } else {
                Ok(Effect::Emptied(place, named))
            }
        }
    }
}

#[tactic(auto, unfolding(crate::specs::Changes::column_effect, crate::specs::Changes::assigned_effect))]
fn column_effect(
    alloc: Global,
    row: &Clustering,
    number: u16,
    column: &Column,
    change: RowChange<'_>,
) -> Result<Effect, AllocError>
    ensures { IfOk result (λ e. e ≡ column_effect row.now number column.now (change_in change.entry)) }
{
    match change {
        RowChange::Insert(term) => whole_effect(alloc, row, number, column, term),
        RowChange::Assign(value) => assigned_effect(alloc, row, number, column, value),
        RowChange::Delete(key) => deleted_effect(alloc, row, number, column, key),
    }
}

#[tactic(auto, unfolding(crate::specs::Changes::change_effects))]
fn push_change(
    alloc: Global,
    columns: &[Column],
    row: &Clustering,
    name: &str,
    change: RowChange<'_>,
    effects: &mut Vec<Effect>,
) -> Result<(), AllocError>
    requires { IsNarrow columns.now }
    ensures { OnOk result (effects.new.items ≡ effects.old.items ++ change_effects columns.now row.now (name.now, change_in change.entry)) }
{
    match located(columns, name) {
        None => Ok(()),
        Some((number, column)) => {
            if column.kind.is_key() {
                return Ok(());
            }
            effects.push(column_effect(alloc, row, number, column, change)?)?;
            Ok(())
        }
    }
}

fn push_inserted(
    alloc: Global,
    columns: &[Column],
    row: &Clustering,
    names: &[Text],
    terms: &[Term],
    effects: &mut Vec<Effect>,
) -> Result<(), AllocError>
    requires { IsNarrow columns.now }
    ensures { OnOk result (effects.new.items ≡ effects.old.items ++ flat_map (change_effects columns.now row.now) (map inserted (zip names.now terms.now))) }
{
    match (names, terms) {
        ([name, names @ ..], [term, terms @ ..]) => {
            let change = RowChange::Insert(term);
            push_change(alloc, columns, row, name.as_str(), change, effects)?;
            push_inserted(alloc, columns, row, names, terms, effects)
        }
        ([], _) => Ok(()),
        ([_name, _names @ ..], []) => Ok(()),
    }
}

fn push_assigned(
    alloc: Global,
    columns: &[Column],
    row: &Clustering,
    assignments: &[Assignment],
    effects: &mut Vec<Effect>,
) -> Result<(), AllocError>
    requires { IsNarrow columns.now }
    ensures { OnOk result (effects.new.items
        ≡ effects.old.items ++ flat_map (λ a. change_effects columns.now row.now (a.column, assigns a.value)) assignments.now) }
{
    for assignment in assignments {
        let change = RowChange::Assign(&assignment.value);
        push_change(
            alloc,
            columns,
            row,
            assignment.column.as_str(),
            change,
            effects,
        )?;
    }
    Ok(())
}

fn push_deleted(
    alloc: Global,
    columns: &[Column],
    row: &Clustering,
    targets: &[Target],
    effects: &mut Vec<Effect>,
) -> Result<(), AllocError>
    requires { IsNarrow columns.now }
    ensures { OnOk result (effects.new.items ≡ effects.old.items ++ flat_map (λ t. change_effects columns.now row.now (t.column, deletes t.key)) targets.now) }
{
    for target in targets {
        let change = RowChange::Delete(&target.key);
        push_change(alloc, columns, row, target.column.as_str(), change, effects)?;
    }
    Ok(())
}

#[tactic(auto, using(crate::proofs::EffectLemmas::changed_steps))]
fn push_changes(
    alloc: Global,
    columns: &[Column],
    row: &Clustering,
    statement: &Statement,
    effects: &mut Vec<Effect>,
) -> Result<(), AllocError>
    requires { IsNarrow columns.now }
    ensures { OnOk result (effects.new.items ≡ effects.old.items ++ flat_map (change_effects columns.now row.now) (changes_of statement.now)) }
{
    match statement {
        Statement::Insert(insert) => push_inserted(
            alloc,
            columns,
            row,
            insert.columns.as_slice(),
            insert.values.as_slice(),
            effects,
        ),
        Statement::Update(update) => {
            push_assigned(alloc, columns, row, update.assignments.as_slice(), effects)
        }
        Statement::Delete(delete) => {
            push_deleted(alloc, columns, row, delete.targets.as_slice(), effects)
        }
        Statement::Create(_) => Ok(()),
        Statement::Alter(_) => Ok(()),
        Statement::Select(_) => Ok(()),
    }
}

#[tactic(auto, unfolding(crate::specs::Changes::deletion_effect))]
fn deletion_effect(
    alloc: Global,
    columns: &[Column],
    relations: &[Relation],
) -> Result<Effect, AllocError>
    ensures { IfOk result (λ e. e ≡ deletion_effect columns.now relations.now) }
{
    if is_clustering_free(relations, columns) {
        return Ok(Effect::Partition);
    }
    if is_clustering_fixed(relations, columns) {
        let row = clustered_row(alloc, KeyTerms::Where(relations), columns)?;
        return Ok(Effect::Row(row));
    }
    let slice = slice_of(alloc, columns, relations)?;
    Ok(Effect::Range(slice.lo, slice.hi))
}

pub(crate) fn with_live(
    is_static: bool,
    row: Clustering,
    effects: Vec<Effect>,
) -> Result<Vec<Effect>, AllocError>
    ensures { IfOk result (λ v. v.items ≡ live_effect is_static row ++ effects.items) }
{
    let mut effects = effects;
    if !is_static {
        effects.insert(0, Effect::Live(row))?;
    }
    Ok(effects)
}

fn with_deletion(
    alloc: Global,
    columns: &[Column],
    targets: &[Target],
    relations: &[Relation],
    effects: Vec<Effect>,
) -> Result<Vec<Effect>, AllocError>
    ensures { IfOk result (λ v. v.items ≡ deletion_effects targets.now (deletion_effect columns.now relations.now) ++ effects.items) }
{
    let mut effects = effects;
    match targets {
        [] => {
            effects.insert(0, deletion_effect(alloc, columns, relations)?)?;
            Ok(effects)
        }
        [_target, _more @ ..] => Ok(effects),
    }
}

#[tactic(auto, unfolding(crate::specs::Changes::row_effects))]
fn with_row_effects(
    alloc: Global,
    columns: &[Column],
    row: Clustering,
    statement: &Statement,
    effects: Vec<Effect>,
) -> Result<Vec<Effect>, AllocError>
    requires { row ≡ clustered_row (key_terms_of statement.now) columns.now }
    ensures { IfOk result (λ v. v.items ≡ row_effects columns.now statement.now ++ effects.items) }
{
    match statement {
        Statement::Insert(insert) => {
            let is_static = inserts_static(columns, insert.columns.as_slice());
            with_live(is_static, row, effects)
        }
        Statement::Delete(delete) => with_deletion(
            alloc,
            columns,
            delete.targets.as_slice(),
            delete.relations.as_slice(),
            effects,
        ),
        Statement::Create(_) => Ok(effects),
        Statement::Alter(_) => Ok(effects),
        Statement::Update(_) => Ok(effects),
        Statement::Select(_) => Ok(effects),
    }
}

/// What becomes of rows, then of each column in the order in which the statement changes them.
#[tactic(auto, unfolding(crate::specs::Changes::effects_of))]
pub(crate) fn effects_of(
    alloc: Global,
    columns: &[Column],
    statement: &Statement,
) -> Result<List<Effect>, AllocError>
    requires { IsNarrow columns.now }
    ensures { IfOk result (λ v. v ≡ effects_of columns.now statement.now) }
{
    let row = clustered_row(alloc, key_terms_of(statement), columns)?;
    let mut effects = Vec::with_capacity(alloc, USUAL)?;
    push_changes(alloc, columns, &row, statement, &mut effects)?;
    let effects = with_row_effects(alloc, columns, row, statement, effects)?;
    Ok(List::from_vec(effects))
}
