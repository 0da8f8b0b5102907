//! The slice of rows that a WHERE makes.

ghost use Rattle.std.specs.Prelude.{◌≡◌, ◌&&◌, ◌++◌, IfOk};
ghost use Rattle.std.specs.Str.{bytes_eq};
ghost use Rattle.std.specs.Option.{option_copied};
ghost use Rattle.std.specs.List.{find};
ghost use Rattle.cas_types.specs.Schemas.{is_descending};
ghost use Rattle.cas_where.specs.Slices.{is_at, bound_value, cut, cut_by, cut_at, slice_with, slice_of};

use crate::operators::{is_lower, is_strict, is_upper};
use cas_bounds::{Cut, RowOrder, Slice, Values, clustering_order};
use cas_keys::{KeyTerms, first_missing, prefix_values};
use cas_terms::{push_some, same_name, term_value};
use cas_types::Column;
use cql_parse::{Operator, Relation};
use std::alloc::{AllocError, Global};

// Whether a bound is one at which the slice begins, or ends: by place, so the other way round where
// the column is DESC.
#[tactic(auto, unfolding(crate::specs::Slices::is_at_begin, crate::specs::Slices::is_at_end))]
fn is_at(is_end: bool, descending: bool, operator: Operator) -> bool
    ensures { result ≡ is_at is_end descending operator }
{
    if is_end == descending {
        is_lower(operator)
    } else {
        is_upper(operator)
    }
}

fn first_bound<'a>(is_end: bool, relations: &'a [Relation], column: &Column) -> Option<&'a Relation>
    ensures { option_copied result ≡ find (λ r. bytes_eq r.column column.now.name && is_at is_end (is_descending column.now.kind) r.operator) relations.now }
{
    relations.iter().find(|r| {
        same_name(r.column.as_str(), column.name.as_str())
            && is_at(is_end, column.kind.is_descending(), r.operator)
    })
}

fn cut(order: &RowOrder, prefix: &Values, after: bool) -> Result<Cut, AllocError>
    ensures { IfOk result (λ c. c ≡ cut order.now prefix.now after) }
{
    Ok(Cut {
        prefix: prefix.clone()?,
        after,
        order: order.clone()?,
    })
}

fn longer_prefix(
    alloc: Global,
    prefix: &Values,
    column: &Column,
    relation: &Relation,
) -> Result<Values, AllocError>
    ensures { IfOk result (λ p. p ≡ prefix.now ++ bound_value column.now relation.now) }
{
    let mut longer = prefix.as_slice().to_vec(alloc)?;
    push_some(&mut longer, term_value(alloc, column.tag, &relation.value)?)?;
    Ok(Values::from_vec(longer))
}

fn cut_by(
    alloc: Global,
    order: &RowOrder,
    prefix: &Values,
    column: &Column,
    is_end: bool,
    bound: Option<&Relation>,
) -> Result<Cut, AllocError>
    ensures { IfOk result (λ c. c ≡ cut_by order.now prefix.now column.now is_end (option_copied bound.entry)) }
{
    match bound {
        None => cut(order, prefix, is_end),
        Some(relation) => {
            let strict = is_strict(relation.operator);
            let after = if is_end { !strict } else { strict };
            Ok(Cut {
                prefix: longer_prefix(alloc, prefix, column, relation)?,
                after,
                order: order.clone()?,
            })
        }
    }
}

// Where the slice begins, or ends.
#[tactic(auto, unfolding(crate::specs::Slices::cut_at))]
fn cut_at(
    alloc: Global,
    is_end: bool,
    order: &RowOrder,
    relations: &[Relation],
    prefix: &Values,
    column: &Column,
) -> Result<Cut, AllocError>
    ensures { IfOk result (λ c. c ≡ cut_at is_end order.now relations.now prefix.now column.now) }
{
    let bound = first_bound(is_end, relations, column);
    cut_by(alloc, order, prefix, column, is_end, bound)
}

fn slice_with(
    alloc: Global,
    order: &RowOrder,
    relations: &[Relation],
    prefix: &Values,
    column: Option<&Column>,
) -> Result<Slice, AllocError>
    ensures { IfOk result (λ s. s ≡ slice_with order.now relations.now prefix.now (option_copied column.entry)) }
{
    match column {
        None => Ok(Slice {
            lo: cut(order, prefix, false)?,
            hi: cut(order, prefix, true)?,
        }),
        Some(column) => Ok(Slice {
            lo: cut_at(alloc, false, order, relations, prefix, column)?,
            hi: cut_at(alloc, true, order, relations, prefix, column)?,
        }),
    }
}

/// The rows that a WHERE leaves of its partition.
#[tactic(auto, unfolding(crate::specs::Slices::slice_of))]
pub fn slice_of(
    alloc: Global,
    columns: &[Column],
    relations: &[Relation],
) -> Result<Slice, AllocError>
    ensures { IfOk result (λ s. s ≡ slice_of columns.now relations.now) }
{
    let terms = KeyTerms::Where(relations);
    let order = clustering_order(alloc, columns)?;
    let prefix = Values::from_vec(prefix_values(alloc, terms, columns)?);
    slice_with(
        alloc,
        &order,
        relations,
        &prefix,
        first_missing(terms, columns),
    )
}
