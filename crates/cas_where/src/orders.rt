//! Whether an ORDER BY is the table's order, or its reverse.

ghost use Rattle.std.specs.Prelude.{◌≡◌, not, if◌then◌else◌};
ghost use Rattle.cas_types.specs.Schemas.{is_descending};
ghost use Rattle.cas_terms.specs.Columns.{clustering_columns};
ghost use Rattle.cas_where.specs.Slices.{same_truth, follows_order};

use cas_terms::same_name;
use cas_types::Column;
use cql_parse::ColumnOrder;

fn same_truth(a: bool, b: bool) -> bool
    ensures { result ≡ same_truth a b }
{
    a == b
}

fn has_direction(reversed: bool, column: &Column, order: &ColumnOrder) -> bool
    ensures { result ≡ same_truth (if reversed then not (is_descending column.now.kind) else is_descending column.now.kind) order.now.descending }
{
    let descending = column.kind.is_descending();
    same_truth(
        if reversed { !descending } else { descending },
        order.descending,
    )
}

/// Whether the order is that of the first clustering columns, or its reverse.
#[tactic(auto, unfolding(crate::specs::Slices::follows_order))]
pub fn follows_order(reversed: bool, columns: &[Column], order: &[ColumnOrder]) -> bool
    ensures { result ≡ follows_order reversed (clustering_columns columns.now) order.now }
{
    match (columns, order) {
        (_, []) => true,
        ([], [_o, _os @ ..]) => false,
        ([column, rest @ ..], [o, os @ ..]) => {
            if column.kind.is_clustering() {
                same_name(column.name.as_str(), o.name.as_str())
                    && (has_direction(reversed, column, o) && follows_order(reversed, rest, os))
            } else {
                follows_order(reversed, rest, order)
            }
        }
    }
}
