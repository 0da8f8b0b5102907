//! The sorts of bounds.

ghost use Rattle.std.specs.Prelude.{◌≡◌};
ghost use Rattle.cas_where.specs.Slices.{is_strict};
ghost use Rattle.cas_where.specs.Where.{is_lower, is_upper};

use cql_parse::Operator;

/// Whether it is `>` or `>=`.
#[tactic(auto, unfolding(crate::specs::Where::is_lower))]
pub(crate) fn is_lower(operator: Operator) -> bool
    ensures { result ≡ is_lower operator }
{
    matches!(operator, Operator::Greater | Operator::AtLeast)
}

/// Whether it is `<` or `<=`.
#[tactic(auto, unfolding(crate::specs::Where::is_upper))]
pub(crate) fn is_upper(operator: Operator) -> bool
    ensures { result ≡ is_upper operator }
{
    matches!(operator, Operator::Less | Operator::AtMost)
}

/// Whether it is `<` or `>`.
#[tactic(auto, unfolding(crate::specs::Slices::is_strict))]
pub(crate) fn is_strict(operator: Operator) -> bool
    ensures { result ≡ is_strict operator }
{
    matches!(operator, Operator::Less | Operator::Greater)
}
