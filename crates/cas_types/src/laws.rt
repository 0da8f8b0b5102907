//! What holds of the order of values.

ghost use Rattle.cas_types.specs.Laws.{ValueOrders};

/// The order of the values of each type is total, and only equal values tie.
pub fn value_orders()
    ensures { ValueOrders }
{}
