//! What holds of the order of rows and of cuts, for every order of the clustering columns.

ghost use Rattle.cas_bounds.specs.Keys.{KeysArePoints};
ghost use Rattle.cas_bounds.specs.Laws.{RowOrders, CutOrders, CutsDivideRows, OwnPlaces, PointLaws};

/// The order of rows is total, and only the same values tie.
pub fn row_orders()
    ensures { RowOrders }
{}

/// The order of cuts is total, and only cuts with the same prefix and the same side tie.
pub fn cut_orders()
    ensures { CutOrders }
{}

/// What is past a cut is past every cut below it.
pub fn cuts_divide_rows()
    ensures { CutsDivideRows }
{}

/// Between the cut before a prefix and the one after it lies what begins with the prefix.
pub fn own_places()
    ensures { OwnPlaces }
{}

/// Rows and cuts are points of one total order, in which what is past a cut is above it.
pub fn point_laws()
    ensures { PointLaws }
{}

/// Keys of one table compare as the points that they stand for.
pub fn keys_are_points()
    ensures { KeysArePoints }
{}
