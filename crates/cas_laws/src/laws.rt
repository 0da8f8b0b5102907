//! The laws, each a function that does nothing.

ghost use Rattle.cas_cell.specs.Deletions.{deletion_cmp};
ghost use Rattle.cas_cell.specs.Lives.{live_cmp};
ghost use Rattle.cas_cell.specs.Cells.{cell_cmp};
ghost use Rattle.cas_laws.specs.Laws.{GreatestLaws, JoinLaws, Joined, SameWhereJoins, RowsAre, PathsAre, RowsAnswer};
ghost use Rattle.cas_laws.specs.Laws.{SameAnswers, SameInAnswers, AliveAnswers, SameAboveLaws, SliceReads};

/// Of deletions, of what `INSERT`s leave of rows and of cells: the greatest is given, and none that
/// is given is above it; and nothing else tells it.
pub fn greatest_laws()
    ensures deletions { GreatestLaws deletion_cmp }
    ensures lives { GreatestLaws live_cmp }
    ensures cells { GreatestLaws cell_cmp }
{}

/// Lists of atoms joined end to end are the same whatever the order, the repeats and the grouping.
pub fn join_laws()
    ensures { JoinLaws }
{}

/// What covers and what wins in two lists joined, by what does in each.
pub fn joined()
    ensures { Joined }
{}

/// Lists that are the same in some rows stay so when they are joined with lists that are.
pub fn same_where_joins()
    ensures { SameWhereJoins }
{}

/// The rows that atoms write in: a strictly ascending list of exactly these.
pub fn rows_are()
    ensures { RowsAre }
{}

/// The alive paths of a column of a row: a strictly ascending list of exactly these.
pub fn paths_are()
    ensures { PathsAre }
{}

/// The rows that answer: a strictly ascending list of exactly these.
pub fn rows_answer()
    ensures { RowsAnswer }
{}

/// Lists that are the same answer every query alike, at every moment.
pub fn same_answers()
    ensures { SameAnswers }
{}

/// Lists that are the same in a query's slice and in the static row answer it alike.
pub fn same_in_answers()
    ensures { SameInAnswers }
{}

/// Lists that at a moment show the same in a query's slice and in the static row answer it alike.
pub fn alive_answers()
    ensures { AliveAnswers }
{}

/// A query reads no atom of a single row outside its slice.
pub fn slice_reads()
    ensures { SliceReads }
{}

/// What is the same above a mark and a floor stays so whatever later than the mark is added; it
/// chains; and from the floor on it answers alike.
pub fn same_above_laws()
    ensures { SameAboveLaws }
{}
