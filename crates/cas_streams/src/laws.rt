//! What streams say, for every order of the clustering columns.

ghost use Rattle.cas_streams.specs.Laws.{RowsSayAll, SameByRows, CutKeepsTheSlice, CutIsWellFormed};
ghost use Rattle.cas_streams.specs.Laws.{MergeIsJoin, MergeIsWellFormed, MergeIsMerged};
ghost use Rattle.cas_streams.specs.MergeLaws.{MergeByPlaces, MergeInventsNothing, MergeSaysSomething, SameWritesAlike};

/// At each row an ordered stream says what its top, the deletion in force there and the row's own
/// fragments say, and nothing more.
pub fn rows_say_all()
    ensures { RowsSayAll }
{}

/// Ordered streams of one top are the same in some rows where at each of them the same deletion is
/// in force, and the fragments of their own are the same.
pub fn same_by_rows()
    ensures { SameByRows }
{}

/// A stream cut to a slice is the same there.
pub fn cut_keeps_the_slice()
    ensures { CutKeepsTheSlice }
{}

/// And well formed, if the whole is.
pub fn cut_is_well_formed()
    ensures { CutIsWellFormed }
{}

/// The merge of ordered streams is the same as all their atoms one after another.
pub fn merge_is_join()
    ensures { MergeIsJoin }
{}

/// The merge of a table's well-formed streams is well formed.
pub fn merge_is_well_formed()
    ensures { MergeIsWellFormed }
{}

/// And each write in it is the winner where it is written.
pub fn merge_is_merged()
    ensures { MergeIsMerged }
{}

/// On its way a merge has lost nothing: by places, what was given and what is to come are the join.
pub fn merge_by_places()
    ensures { MergeByPlaces }
{}

/// It writes and deletes nothing that no stream writes or deletes there.
pub fn merge_invents_nothing()
    ensures { MergeInventsNothing }
{}

/// And where a stream says something, it does too.
pub fn merge_says_something()
    ensures { MergeSaysSomething }
{}

/// What is the same as a merged stream has its writes.
pub fn same_writes_alike()
    ensures { SameWritesAlike }
{}
