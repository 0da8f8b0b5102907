//! What holds of lists of atoms, whatever program holds them: joined end to end, the same, the same
//! but for what a compaction may purge, and of what they answer.
#![tactic(auto)]

mod laws;

pub use laws::{
    alive_answers, greatest_laws, join_laws, joined, paths_are, rows_answer, rows_are,
    same_above_laws, same_answers, same_in_answers, same_where_joins, slice_reads,
};
