//! What a DELETE leaves behind, and what it covers.

ghost use Rattle.std.specs.Prelude.{◌≡◌};
ghost use Rattle.std.specs.Ordering.{is_gt};
ghost use Rattle.cas_cell.specs.Deletions.{deletion_cmp, covered};

/// What a `DELETE` of a range, a row or a partition leaves behind: its timestamp in microseconds,
/// and the second at which it was made.
#[derive(Clone, Copy)]
pub struct Deletion {
    pub at: i64,
    pub second: i64,
}

/// Whether `a` stands over `b`: the later timestamp, and at one timestamp the later second.
pub fn del_wins(a: &Deletion, b: &Deletion) -> bool
    ensures { result ≡ is_gt (deletion_cmp a.now b.now) }
{
    a.at.cmp(&b.at).then(a.second.cmp(&b.second)).is_gt()
}

/// Whether the deletion deletes what was written at the timestamp: at its own or before it.
pub fn covers(d: &Deletion, at: i64) -> bool
    ensures { result ≡ covered d.now at }
{
    at <= d.at
}
