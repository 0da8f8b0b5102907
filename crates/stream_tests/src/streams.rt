//! The merge of two streams of one partition, and what a purge leaves of one, by hand.

use crate::fragments::{END, first_six, stream};
use cas_merge::Merger;
use cas_purge::Purger;
use cas_streams::FragmentSource;
use std::test::Fail;

// The first deletes the rows from 2 to 5. In the second row 3 is older than that, row 4 younger, row 6 beyond it.
#[test]
fn a_merge_is_the_join(rt: HostRuntime) -> Result<(), Fail> {
    let alloc = rt.alloc();
    let deleting = [('r', 1, 10), ('b', 2, 20), ('a', 5, 0)];
    let inserting = [('r', 3, 15), ('r', 4, 30), ('r', 6, 5)];
    let mut sources = Vec::new(alloc);
    sources.push(stream(alloc, 0, Vec::new(alloc), &deleting)?)?;
    sources.push(stream(alloc, 1, Vec::new(alloc), &inserting)?)?;
    let mut merger = Merger::new(sources);
    assert_eq!(rt; merger.top().map(|d| d.at), Some(1));
    let want = [
        ('r', 1, 10),
        ('b', 2, 20),
        ('r', 4, 30),
        ('a', 5, 0),
        ('r', 6, 5),
        END,
    ];
    assert_eq!(rt; first_six(&mut merger)?, want);
    Ok(())
}

// What is dead before the second 100 and stands below the timestamp 50 goes. Of three range deletions that follow one
// another the one at 60 stays.
#[test]
fn a_purge_leaves_what_may_not_be_dropped(rt: HostRuntime) -> Result<(), Fail> {
    let alloc = rt.alloc();
    let dying = [
        ('b', 2, 10),
        ('r', 3, 30),
        ('b', 4, 60),
        ('b', 5, 20),
        ('a', 6, 0),
        ('e', 7, 49),
        ('e', 8, 50),
        ('f', 9, 49),
    ];
    let mut purger = Purger::new(stream(alloc, 1, Vec::new(alloc), &dying)?, 100, 50);
    assert!(rt; purger.top().is_none());
    let want = [
        ('r', 3, 30),
        ('b', 4, 60),
        ('b', 5, 0),
        ('r', 8, 50),
        ('r', 9, 49),
        END,
    ];
    assert_eq!(rt; first_six(&mut purger)?, want);
    assert!(rt; purger.end().next()?.is_none());
    Ok(())
}
