//! What a slice of a partition shows, fragment by fragment.

ghost use Rattle.std.specs.Prelude.{◌≡◌, None};
ghost use Rattle.cas_partition.specs.Inner.Lent.{rows_in};
ghost use Rattle.cas_partition.specs.Inner.Passing.{told};

use crate::lending::LentRows;
use crate::passing::{Change, Marks, next_left};
use cas_cell::Deletion;
use cas_streams::{Fragment, FragmentSource};
use std::alloc::{AllocError, Global};

/// What a slice of a partition shows: rows that are lent, each of which is copied when its turn comes,
/// and marks among them.
#[derive(Drop)]
pub struct PartitionStream<'a> {
    alloc: Global,
    top: Option<Deletion>,
    now: Option<Deletion>,
    rows: LentRows<'a>,
    marks: Marks,
    broken: Option<AllocError>,
}

impl<'a> PartitionStream<'a> {
    pub(crate) fn new(
        alloc: Global,
        top: Option<Deletion>,
        rows: LentRows<'a>,
        marks: Vec<Change>,
    ) -> Self
        ensures fragments { ⟦<PartitionStream<'a> as FragmentSource>⟧.to_come result ≡ told top None (rows_in rows.entry) marks.items }
        ensures top { ⟦<PartitionStream<'a> as FragmentSource>⟧.over_all result ≡ top }
    {
        PartitionStream {
            alloc,
            top,
            now: None,
            rows,
            marks: Marks::of(marks),
            broken: None,
        }
    }
}

impl<'a> FragmentSource for PartitionStream<'a> {
    ghost use Rattle.cas_partition.specs.Inner.Lent.{rows_in};
    ghost use Rattle.cas_partition.specs.Inner.Passing.{told};
    ghost use Rattle.cas_partition.specs.Inner.Steps.{marks_in, room_left};

    type Fault = AllocError;

    ghost to_come = { λ p. told p.top p.now (rows_in p.rows) (marks_in p.marks) };

    ghost over_all = { λ p. p.top };

    ghost at_most = { λ p. room_left (rows_in p.rows) (marks_in p.marks) };

    ghost broken_by = { λ p. p.broken };

    fn top(&self) -> Option<Deletion> {
        self.top
    }

    #[tactic(auto, unfolding(crate::specs::Inner::Passing::told))]
    fn next(&mut self) -> Result<Option<Fragment>, AllocError> {
        if let Some(fault) = self.broken {
            return Err(fault);
        }
        match next_left(
            self.alloc,
            self.top,
            &mut self.now,
            &mut self.rows,
            &mut self.marks,
        ) {
            Ok(next) => Ok(next),
            Err(fault) => {
                self.broken = Some(fault);
                Err(fault)
            }
        }
    }
}
