//! A partition's fragments in memory.

ghost use Rattle.std.specs.Prelude.{◌≡◌, List, Option, Some, None, length};
ghost use Rattle.std.specs.Vec.Iter.{into_iter_items};
ghost use Rattle.cas_cell.specs.declared.deletion.Deletion.{Deletion};
ghost use Rattle.cas_streams.specs.declared.fragment.Fragment.{Fragment};

use crate::fragment::Fragment;
use crate::source::FragmentSource;
use cas_cell::Deletion;
use std::alloc::AllocError;
use std::vec::IntoIter;

/// A partition's fragments, or those of a slice of it, in memory.
#[derive(Drop)]
pub struct Part {
    top: Option<Deletion>,
    rest: IntoIter<Fragment>,
}

impl Part {
    /// These fragments, under the deletion of the partition as a whole.
    pub fn new(top: Option<Deletion>, fragments: Vec<Fragment>) -> Self
        ensures top { ⟦<Part as FragmentSource>⟧.over_all result ≡ top }
        ensures fragments { ⟦<Part as FragmentSource>⟧.to_come result ≡ Some fragments.items }
        ensures sound { ⟦<Part as FragmentSource>⟧.broken_by result ≡ None }
    {
        Part {
            top,
            rest: fragments.into_iter(),
        }
    }
}

impl FragmentSource for Part {
    ghost use Rattle.std.specs.Prelude.{Some, None, length};
    ghost use Rattle.std.specs.Vec.Iter.{into_iter_items};

    type Fault = AllocError;

    ghost to_come = { λ p. Some (into_iter_items p.rest) };

    ghost over_all = { λ p. p.top };

    ghost at_most = { λ p. length (into_iter_items p.rest) };

    ghost broken_by = { λ p. None };

    fn top(&self) -> Option<Deletion> {
        self.top
    }

    fn next(&mut self) -> Result<Option<Fragment>, AllocError> {
        Ok(self.rest.next())
    }
}
