//! The book of table files with its seat, which knows the changes of each shard.
ghost use Rattle.std.specs.Prelude.{◌≡◌, ◌≢◌, ℕ, ◌+◌, ◌<◌, true, false, Some, None, OnOk, OnErr, IfOk, IfSome, IfNone};
ghost use Rattle.cas_history.specs.Log.{Has};
ghost use Rattle.cas_refs.specs.Counts.{at, pins_of, one_less};
ghost use Rattle.cas_history.specs.Items.{listed, changes_list, book_changes};
ghost use Rattle.cas_history.specs.Last.{files_of};
ghost use Rattle.cas_lifecycle.specs.Books.{Booked, is_live};

use crate::changes::Changes;
use cas_history::{Item, Pass, Store, look};
use cas_refs::{Count, Full, Pin, RefBook, Removal};
use std::alloc::AllocError;

/// The book, and its seat for the changes of all shards. Each file that a shard has is in the book and not
/// retired.
#[derive(Drop)]
pub struct Book<E, J: Store> {
    pub(crate) refs: RefBook,
    pub(crate) pass: Pass<Item<E>, J>,
    ghost booked: { Booked refs pass },
}

impl<E, J: Store> Book<E, J> {
    /// What the book has of a file.
    pub fn count(&self, file: u64) -> Option<Count>
        ensures { result ≡ at self.now.refs file }
    {
        self.refs.count(file)
    }

    /// A file comes into the book, before a change adds it.
    pub fn add(&mut self, file: u64) -> Result<(), AllocError>
        requires new { at self.old.refs file ≡ None }
        ensures ok { OnOk result (at self.new.refs file ≡ Some (record { pins = 0; retired = false })) }
        ensures others { (k : ℕ) → k ≢ file → at self.new.refs k ≡ at self.old.refs k }
        ensures err { OnErr result ((k : ℕ) → at self.new.refs k ≡ at self.old.refs k) }
        ensures pass { self.new.pass ≡ self.old.pass }
    {
        self.refs.add(file)?;
        Ok(())
    }

    /// A reader takes a file that the shard has. Whatever ran before, it is in the book and not retired.
    pub fn pin(&mut self, changes: &mut Changes<E, J>, file: u64) -> Result<Pin, Full>
        requires has { Has (files_of (listed (changes_list changes.old.shard) changes.old.pass.saw)) file }
        ensures ok { IfOk result (λ p. (p.id ≡ file)
            × (at self.new.refs file ≡ Some (record { pins = pins_of (at self.old.refs file) + 1; retired = false }))) }
        ensures full { OnErr result ((pins_of (at self.old.refs file) ≡ 4294967295) × (at self.new.refs file ≡ at self.old.refs file)) }
        ensures others { (k : ℕ) → k ≢ file → at self.new.refs k ≡ at self.old.refs k }
        ensures same { (changes.new.shard ≡ changes.old.shard)
            × (listed (changes_list changes.old.shard) changes.new.pass.saw ≡ listed (changes_list changes.old.shard) changes.old.pass.saw) }
    {
        look(&mut self.pass, &mut changes.pass, 0);
        let pin = self.refs.pin(file)?;
        Ok(pin)
    }

    /// A file that no shard has any more is retired: it may go at once exactly where no pin of it is out.
    pub fn retire(&mut self, file: u64) -> Option<Removal>
        requires live { is_live (at self.old.refs file) ≡ true }
        requires gone { (s : ℕ) → s < 16 → Has (files_of (listed (book_changes s) self.old.pass.saw)) file → ⊥ }
        ensures some { IfSome result (λ r. (r.id ≡ file) × (pins_of (at self.old.refs file) ≡ 0) × (at self.new.refs file ≡ None)) }
        ensures none { IfNone result ((pins_of (at self.old.refs file) ≢ 0)
            × (at self.new.refs file ≡ Some (record { pins = pins_of (at self.old.refs file); retired = true }))) }
        ensures others { (k : ℕ) → k ≢ file → at self.new.refs k ≡ at self.old.refs k }
        ensures pass { self.new.pass ≡ self.old.pass }
    {
        self.refs.retire(file)
    }

    /// A reader gives its file back: it may go exactly where it was the last pin of a retired one.
    pub fn release(&mut self, pin: Pin) -> Option<Removal>
        ensures some { IfSome result (λ r. (r.id ≡ pin.id) × (at self.old.refs pin.id ≡ Some (record { pins = 1; retired = true }))
            × (at self.new.refs pin.id ≡ None)) }
        ensures none { IfNone result ((at self.old.refs pin.id ≢ Some (record { pins = 1; retired = true }))
            × (at self.new.refs pin.id ≡ one_less (at self.old.refs pin.id))) }
        ensures others { (k : ℕ) → k ≢ pin.id → at self.new.refs k ≡ at self.old.refs k }
        ensures pass { self.new.pass ≡ self.old.pass }
    {
        self.refs.release(pin)
    }
}
