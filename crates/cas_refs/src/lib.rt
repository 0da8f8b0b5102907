//! Which table files are in use: how many readers have one pinned, and whether it was retired. A file
//! may go when both say so. It stands on nothing.
#![tactic(auto)]

ghost use Rattle.std.specs.Prelude.{◌≡◌, ◌≢◌, ℕ, ◌+◌, ◌<◌, true, false, OnOk, OnErr, IfOk, IfSome, IfNone, Some, None};
ghost use Rattle.cas_refs.specs.Counts.{at, Live, pins_of, one_less};

#[cfg(test)]
mod tests;

use std::alloc::{AllocError, Global};
use std::collections::BTreeMap;

/// How many pins of one table may be out at once.
pub const MAX_PINS: u32 = u32::MAX;

/// As many pins of the table are out as may be.
#[derive(Copy, Clone)]
pub struct Full;

/// What the book has of a table: its pins that are out, and whether it was retired.
#[derive(Copy, Clone)]
pub struct Count {
    pub pins: u32,
    pub retired: bool,
}

/// A reader has this table. It has no `Drop`: it must be spent by `release`.
pub struct Pin {
    id: u64,
}

/// This table's file may be removed, and whoever removes files asks for it. It has no `Drop`: it must be
/// spent, by `into_id`.
pub struct Removal {
    id: u64,
}

impl Pin {
    pub fn id(&self) -> u64
        ensures { result ≡ self.now.id }
    {
        self.id
    }
}

impl Removal {
    pub fn id(&self) -> u64
        ensures { result ≡ self.now.id }
    {
        self.id
    }

    /// The file is removed, or left to the next opening.
    pub fn into_id(self) -> u64
        ensures { result ≡ self.id }
    {
        let Removal { id } = self;
        id
    }
}

/// The book of table files. Each call takes time that grows with the logarithm of their number.
#[derive(Drop)]
pub struct RefBook {
    counts: BTreeMap<u64, Count>,
}

impl RefBook {
    pub fn new(alloc: Global) -> RefBook
        ensures { (k : ℕ) → at result k ≡ None }
    {
        RefBook {
            counts: BTreeMap::new(alloc),
        }
    }

    /// A table's count, where it is in the book.
    pub fn count(&self, id: u64) -> Option<Count>
        ensures { result ≡ at self.now id }
    {
        self.counts.get(&id).copied()
    }

    /// A table comes into the book, with no pin out. It is the only call that takes memory.
    pub fn add(&mut self, id: u64) -> Result<(), AllocError>
        requires new { at self.old id ≡ None }
        ensures ok { OnOk result (at self.new id ≡ Some (record { pins = 0; retired = false })) }
        ensures others { (k : ℕ) → k ≢ id → at self.new k ≡ at self.old k }
        ensures err { OnErr result ((k : ℕ) → at self.new k ≡ at self.old k) }
    {
        let none = Count {
            pins: 0,
            retired: false,
        };
        self.counts.insert(id, none)?;
        Ok(())
    }

    /// A reader takes the table. Full exactly where 2^32-1 pins of it are out.
    pub fn pin(&mut self, id: u64) -> Result<Pin, Full>
        requires live { Live (at self.old id) }
        ensures ok { IfOk result (λ p. (p.id ≡ id) × (pins_of (at self.old id) < 4294967295)
            × (at self.new id ≡ Some (record { pins = pins_of (at self.old id) + 1; retired = false }))) }
        ensures full { OnErr result ((pins_of (at self.old id) ≡ 4294967295) × (at self.new id ≡ at self.old id)) }
        ensures others { (k : ℕ) → k ≢ id → at self.new k ≡ at self.old k }
    {
        let Some(count) = self.counts.get_mut(&id) else {
            unreachable!()
        };
        if count.pins == MAX_PINS {
            return Err(Full);
        }
        count.pins += 1;
        Ok(Pin { id })
    }

    /// The table is in no view any more. Its file may go at once exactly where no pin of it is out.
    pub fn retire(&mut self, id: u64) -> Option<Removal>
        requires live { Live (at self.old id) }
        ensures some { IfSome result (λ r. (r.id ≡ id) × (pins_of (at self.old id) ≡ 0) × (at self.new id ≡ None)) }
        ensures none { IfNone result ((pins_of (at self.old id) ≢ 0) × (at self.new id ≡ Some (record { pins = pins_of (at self.old id); retired = true }))) }
        ensures others { (k : ℕ) → k ≢ id → at self.new k ≡ at self.old k }
    {
        let Some(count) = self.counts.get_mut(&id) else {
            unreachable!()
        };
        if count.pins > 0 {
            count.retired = true;
            return None;
        }
        self.counts.remove(&id);
        Some(Removal { id })
    }

    /// A reader gives its table back. The file may go exactly where it was the last pin of a table that
    /// was retired. A pin of another book changes nothing where this one has none out.
    pub fn release(&mut self, pin: Pin) -> Option<Removal>
        ensures some { IfSome result (λ r. (r.id ≡ pin.id) × (at self.old pin.id ≡ Some (record { pins = 1; retired = true })) × (at self.new pin.id ≡ None)) }
        ensures none { IfNone result ((at self.old pin.id ≢ Some (record { pins = 1; retired = true }))
            × (at self.new pin.id ≡ one_less (at self.old pin.id))) }
        ensures others { (k : ℕ) → k ≢ pin.id → at self.new k ≡ at self.old k }
    {
        let Pin { id } = pin;
        let Some(count) = self.counts.get_mut(&id) else {
            return None;
        };
        if count.pins == 0 {
            return None;
        }
        count.pins -= 1;
        if count.pins > 0 || !count.retired {
            return None;
        }
        self.counts.remove(&id);
        Some(Removal { id })
    }
}
