//! What the entries of the history tell.

use cas_atoms::Mutation;
use cas_changes::Change;
use cas_history::Tells;

/// What an entry of the history tells.
#[derive(Drop)]
pub enum Event {
    /// A mutation that was accepted.
    Accepted(Mutation),
    /// A change of table files, as the manifest has it.
    Changed(Change),
}

/// Tells of a mutation that it was accepted, without a copy of it.
#[derive(Drop)]
pub struct Accepted<'a> {
    pub mutation: &'a Mutation,
}

impl<'a> Tells<Event> for Accepted<'a> {
    ghost use Rattle.cas_room.specs.declared.event.Event.TheVariants as event;

    ghost entry = { λ a. event.Accepted a.mutation.now };
}

/// Tells of a change of table files, without a copy of it.
#[derive(Drop)]
pub struct Changed<'a> {
    pub change: &'a Change,
}

impl<'a> Tells<Event> for Changed<'a> {
    ghost use Rattle.cas_room.specs.declared.event.Event.TheVariants as event;

    ghost entry = { λ c. event.Changed c.change.now };
}
