//! What a pass holds. No value of it is made.
use std::collections::LinkedList;

pub struct Hand<E> {
    /// The whole log, as it was at the pass's last step.
    pub saw: LinkedList<E>,
    /// The lists that the pass owns.
    pub lists: LinkedList<u64>,
    /// The right to make passes: all lists from this number on are its own too.
    pub from: Option<u64>,
}
