//! The running history of a node: what came in, for each shard, session and worker, over one log that
//! many passes share. Each list of the log is owned by one pass, an entry comes in only while the owners
//! of all its lists stand together, and each pass holds what it was shown. A seat a rule: each struct has
//! the pass of its own lists.
#![tactic(auto)]

mod calls;
mod entries;
mod faults;
mod fresh;
mod front;
mod hand;
mod item;
mod laws;
mod moments;
mod numbers;
mod opened;
mod pass;
mod steps;

pub use calls::{
    accept_alone, accept_five, accept_three, accept_two, deal, join, look, look_three,
};
pub use entries::{Entries, Tells};
pub use faults::Faults;
pub use fresh::Fresh;
pub use front::{Front, Log, Session, write};
pub use hand::Hand;
pub use item::Item;
pub use laws::{history_stands, session_stands, shard_stands, show};
pub use moments::Moments;
pub use numbers::{Files, Numbers, held_once};
pub use opened::{Kept, Opened};
pub use pass::{Pass, Store, WORDS};
