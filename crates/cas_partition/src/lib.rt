//! One partition in memory: what is said of its rows by their places, and its range deletions by
//! the cuts at which what is in force changes.
#![tactic(auto)]

mod body;
mod cut_key;
mod front;
mod laws;
mod lending;
mod partition;
mod passing;
mod pieces;
mod ranges;
mod row_key;
mod runs;
mod slice;
mod spot;
mod spots;
mod stream;

pub use body::Body;
pub use cut_key::CutKey;
pub use front::Front;
pub use laws::slices_show;
pub use partition::Partition;
pub use ranges::Ranges;
pub use row_key::RowKey;
pub use spot::{Addition, Content, Place, Room, Spot};
pub use spots::Spots;
pub use stream::PartitionStream;
