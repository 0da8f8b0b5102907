//! A store that is open over a folder that lasts, with the sessions that share it.
#![tactic(auto)]

mod answer;
mod defining;
mod dropping;
mod flushing;
mod laws;
mod node;
mod opened;
mod reading;
mod statements;
mod status;
mod texts;
mod verifying;
mod writing;

pub use answer::{Answer, Fault, reply_of};
pub use laws::{files_are_whole, full_no_more};
pub use node::{Closed, Node, Pass, SESSION_LIMIT, Session, SessionFault, Stored};
pub use opened::{Opened, start};
pub use statements::Ask;
