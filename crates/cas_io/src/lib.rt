//! What the program meets outside itself: bytes that come in and go out, the time, and whoever
//! watches the lines of clients. Each is a trait that says what a contract may know of it, with a
//! form in memory, and one over the system's streams and clock.
#![tactic(auto)]

mod clock;
mod fault;
mod gate;
mod host;
mod memory;
mod script;
mod sink;
mod source;

pub use clock::{Clock, ManualClock};
pub use fault::Failed;
pub use gate::{FreeGate, Gate};
pub use host::{StdSink, StdSource, SystemClock};
pub use memory::{MemSink, MemSource};
pub use script::{ScriptFault, read_script};
pub use sink::{Sink, SinkFault, write_all};
pub use source::Source;
