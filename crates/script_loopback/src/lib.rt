//! Scripts that are run with clients' bytes and frames through sockets.
//! Bytes that pass through sockets from one end of a connection to the other, in one process.
#![tactic(auto)]

mod carrying;
mod fault;
mod faults;
mod host;
pub mod laws;
mod loopback;
mod run;
mod wire;
mod wires;

pub use carrying::carry;
pub use fault::WireFault;
pub use run::{loop_script, loop_text};
pub use wires::Wires;
