//! Limits on what clients send, before what stands behind sockets: packets that break one are answered in its place.
//! How much memory the process holds, as the system counts it.
#![tactic(auto)]

mod answer;
mod bounded;
mod client;
mod clients;
mod door;
mod fault;
mod front;
mod gauge;
pub mod laws;
mod limits;
mod reading;
mod resident;
mod sending;
mod step;
mod telling;
mod walk;

pub use bounded::Bounded;
pub use fault::BoundedFault;
pub use gauge::{Gauge, NoGauge, PLACE, ProcessMemory};
pub use limits::{BoundLimits, CAREFUL};
pub use step::Step;
