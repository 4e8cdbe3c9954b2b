//! What limits make of a client's packets: which go on as they came, which go on smaller, and what answers those that don't go on.
//! Cuts the bytes that come on a connection into whole packets of MQTT 5.0, by their Remaining Length.
//! What no stream of packets has in it, whatever else comes. Each function does nothing: its contract is the law.
#![tactic(auto)]

mod bounds;
mod codes;
mod cut;
mod expiry;
mod front;
pub mod laws;
pub mod lengths;
mod mending;
pub mod piece_laws;
mod publish;
mod subscribe;
mod verdict;

pub use bounds::Bounds;
pub use codes::Codes;
pub use cut::{Cut, End, packets_of};
pub use front::{Front, front_of};
pub use mending::mended;
pub use verdict::{Mend, Verdict, bounded};
