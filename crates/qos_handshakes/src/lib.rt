//! The handshakes of QoS 1 and QoS 2 with one client, over all connections of its session (MQTT 5.0, 4.3 and 4.4).
//! A table of numbers by slot that finds its first free slot, one that has 0, in a few steps however long it is.
#![tactic(auto)]

mod answers;
mod bits;
mod copies;
mod incoming;
mod log;
mod noted;
mod outgoing;
mod restored;
mod slots;

pub use answers::{Ack, In, Offer, Rec};
pub use copies::{Entry, Stage};
pub use incoming::Incoming;
pub use outgoing::{Outgoing, QUEUE_ROOM, Sending};
pub use slots::Slots;
