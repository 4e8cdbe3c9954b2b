//! What clients may do, and packets that go out to them: those that answer in place of the handler inside, and those of it that may be sent.
//! What is done for a client's packets, by what it may do: which are told as they came, which are told smaller, and what answers the others.
#![tactic(auto)]

mod access;
mod aliases;
mod bytes;
mod client;
mod codes;
mod entry;
mod front;
pub mod laws;
mod marks;
mod publish;
mod publish_view;
mod reading;
mod sending;
mod step;
mod subscribe;
mod unchanged;
mod walk;

pub use access::{Access, Admission, Login};
pub use aliases::Aliases;
pub use bytes::{ack, connack, disconnect, suback};
pub use client::{Client, Stage};
pub use codes::{Awaited, Codes};
pub use front::front_packet;
pub use marks::Marks;
pub use reading::come;
pub use sending::{may_go, mended, spelled};
pub use step::Step;
pub use unchanged::goes_on;
pub use walk::Walk;
