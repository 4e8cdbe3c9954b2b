//! A network in memory, which tests bring to do what a network of the system does seldom.
//! Rows in memory of which one call is refused, as a failed disk refuses it; tests bring them.
#![tactic(auto)]

mod end;
mod network;
mod refusing;

pub use network::{FakeSockets, Manner};
pub use refusing::RefusingRows;
