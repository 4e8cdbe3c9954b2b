//! What a node keeps for the other nodes of its cluster: what each is known to have taken, the last deltas, and numbered
//! messages that wait until they have been taken there.
#![tactic(auto)]

mod buffer;
mod lane;
pub mod laws;
mod links;
mod offer;

pub use links::Links;
pub use offer::Offer;
