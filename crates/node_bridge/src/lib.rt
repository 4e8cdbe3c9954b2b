//! What a node keeps for the other nodes of its cluster, and the changes of the rows of its lanes.
#![tactic(auto)]

mod bridge;
pub mod laws;

pub use bridge::Bridge;
