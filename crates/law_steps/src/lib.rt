//! What events come to: each function does nothing, and its contract is a law of every step of a node.
//! That the laws of an event leave nothing out: each function does nothing, and its contract is a law.
//! What a node gives out, and what becomes of what comes to it: each function does nothing, and its contract is a law.
//! What happens where a node takes another table of homes: each function does nothing, and its contract is a law.
#![tactic(auto)]

pub mod adding;
pub mod believing;
pub mod closing;
pub mod determined;
pub mod determining;
pub mod due;
pub mod ending;
pub mod forwarding;
pub mod framing;
pub mod lifted;
pub mod outputs;
pub mod serving;
pub mod sessions;
pub mod standing;
pub mod starting;
pub mod tables;
pub mod taking;
pub mod wills;
