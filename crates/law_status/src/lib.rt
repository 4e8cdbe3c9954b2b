//! What the status of a node says of its cluster, in every run. Each function does nothing: its contract is the law.
//! What a door that counts reads in the heads of frames. Each function does nothing: its contract is the law.
#![tactic(auto)]

pub mod heard;
pub mod laws;
