//! What holds of every list of acts that a node may do, and of losses among them after which it is opened again: the steps of
//! each of its sessions are a run of that session, and what is offered and passed on is what the node holds then. Each function
//! does nothing: its contract is the law.
//! What rows say, in plain terms: which rows lanes and states have, and which changes of lanes' rows are told. Each function
//! does nothing, and its contract is a law.
#![tactic(auto)]

pub mod copies;
pub mod lanes;
pub mod sessions;
pub mod states;
