//! What serving over sockets comes to among the other nodes of a cluster: a run of just what the sockets brought. Each function does nothing: its
//! contract is the law.
//! What holds of a node that is served, among the other nodes of its cluster: its turns are runs. Each function does nothing: its contract
//! is the law.
//! By which table of homes a served node goes to which newer ones come. The function does nothing: its contract is the law.
//! What a turn over sockets is at its two doors: what the sockets are asked, and what the handler is told. Each function does nothing: its contract
//! is the law.
#![tactic(auto)]

pub mod laws;
pub mod served;
pub mod tabled;
pub mod turns;
