//! The sessions of a node by client, and which of them have something due.
//! Clients, each at a moment or another number, in order.
#![tactic(auto)]

mod call;
mod laws;
mod listing;
mod moments;
mod seated;
mod sessions;
mod table;
mod telling;
mod times;

pub use call::Addressed;
pub use sessions::Sessions;
pub use times::DueTimes;
