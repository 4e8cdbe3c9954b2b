//! The connections of those who ask for the status of a node, over sockets that never wait, and what they are shown.
#![tactic(auto)]

mod desk;
mod machine;
mod open;
mod teller;
mod visitor;

pub use desk::Desk;
pub use machine::{Machine, NoMachine};
pub use open::OpenDesk;
pub use teller::Teller;
