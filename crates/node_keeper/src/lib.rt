//! A node and its rows: what a step makes of the rows is written before anything is given out.
//! A node and its rows, which are changed once for many events.
#![tactic(auto)]

pub mod batch;
pub mod batch_laws;
pub mod fault;
pub mod keeper;
pub mod laws;
mod waking;

pub use batch::BatchKeeper;
pub use fault::KeeperFault;
pub use keeper::Keeper;
pub use laws::openings_keep_what_lasts;
