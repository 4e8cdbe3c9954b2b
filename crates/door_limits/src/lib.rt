//! A door before what stands behind sockets: it lets in so many clients and no more, and closes a connection on which nothing was sent for
//! too long.
#![tactic(auto)]

mod connections;
mod fault;
mod laws;
mod limited;
mod limits;

pub use fault::LimitedFault;
pub use laws::{limits_hold, no_limits_change_nothing};
pub use limited::Limited;
pub use limits::Limits;
