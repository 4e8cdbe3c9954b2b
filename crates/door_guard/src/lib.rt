//! Users and what they may do, before what stands behind sockets: no CONNECT of a client that isn't let in is handed on, and what may not be done is answered in its place.
#![tactic(auto)]

mod answer;
mod clients;
mod counts;
mod door;
mod fault;
mod giving;
mod guarded;
mod known;
pub mod laws;
mod telling;

pub use counts::Refusals;
pub use fault::GuardFault;
pub use guarded::Guarded;
