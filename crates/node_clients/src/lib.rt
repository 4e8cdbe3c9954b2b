//! How a node answers its clients: their streams and packets, and how connections and sessions end.
#![tactic(auto)]

mod arriving;
mod connect;
mod ending;
mod moving;
mod naming;
mod offer;
mod passing;
mod piece;
mod room;
mod serve;
mod stream_fault;
mod subscribe;
mod unsubscribe;

pub use arriving::take_forward;
pub use ending::{close, tick};
pub use moving::move_away;
pub use piece::{leave, take_piece};
pub use room::make_room;
