//! The frames that nodes send each other, as bytes: how long one is, and both ways.
#![tactic(auto)]

mod body;
mod fault;
mod forward;
mod frame;
mod greeting;
mod kind;
pub mod laws;
mod length;
mod number;
mod pick;
mod shared;

pub use body::FrameBody;
pub use fault::LinkFault;
pub use forward::Forward;
pub use frame::BridgeFrame;
pub use greeting::Greeting;
pub use length::frame_length;
pub use number::LaneNumber;
pub use pick::{Pick, Picks};
pub use shared::SharedFilter;
