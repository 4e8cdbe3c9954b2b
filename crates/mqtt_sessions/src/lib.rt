//! One client's side of a server, over all its connections (MQTT 5.0, 4.1).
#![tactic(auto)]

mod aliases;
mod answers;
mod arriving;
mod asking;
mod connecting;
mod due;
mod fault;
mod kept;
mod link;
mod packets;
mod reaction;
mod running;
mod saved;
mod sending;
mod session;
mod will;

pub use fault::SessionFault;
pub use reaction::{Ask, Output, Publication, Reaction};
pub use sending::is_once;
pub use session::Session;
