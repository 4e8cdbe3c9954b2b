//! The rows of a node, and a node's parts read from them.
#![tactic(auto)]

mod among;
mod cut;
pub mod laws;
pub mod mark;
pub mod reading;
mod sessions;
pub mod versions;

pub use among::{are_dots_among, is_state_among};
pub use mark::mark_row;
pub use reading::{Opened, open};
pub use versions::{are_older, raise};
