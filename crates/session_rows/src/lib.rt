//! The rows of a session: one for itself, and one for each of its copies.
#![tactic(auto)]

mod copy;
mod field;
mod main_row;
mod reachable;
mod session;
mod told;
mod will;

pub use copy::write_copy;
pub use main_row::{MainRow, write_main};
pub use session::{Opened, read_session, text_of};
pub use told::{Told, copy_changes, own_change, own_left, rows};
