//! A door that counts what goes through it.
#![tactic(auto)]

mod codes;
mod count;
mod laws;
mod links;
mod tallied;
mod tally;
mod ticks;
mod window;

pub use laws::{heard_was_there, idle_door_changes_nothing, tally_changes_nothing};
pub use links::Link;
pub use tallied::Tallied;
pub use tally::Tally;
