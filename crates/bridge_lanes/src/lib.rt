//! The rows of the lanes between nodes, both ways, and the changes of them.
//! Lanes between nodes: numbered messages that wait until their receiver has taken them.
#![tactic(auto)]

pub mod laws;
pub mod reading;
pub mod row;

pub use reading::{LANE_ROOM, ReadLane, read_lanes};
pub use row::{append_numbers, append_numbers_change, append_puts, append_removals, append_rows};
