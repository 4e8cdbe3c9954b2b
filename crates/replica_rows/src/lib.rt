//! The rows of a replicated store, and the changes of them that a merge makes.
#![tactic(auto)]

mod changes;
pub mod laws;
mod listing;
mod reading;
mod row;

pub use changes::{changes_by, puts_of};
pub use listing::rows;
pub use reading::from_rows;
pub use row::{SEEN, TAKEN, context_row};
