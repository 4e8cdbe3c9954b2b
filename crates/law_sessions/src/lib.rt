//! What holds of one client's session over every list of its events, from its making on: over all its connections, and
//! where a crash lost one (MQTT 5.0, 4.1). Each function does nothing: its contract is the law.
//! What holds of a session and the rows that were told of it, over every list of its calls and tellings: from its making on,
//! or from its rows on. The functions do nothing: their contracts are the laws.
#![tactic(auto)]

pub mod aliases;
pub mod arrivals;
pub mod changes;
pub mod events;
pub mod identifiers;
pub mod order;
pub mod quiet;
pub mod quota;
pub mod releases;
pub mod reopened;
pub mod replies;
pub mod resends;
pub mod room;
mod saved;

pub use saved::{
    calls_are_moves, connect_is_sound, durable_rows_open, removals_leave_none, stays_durable,
    stays_since, told_changes_lead, told_rows_are_stored,
};
