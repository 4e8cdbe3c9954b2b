//! Which clients get a copy of a message, and how: by the subscriptions that are live (MQTT 5.0, 3.3.1.3, 3.3.4, 3.8.3.1
//! and 4.8.2).
//! Which other nodes of a cluster get a message, and with what: by the homes of the clients that are to have a copy of it.
#![tactic(auto)]

mod deliveries;
mod destinations;
mod gathered;
mod groups;
mod latest;
mod laws;
mod length;
mod plain;
mod selected;
mod taken;
mod together;

pub use deliveries::{copy_for, least_qos, offer_of};
pub use destinations::{Destinations, HomedPick, Route};
pub use groups::GroupPick;
pub use laws::{copies_are_determined, picks_are_determined};
pub use plain::{PlainCopy, copies};
pub use taken::picked_copies;
pub use together::{CopiesAndPicks, copies_and_picks};
