//! Topic names, topic filters, and which names a filter matches (MQTT 5.0, 4.7 and 4.8.2).
#![tactic(auto)]

mod fault;
mod filter;
mod laws;
mod levels;
mod name;

pub use fault::TopicFault;
pub use filter::Filter;
pub use laws::{filters_or_faults, names_or_faults, shared_matches_alike};
pub use levels::Levels;
pub use name::TopicName;
