//! A handler that wraps another one: clients of MQTT 3.1.1 and 3.1 reach the handler inside as clients of MQTT 5.0.
#![tactic(auto)]

mod asked;
mod client;
mod clients;
mod exchanges;
mod fault;
mod handler;
mod held;
mod laws;
mod sending;
mod taken;
mod telling;

pub use fault::Mqtt3Fault;
pub use handler::Mqtt3;
pub use laws::{each_connection_is_followed, off_changes_nothing};
