//! Application messages as a server keeps them, and their deliveries to clients (MQTT 5.0, 3.1.3.2 and 3.3).
#![tactic(auto)]

mod acceptable;
mod delivery;
mod expiry;
mod field;
mod identifiers;
mod laws;
mod message;
mod order;
mod payload;
mod properties;
mod sent;
mod shared;
mod written;

pub use delivery::Delivery;
pub use expiry::due;
pub use field::{flag_at, name_at, put_flag};
pub use identifiers::Identifiers;
pub use laws::{read_as_spelled, sent_is_spelled, spelled_is_acceptable};
pub use message::Message;
pub use mqtt_packets::Will;
pub use order::ordered_as_encoded;
pub use payload::Payload;
pub use properties::MessageProperties;
pub use shared::SharedMessage;
