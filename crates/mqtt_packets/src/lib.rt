//! MQTT 5.0 Control Packets: their bytes, both ways, and the cut of a stream into packets.
#![tactic(auto)]

mod ack;
mod bytes;
mod connack;
mod connect;
mod ended;
mod fault;
mod field;
mod framer;
mod head;
pub mod laws;
mod measure;
mod packet;
mod publish;
pub mod reason;
mod reasons;
mod stream;
mod subscribe;
mod unsubscribe;
mod values;
mod write;

pub use ack::Ack;
pub use bytes::Bytes;
pub use connack::Connack;
pub use connect::{Connect, Will};
pub use ended::Ended;
pub use fault::PacketFault;
pub use framer::{Fed, FeedFault, Framer};
pub use packet::Packet;
pub use publish::Publish;
pub use reasons::Reasons;
pub use stream::read_packet;
pub use subscribe::{Subscribe, SubscribeFilter, SubscribeFilters};
pub use unsubscribe::{Unsubscribe, UnsubscribeFilters};
pub use values::are_valid;
pub use write::write_packet;
