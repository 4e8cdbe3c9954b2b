//! What is read and written.

use crate::spelled::{Number, try_read, try_write};
use bridge_frames::BridgeFrame;
use causal_context::Context;
use mqtt_fields::Properties;
use mqtt_message::Message;
use mqtt_packets::Packet;
use replica_store::ReplicaStore;
use std::alloc::Global;
use trial_refusals::{
    CONNECT, CONTEXT, DELTA, FORWARD, MESSAGE, PROPERTIES, PUBLISH, STORE, Trial, bytes_of,
};

/// The greatest Variable Byte Integer (MQTT 5.0, 1.5.5).
const NUMBER: &str = "ffffff7f";

/// What is read and written.
#[derive(Clone, Copy)]
pub enum Kind {
    Number,
    Properties,
    Connect,
    Publish,
    Message,
    Context,
    Store,
    Delta,
    Forward,
}

impl Kind {
    fn spelling(self) -> &'static str {
        match self {
            Kind::Number => NUMBER,
            Kind::Properties => PROPERTIES,
            Kind::Connect => CONNECT,
            Kind::Publish => PUBLISH,
            Kind::Message => MESSAGE,
            Kind::Context => CONTEXT,
            Kind::Store => STORE,
            Kind::Delta => DELTA,
            Kind::Forward => FORWARD,
        }
    }
}

/// Tries to read what is spelled so.
pub fn try_reading(alloc: Global, number: usize, kind: Kind) -> Trial {
    let bytes = bytes_of(alloc, kind.spelling())?;
    match kind {
        Kind::Number => try_read::<Number>(alloc, number, &bytes),
        Kind::Properties => try_read::<Properties>(alloc, number, &bytes),
        Kind::Connect | Kind::Publish => try_read::<Packet>(alloc, number, &bytes),
        Kind::Message => try_read::<Message>(alloc, number, &bytes),
        Kind::Context => try_read::<Context>(alloc, number, &bytes),
        Kind::Store => try_read::<ReplicaStore>(alloc, number, &bytes),
        Kind::Delta | Kind::Forward => try_read::<BridgeFrame>(alloc, number, &bytes),
    }
}

/// Tries to write what is spelled so.
pub fn try_writing(alloc: Global, number: usize, kind: Kind) -> Trial {
    let bytes = bytes_of(alloc, kind.spelling())?;
    match kind {
        Kind::Number => try_write::<Number>(alloc, number, &bytes),
        Kind::Properties => try_write::<Properties>(alloc, number, &bytes),
        Kind::Connect | Kind::Publish => try_write::<Packet>(alloc, number, &bytes),
        Kind::Message => try_write::<Message>(alloc, number, &bytes),
        Kind::Context => try_write::<Context>(alloc, number, &bytes),
        Kind::Store => try_write::<ReplicaStore>(alloc, number, &bytes),
        Kind::Delta | Kind::Forward => try_write::<BridgeFrame>(alloc, number, &bytes),
    }
}
