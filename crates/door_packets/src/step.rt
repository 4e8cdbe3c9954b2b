//! What is done for packets that came.

use crate::Awaited;
use mqtt_packets::{Bytes, Packet};

/// One thing that is done, after those before it.
#[derive(Drop)]
pub enum Step {
    /// The handler inside is told that the connection is open.
    Opens,
    /// It is told how much room the connection has.
    Rooms(u64),
    /// It is told these bytes, as they came.
    Tells(Bytes),
    /// It is told this packet; a SUBACK that it gives then has these codes too.
    Asks(Packet, Option<Awaited>),
    /// These bytes answer a PUBLISH of which it isn't told.
    Acks(Bytes),
    /// These bytes answer a SUBSCRIBE of so many filters of which it isn't told.
    Subacks(Bytes, usize),
    /// A PUBLISH is dropped.
    Drops,
    /// The client isn't let in: this code in CONNACK, and the end of the connection.
    TurnsAway(u8),
    /// The connection ends.
    Ends,
}
