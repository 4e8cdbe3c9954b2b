//! What is done for bytes that came.
use mqtt_bounds::Mend;
use mqtt_packets::{Bytes, Packet};

/// One thing that is done, after those before it.
#[derive(Drop)]
pub enum Step {
    /// The handler inside is told these bytes, as they came; what it gives then is mended so.
    Tells(Bytes, Mend),
    /// The handler inside is told this packet.
    Asks(Packet, Mend),
    /// This packet is sent to the client.
    Answers(Packet),
}
