//! What goes through a node.

/// What came and went in some time. Frames are those of other nodes and to them, each with its length.
#[derive(Clone, Copy, Debug, PartialEq, Eq)]
pub struct Traffic {
    /// Connections of clients that were opened.
    pub opened: u64,
    /// Bytes that came from clients.
    pub bytes_received: u64,
    /// Packets that were given out for clients.
    pub packets_sent: u64,
    /// The bytes of these packets.
    pub bytes_sent: u64,
    pub frames_received: u64,
    pub frame_bytes_received: u64,
    pub frames_sent: u64,
    pub frame_bytes_sent: u64,
}
