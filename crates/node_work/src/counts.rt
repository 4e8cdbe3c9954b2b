//! What a node has left out.

/// How often a node has left something out. Each stays at 2^64 - 1.
#[derive(Clone, Copy, Debug, PartialEq, Eq)]
pub struct Counts {
    /// Copies for which a session's queue was full.
    pub queue_full: u64,
    /// Retained messages at QoS 0, and wills, for whose topic there was no room.
    pub retained_full: u64,
    /// Picks of shared groups whose client has no session, or no such subscription, at its home.
    pub picks_lost: u64,
    /// Messages for another node that found its lane full, or were too large for a frame.
    pub lane_full: u64,
    /// Frames that can't be read, or whose sender or receiver is wrong.
    pub bad_frames: u64,
    /// Frames that were too large to be sent.
    pub frames_too_large: u64,
    /// Tables of homes that weren't newer than the node's, or were for another number of nodes.
    pub tables_refused: u64,
}

/// What was left out for another node, or from one, or a table of homes that wasn't taken.
#[derive(Clone, Copy, Debug, PartialEq, Eq)]
pub enum Missed {
    /// A message for whose node too many wait, or that is too large for a frame.
    LaneFull,
    /// A frame that came and can't be read, or whose sender or receiver is wrong.
    BadFrame,
    /// A frame to be sent in which more would follow the length than may.
    FrameTooLarge,
    /// A table of homes that isn't newer than the node's, or is for another number of nodes.
    TableRefused,
}
