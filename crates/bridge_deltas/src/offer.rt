//! Whether a message was put into a lane.

/// Whether a message was put into a lane.
#[derive(Clone, Copy, Debug, PartialEq, Eq)]
pub enum Offer {
    /// It waits under this number.
    Queued(u64),
    /// As many messages wait as may.
    Full,
    /// A number of 2^62 would be needed.
    AtEnd,
}
