//! The kinds of a node's rows. Each kind has its number here and nowhere else.

/// The mark, which says whose the rows are and of which version.
pub const MARK: u8 = 1;

/// A session's own row.
pub const SESSION: u8 = 2;

/// A copy of a message, which waits for a client.
pub const COPY: u8 = 3;

/// A subscription.
pub const SUBSCRIPTION: u8 = 4;

/// A retained message.
pub const RETAINED: u8 = 5;

/// The operations that were taken, and those that were seen. No row of the replicated state has a greater kind.
pub const CONTEXT: u8 = 6;

/// A message that waits for another node.
pub const MESSAGE: u8 = 7;

/// The numbers of a lane to another node.
pub const NUMBERS: u8 = 8;

/// A turn in the journal.
pub const JOURNAL: u8 = 240;
