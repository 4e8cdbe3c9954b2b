//! What the calls answer.

/// Whether a copy joined the queue.
#[derive(Clone, Copy, PartialEq, Eq)]
pub enum Offer {
    Queued,
    /// As many copies wait as may.
    Full,
    /// No place is left below 2^62.
    AtEnd,
}

/// Whether an acknowledgement ended an exchange.
#[derive(Clone, Copy, PartialEq, Eq)]
pub enum Ack {
    Done,
    /// It was no answer to an unfinished exchange.
    Unknown,
}

/// What follows from a PUBREC.
#[derive(Clone, Copy, PartialEq, Eq)]
pub enum Rec {
    /// A PUBREL is to be sent.
    Release,
    /// The exchange has ended: the client didn't take the message.
    Ended,
    /// It was no answer to an unfinished exchange.
    Unknown,
    /// No order of release is left below 2^62.
    AtEnd,
}

/// What a PUBLISH at QoS 1 or 2 is.
#[derive(Clone, Copy, PartialEq, Eq)]
pub enum In {
    /// Its message is to be passed on.
    New,
    /// It opened this exchange before.
    Repeat,
    /// A QoS 2 exchange uses its identifier.
    InUse,
    /// The client has as many exchanges open on this connection as it may.
    OverMaximum,
}
