//! What is dropped of a node.

/// What is dropped of a node.
#[derive(Debug, PartialEq, Eq, Drop)]
pub enum Target {
    /// The session of a client: it is over as soon as the node is started.
    Session(String),
    /// The messages that wait in the queue of a client; those that are on their way stay.
    Queue(String),
    /// The messages that wait for the node with this number.
    Lane(u16),
}
