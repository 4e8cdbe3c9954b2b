//! What holds over every run of a cluster: what is told to a client stays true, and the lanes between nodes keep their order and lose
//! nothing. Each function does nothing: its contract is the law.
//! What clients are answered, exactly: each function does nothing, and its contract is a law of every run of a cluster.
//! What an acknowledgement tells, in every step of a node: a message is passed on in the step that acknowledges it, and the
//! operations of a SUBSCRIBE or an UNSUBSCRIBE are made in the step that answers it. And the copies of a message from another node
//! join their sessions in the step that takes it. Each function does nothing: its contract is the law.
#![tactic(auto)]

pub mod answering;
pub mod asking;
pub mod connecting;
pub mod handing;
pub mod holding;
pub mod lanes;
pub mod publishing;
pub mod sending;
pub mod step_asking;
pub mod step_publishing;
pub mod step_sending;
pub mod subscribing;
