//! Why a step makes an operation, and why a node stops: each function does nothing, and its contract is a law.
//! What SUBSCRIBEs, UNSUBSCRIBEs and the other causes of operations come to: each function does nothing, and its contract is a law of
//! every run of a cluster.
//! What was told to other nodes, and what sessions were given, stays so: each function does nothing, and its contract is a law.
#![tactic(auto)]

pub mod causes;
pub mod cleared;
pub mod copies;
pub mod disconnects;
pub mod gots;
pub mod identifiers;
pub mod operations;
pub mod stops;
