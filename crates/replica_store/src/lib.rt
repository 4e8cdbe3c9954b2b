//! Operations, and the state that they make at each node: a delta-state replicated data type.
//! (Almeida, Shoker, Baquero, "Delta State Replicated Data Types".)
#![tactic(auto)]

mod answer;
mod content;
mod delta;
mod fault;
mod kept;
pub mod laws;
mod merge;
mod message;
mod newest;
mod operation;
mod retained;
mod stamp;
mod store;
mod topics;

pub use content::Content;
pub use delta::delta_of;
pub use fault::StoreFault;
pub use kept::Kept;
pub use newest::newest_of;
pub use operation::Operation;
pub use retained::RetainedMap;
pub use stamp::Stamp;
pub use store::ReplicaStore;
