//! What is dropped of a node that is down: a client's queue, a client's session, or what waits for another node. Its rows become those of the node without it.
#![tactic(auto)]

mod changes;
mod editing;
mod store;
mod target;

pub use changes::changes_of;
pub use store::drop_in;
pub use target::Target;
