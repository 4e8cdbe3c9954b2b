//! A node that is served over sockets: what clients and other nodes send is handed to it, and what it gives out for them is sent.
#![tactic(auto)]

mod convert;
mod fault;
mod losses;
mod opening;
mod peers;
mod run;
mod served;
mod stack;
mod status;
mod straining;
mod tables;
mod viewed;
mod watchers;

pub use opening::open_after;
pub use run::{ListenAt, serve};
pub use served::ServedNode;
pub use stack::{
    BoundedNode, GuardedNode, LimitedNode, LoggedNode, TabledNode, TalliedNode, ViewedNode,
};
pub use status::{NodeTeller, StatusPlace};
pub use straining::bridges_of;
pub use viewed::{Viewed, Viewer, viewing_changes_nothing};
