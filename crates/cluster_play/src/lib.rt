//! A cluster in one process: nodes, the frames between them, and a trace of what they give out.
#![tactic(auto)]

mod cluster;
mod fault;
pub mod laws;
mod line;
mod release;
mod step;

pub use cluster::Cluster;
pub use fault::PlayFault;
pub use line::{Line, Trace};
pub use step::Step;
