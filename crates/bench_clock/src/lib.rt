//! What the programs that time parts of a broker share: a stopwatch, and why there is no figure.
#![tactic(auto)]

mod failure;
mod stopwatch;

pub use failure::{Failure, ensure};
pub use stopwatch::Stopwatch;
