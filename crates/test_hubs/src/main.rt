//! Worked examples of nodes that are served over sockets in memory.
#![tactic(auto)]

#[cfg(test)]
mod holds;
#[cfg(test)]
mod hubs;
#[cfg(test)]
mod lent;
#[cfg(test)]
mod statuses;
#[cfg(test)]
mod tables;

/// Does nothing: the examples are the tests.
fn main() {}
