//! Hostile bytes at a node: streams of clients, which it answers by its table and by the standard, and frames from another node; beside each of them
//! a witness is served.
#![tactic(auto)]

#[cfg(test)]
mod answers;
#[cfg(test)]
mod changes;
#[cfg(test)]
mod frames;
#[cfg(test)]
mod heard;
#[cfg(test)]
mod packets;
#[cfg(test)]
mod streams;

/// Does nothing: the examples are the tests.
fn main() {}
