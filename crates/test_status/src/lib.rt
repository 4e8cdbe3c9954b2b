//! Tests of what a node answers to those who ask for its status, over sockets in memory, and of what is counted, in a crate of their own so
//! that the crates below are proved once.
//! Tests of the door that tells of clients and links, in a crate of their own so that the door is proved once.
#![tactic(auto)]

#[cfg(test)]
mod answers;
#[cfg(test)]
mod doors;
#[cfg(test)]
mod figures;
#[cfg(test)]
mod losses;
#[cfg(test)]
mod mirror;
#[cfg(test)]
mod paper;
#[cfg(test)]
mod porter;
#[cfg(test)]
mod tallies;
#[cfg(test)]
mod turns;
