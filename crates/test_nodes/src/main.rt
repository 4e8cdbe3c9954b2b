//! Worked examples of a node with its rows, and of nodes together whose steps no script has.
#![tactic(auto)]

#[cfg(test)]
mod batches;
#[cfg(test)]
mod clusters;
#[cfg(test)]
mod crashes;
#[cfg(test)]
mod frames;
#[cfg(test)]
mod keepers;
#[cfg(test)]
mod lanes;
#[cfg(test)]
mod last_numbers;
#[cfg(test)]
mod limits;
#[cfg(test)]
mod long_messages;
#[cfg(test)]
mod long_states;
#[cfg(test)]
mod nodes;
#[cfg(test)]
mod numbers;
#[cfg(test)]
mod packets;
#[cfg(test)]
mod playing;
#[cfg(test)]
mod refusals;
#[cfg(test)]
mod retained;
#[cfg(test)]
mod rooms;
#[cfg(test)]
mod tables;
#[cfg(test)]
mod trial;
#[cfg(test)]
mod versions;

/// Does nothing: the examples are the tests.
fn main() {}
