//! Worked examples of the replicated state, of copies and picks, and of what goes between nodes, in a crate of their own so that
//! what they are of is proved once.
#![tactic(auto)]

#[cfg(test)]
mod contexts;
#[cfg(test)]
mod copies;
#[cfg(test)]
mod deltas;
#[cfg(test)]
mod frames;
#[cfg(test)]
mod routes;
#[cfg(test)]
mod spellings;
#[cfg(test)]
mod store;
#[cfg(test)]
mod subscriptions;
#[cfg(test)]
mod values;

/// Does nothing: the examples are the tests.
fn main() {}
