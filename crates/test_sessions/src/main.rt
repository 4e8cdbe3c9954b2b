//! Worked examples of what a broker holds of its clients: their sessions, the exchanges of these, and their table, in a crate of
//! their own so that the crates below are proved once.
#![tactic(auto)]

#[cfg(test)]
mod tests;

/// Does nothing: the examples are the tests.
fn main() {}
