//! Worked examples of scripts that are run, in a crate of their own so that what runs them is proved once.
#![tactic(auto)]

#[cfg(test)]
mod tests;
#[cfg(test)]
mod wires;

/// Does nothing: the examples are the tests.
fn main() {}
