//! Worked examples of nodes that are served, and of a node whose rows are in a database, in a crate of their own so that what
//! serves them is proved once.
#![tactic(auto)]

#[cfg(test)]
mod causes;
#[cfg(test)]
mod checks;
#[cfg(test)]
mod databases;
#[cfg(test)]
mod openings;
#[cfg(test)]
mod served;
#[cfg(test)]
mod serving;
#[cfg(test)]
mod versions;

/// Does nothing: the examples are the tests.
fn main() {}
