//! Tests of the stores of rows, in a crate of their own so that those are proved once.
//! Rows of versions 1 and 2 that are written as rows of version 3, and a step of a node, over a database whose files stop at each call of
//! them in turn.
#![tactic(auto)]

#[cfg(test)]
mod ends;
#[cfg(test)]
mod journals;
#[cfg(test)]
mod samples;
#[cfg(test)]
mod stops;
#[cfg(test)]
mod stops_at_versions;
#[cfg(test)]
mod tests;
#[cfg(test)]
mod version_journals;
#[cfg(test)]
mod versions;
