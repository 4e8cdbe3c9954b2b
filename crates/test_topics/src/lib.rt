//! Tests of the maps by topic filter and by topic name.
//! Worked examples of passwords, and of what users may do.
#![tactic(auto)]

#[cfg(test)]
mod examples;
#[cfg(test)]
mod hashes;
#[cfg(test)]
mod pairs;
#[cfg(test)]
mod permissions;
#[cfg(test)]
mod values;
