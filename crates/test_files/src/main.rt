//! Worked examples of the table of homes in a file.
//! Worked examples of files of users and of permissions, and of the line of a user.
//! Worked examples of the files that the program is started with, in a crate of their own so that what reads them is proved once.
//! Worked examples of what is told of a node's rows, in a crate of their own so that what tells it is proved once.
//! Worked examples of what the program reads and how it ends, in a crate of their own so that those crates are proved once.
#![tactic(auto)]

#[cfg(test)]
mod balancers;
#[cfg(test)]
mod command_lines;
#[cfg(test)]
mod configurations;
#[cfg(test)]
mod drops;
#[cfg(test)]
mod files;
#[cfg(test)]
mod homes;
#[cfg(test)]
mod reports;
#[cfg(test)]
mod script_files;
#[cfg(test)]
mod scripts;
#[cfg(test)]
mod stops;
#[cfg(test)]
mod user_files;

/// Does nothing: the examples are the tests.
fn main() {}
