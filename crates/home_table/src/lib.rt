//! The table of homes: the nodes of a cluster, and which of them is the home of each client identifier.
//! The table of homes of a cluster on one machine: nodes `n0` and so on, each with ports of its own.
//! What a node is started with: the table of homes that a text is, and which of its nodes is to run.
#![tactic(auto)]

mod automatic;
mod configuration;
mod fault;
mod numbered;
mod prefixes;
mod rows;
mod table;

pub use configuration::configure;
pub use fault::TableFault;
pub use numbered::{homes_of, nodes_text, push_node};
pub use table::HomeTable;
