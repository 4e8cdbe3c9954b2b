//! A door at which a node that runs is given newer tables of homes.
#![tactic(auto)]

mod door;
mod laws;
mod tables;

pub use door::Tabled;
pub use laws::{no_tables_change_nothing, tables_are_newer};
pub use tables::{NoTables, Tables, TakesTables};
