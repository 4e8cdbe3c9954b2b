//! Turns over sockets: what a turn does with the connections of clients and the links between nodes, and turns one after another.
#![tactic(auto)]

mod clients;
mod hub;
pub mod laws;
mod lines;
mod links;
mod numbers;
mod pace;
mod setting;
mod turn;

pub use hub::Hub;
pub use setting::Setting;
pub use turn::TurnFault;
