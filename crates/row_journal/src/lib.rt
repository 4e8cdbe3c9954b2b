//! A journal before a store of rows: each list of changes becomes one row, and many lists become few changes of the store's rows.
#![tactic(auto)]

mod calls;
mod ends;
mod items;
mod journal;
pub mod laws;
mod reading;
mod repeats;
mod spelled;
mod store;
mod tops;

pub use calls::Bounds;
pub use store::JournaledRows;
