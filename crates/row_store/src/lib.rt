//! Rows, changes of them, and stores of rows: a map from keys to bytes that is changed whole. One that
//! lies in memory stands here.
//! Changes of rows key by key: what they leave at each key, what they leave one list after another, and many of them
//! gathered so that each key is named once.
#![tactic(auto)]

pub mod change_laws;
pub mod gathered;
pub mod kinds;
pub mod memory;
pub mod row;
pub mod store;

pub use gathered::{gather, last_of_each};
pub use memory::MemoryRows;
pub use row::{Change, Row, are_rising};
pub use store::{RowFault, RowStore};
