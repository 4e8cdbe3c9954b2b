//! A store of rows in a table of a SQL database, beside the rows of `row_store`.
#![tactic(auto)]

mod found;
mod runs;
mod schema;
pub mod sql;
mod statements;

pub use row_store::{Change, MemoryRows, Row, RowFault, RowStore};
pub use sql::SqlRows;
