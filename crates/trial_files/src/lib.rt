//! Databases over two files in memory, as tests and trials open them: over files that stop or refuse a call, and over files with room from the start.
#![tactic(auto)]

mod counted;
mod database;
mod roomy;
mod stopping;

pub use counted::CountedDisk;
pub use database::{Left, adopted, files_of, left, opened};
pub use roomy::RoomyFile;
pub use stopping::{StoppingFile, Trouble, calls_of, leavings, stopping_files};
