//! The rows of a node that is down, read from copies of its database's files, which are only read. And what is found where a
//! database isn't opened, or its rows are no node's or can't be written.
//! What a node's rows hold, in figures and as text, or why they are no node's.
//! What the rows of a node that is down hold, told to whoever asks.
//! What HAProxy needs to send each client to its home, as text.
//! What is dropped of a node that is down, told to whoever asks.
#![tactic(auto)]

mod balancer;
mod balancing;
mod checking;
mod disk;
mod dropped;
mod dropping;
mod figures;
mod files;
mod flaw;
mod found;
mod laws;
mod rows;
mod text;

pub use balancer::balancer_text;
pub use balancing::balance;
pub use checking::check;
pub use disk::unwritten;
pub use dropped::dropped_text;
pub use dropping::{Asked, drop_rows};
pub use figures::{Figures, figures_of};
pub use flaw::Flaw;
pub use found::{found_of_flaw, found_of_open};
pub use laws::clients_are_sent_home;
pub use rows::{held, refused};
pub use text::report;
