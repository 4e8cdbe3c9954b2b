//! A node that a configuration names, served over the machine's sockets with its rows in a database.
#![tactic(auto)]

mod causes;
mod gauge;
mod machine;
mod refusal;
mod run;
mod service;
mod source;
mod status;
mod telling;

pub use run::serve;
pub use service::{Named, Service, StatusAt};
