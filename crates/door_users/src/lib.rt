//! Who may come and what each may do, by two files: users with their passwords as `mosquitto_passwd` writes them, and rules as in Mosquitto's `acl_file`.
#![tactic(auto)]

mod account;
mod fault;
mod file_access;
mod filter;
pub mod laws;
mod line;
mod lines;
mod password;
mod rules;
mod users;

pub use account::Account;
pub use fault::{AccessFault, FileFault, LineFlaw, Unread};
pub use file_access::FileAccess;
pub use password::{DEFAULT_ITERATIONS, MOST_ITERATIONS, is_user_name, user_line};
pub use rules::read_permissions;
pub use users::{Entry, Users};
