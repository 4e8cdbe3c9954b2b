//! The bytes of a replicated store, both ways, and of what it is made of.
#![tactic(auto)]

mod entry;
mod kept;
pub mod laws;
mod retained;
mod store;
mod subscriptions;
mod values;

pub use entry::{entry_of, write_subscription};
pub use kept::{kept_at, kept_fits, write_kept};
pub use retained::content_of;
pub use store::{read_store, write_store};
pub use values::{dot_at, filter_at, write_dot};
