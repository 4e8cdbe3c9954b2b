//! What worked examples of databases begin with: a table of homes, a node that writes rows, and a file that an earlier program wrote.
#![tactic(auto)]

mod first;
mod node;

pub use first::write_file;
pub use node::{PACKETS, held};

/// Two nodes, each at any ports that are free.
pub const HOMES: &str =
    "[[node]]\nname = \"n0\"\naddress = \"127.0.0.1:0\"\nbridge = \"127.0.0.1:0\"\n\
    [[node]]\nname = \"n1\"\naddress = \"127.0.0.1:0\"\nbridge = \"127.0.0.1:0\"\n";
