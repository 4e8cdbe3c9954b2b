//! The table of homes of a cluster on one machine: nodes `n0` and so on, each with ports of its own.

ghost use Rattle.std.specs.Prelude.{◌≡◌, length, IfSome};

use crate::HomeTable;
use std::alloc::{AllocError, Global};

/// The port on which the first node has its clients.
const CLIENTS: u32 = 1883;

/// The port on which the first node has the other nodes.
const BRIDGES: u32 = 2883;

/// Adds the rows of the node of this number.
pub fn push_node(text: &mut String, node: u16) -> Result<(), AllocError> {
    let clients = CLIENTS + node as u32;
    let bridge = BRIDGES + node as u32;
    writeln!(text, "[[node]]\nname = \"n{node}\"")?;
    writeln!(text, "address = \"127.0.0.1:{clients}\"")?;
    writeln!(text, "bridge = \"127.0.0.1:{bridge}\"")
}

/// The rows of so many nodes.
pub fn nodes_text(alloc: Global, nodes: u16) -> Result<String, AllocError> {
    let mut text = String::new(alloc);
    for node in 0..nodes {
        push_node(&mut text, node)?;
    }
    Ok(text)
}

/// The table of so many nodes, without homes by prefixes. None: memory ran out, or there is no node or are more than 64.
pub fn homes_of(alloc: Global, nodes: u16) -> Option<HomeTable>
    ensures { IfSome result (λ homes. length homes.nodes ≡ nodes) }
{
    let text = nodes_text(alloc, nodes).ok()?;
    let homes = HomeTable::parse(alloc, text.as_str()).ok()?;
    if homes.nodes() == nodes {
        Some(homes)
    } else {
        None
    }
}
