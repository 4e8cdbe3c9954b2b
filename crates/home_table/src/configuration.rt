//! What a node is started with: the table of homes that a text is, and which of its nodes is to run.

ghost use Rattle.std.specs.Prelude.{◌≡◌, ◌⊎◌, ◌<◌, length, Ok, Err, IfOk, IfErr};
ghost use Rattle.home_table.specs.Configurations.{configuration};

use crate::{HomeTable, TableFault};
use std::alloc::Global;

/// The table of homes that a text is, and the number in it of the node of a name, for which the table has the addresses.
/// A fault is the text's own, in the order of `TableFault`, or `UnknownNode` where the text is a table that has no such
/// node; `NoMemory` may stand for a later one.
pub fn configure(alloc: Global, text: &str, node: &str) -> Result<(HomeTable, u16), TableFault>
    ensures configured { IfOk result (λ c. configuration text.now node.now ≡ Ok c) }
    ensures below { IfOk result (λ c. c.1 < length c.0.nodes) }
    ensures fault { IfErr result (λ e. (e ≡ TableFault.NoMemory) ⊎ (configuration text.now node.now ≡ Err e)) }
{
    let table = HomeTable::parse(alloc, text)?;
    let Some(number) = table.find(node) else {
        return Err(TableFault::UnknownNode);
    };
    Ok((table, number))
}
