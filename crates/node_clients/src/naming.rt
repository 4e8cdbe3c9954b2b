//! The identifiers that a node gives to clients that bring none.

ghost use Rattle.std.specs.Prelude.{◌≡◌, IfOk, IfErr};
ghost use Rattle.node_clients.specs.Naming.{IsNextNumber, automatic};
ghost use Rattle.node_work.specs.declared.fault.NodeFault.TheVariants.{NoMemory};

use mqtt_fields::{NUMBERS_END, Text};
use node_work::{NodeFault, Work};
use std::alloc::Global;

/// The identifier that a node gives to a client by a number.
pub fn automatic(alloc: Global, id: u16, number: u64) -> Result<Text, NodeFault>
    ensures ok { IfOk result (λ name. name ≡ automatic id number) }
    ensures fault { IfErr result (λ e. e ≡ NoMemory) }
{
    let name = format!(in alloc; "auto-{id}-{number}")?;
    let Ok(name) = Text::new(alloc, name.as_str()) else {
        return Err(NodeFault::NoMemory);
    };
    Ok(name)
}

/// The least number above the last one given that names no session here; none where none is left below 2^62.
pub fn next_number(work: &Work) -> Result<Option<u64>, NodeFault>
    ensures ok { IfOk result (λ number. IsNextNumber work.now.place work.now.held number) }
    ensures fault { IfErr result (λ e. e ≡ NoMemory) }
{
    let held = work.held();
    for number in held.named() + 1..NUMBERS_END {
        let name = automatic(work.alloc(), work.id(), number)?;
        if !held.sessions().has(&name) {
            return Ok(Some(number));
        }
    }
    Ok(None)
}
