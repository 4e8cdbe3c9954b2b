//! Connections by their place.
ghost use Rattle.std.specs.Prelude.{◌≡◌, filter, position, not};
ghost use Rattle.script_loopback.specs.Network.{Adds, Reaches, is_at};

use crate::fault::WireFault;
use crate::host::{Host, Pair, join};
use broker_sockets::Sockets;

/// A connection that was accepted at a node, under a number: a client's connection, or the number of the node that dialled.
#[derive(Drop)]
pub struct Wire<T: Drop> {
    pub node: u16,
    pub number: u64,
    pub pair: Pair<T>,
}

impl<T: Drop> Wire<T> {
    ghost use Rattle.script_loopback.specs.Network.{is_of};

    /// Whether it leads to a node, under a number.
    fn is_at(&self, node: u16, number: u64) -> bool
        ensures { result ≡ is_at node number self.now }
    {
        self.node == node && self.number == number
    }

    /// Whether it is a link to a node or from it.
    pub fn is_of(&self, node: u16) -> bool
        ensures { result ≡ is_of node self.now }
    {
        self.node == node || self.number == u64::from(node)
    }
}

/// Where the wire to a node under a number stands, if there is one.
pub fn place_of<T: Drop>(wires: &[Wire<T>], node: u16, number: u64) -> Option<usize>
    ensures { result ≡ position (is_at node number) wires.now }
{
    wires.iter().position(|wire| wire.is_at(node, number))
}

/// Takes the wire to a node under a number away, and closes its ends.
pub fn remove<T: Drop>(wires: &mut Vec<Wire<T>>, node: u16, number: u64)
    ensures { wires.new.items ≡ filter (λ w. not (is_at node number w)) wires.old.items }
{
    wires.retain(|wire| !wire.is_at(node, number));
}

/// Makes a wire to a node under a number. `Socket`: nothing listens for the node, or it can't be connected to.
fn add<S: Sockets>(
    sockets: &mut S,
    hosts: &[Host<S::Listener>],
    wires: &mut Vec<Wire<S::Stream>>,
    node: u16,
    number: u64,
) -> Result<(), WireFault>
    ensures { Adds S.connects S.accepts hosts.now node number (sockets.old, wires.old.items) result (sockets.new, wires.new.items) }
{
    let Some(host) = hosts.get(usize::from(node)) else {
        return Err(WireFault::Socket);
    };
    wires.reserve(1)?;
    let pair = join(sockets, host)?;
    wires.push_reserved(Wire { node, number, pair });
    Ok(())
}

/// Where the wire to a node under a number stands, which is made if there is none.
pub fn reach<S: Sockets>(
    sockets: &mut S,
    hosts: &[Host<S::Listener>],
    wires: &mut Vec<Wire<S::Stream>>,
    node: u16,
    number: u64,
) -> Result<usize, WireFault>
    ensures { Reaches S.connects S.accepts hosts.now node number (sockets.old, wires.old.items) result (sockets.new, wires.new.items) }
{
    let place = place_of(wires, node, number);
    if let Some(place) = place {
        return Ok(place);
    }
    add(sockets, hosts, wires, node, number)?;
    Ok(wires.len() - 1)
}
