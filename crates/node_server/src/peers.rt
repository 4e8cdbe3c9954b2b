//! Where a node finds the other nodes of its table.

ghost use Rattle.std.specs.Prelude.{◌≡◌, ◌<◌, ◌≤◌, ◌++◌, [], ◌∷◌, length, IfOk, OnOk};
ghost use Rattle.node_server.specs.Peers.{ArePeers, IsPeer};

use cli_stops::RunFault;
use home_table::HomeTable;
use std::alloc::Global;
use std::net::SocketAddr;

/// Where a node finds another one, or nothing at its own number. `Socket`: the other's bridge isn't an IP address with a
/// port.
fn peer_of(homes: &HomeTable, id: u16, number: u16) -> Result<Option<SocketAddr>, RunFault>
    requires { number < length homes.now.nodes }
    ensures { IfOk result (IsPeer homes.now.nodes id number) }
{
    if number == id {
        return Ok(None);
    }
    match homes.bridge(number).parse::<SocketAddr>() {
        Ok(address) => Ok(Some(address)),
        Err(_) => Err(RunFault::Socket),
    }
}

fn add(peers: &mut Vec<Option<SocketAddr>>, peer: Option<SocketAddr>) -> Result<(), RunFault>
    ensures { OnOk result (peers.new.items ≡ peers.old.items ++ peer ∷ []) }
{
    match peers.push(peer) {
        Ok(()) => Ok(()),
        Err(_) => Err(RunFault::NoMemory),
    }
}

/// Where a node finds the others, by their numbers.
pub(crate) fn peers_of(
    alloc: Global,
    homes: &HomeTable,
    id: u16,
) -> Result<Vec<Option<SocketAddr>>, RunFault>
    requires { id < length homes.now.nodes }
    ensures peers { IfOk result (λ peers. ArePeers homes.now.nodes id peers.items) }
    ensures few { IfOk result (λ peers. length peers.items ≤ 64) }
{
    let mut peers = Vec::new(alloc);
    for number in 0..homes.nodes() {
        add(&mut peers, peer_of(homes, id, number)?)?;
    }
    Ok(peers)
}
