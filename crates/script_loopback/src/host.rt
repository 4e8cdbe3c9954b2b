//! Where the nodes' ends of connections are accepted, and connections to there.
ghost use Rattle.std.specs.Prelude.{◌≡◌, length, IfOk, IfErr};
ghost use Rattle.script_loopback.specs.Hosts.{IsListening, Joins, Listen};
ghost use Rattle.script_loopback.specs.declared.fault.WireFault.TheVariants as faults;

use crate::carrying::MOST_TURNS;
use crate::fault::WireFault;
use broker_sockets::{Sockets, bind};
use std::alloc::Global;
use std::net::SocketAddr;

/// Any free port of this machine.
const FREE: &str = "127.0.0.1:0";

/// Where connections to a node are accepted.
#[derive(Drop)]
pub struct Host<L: Drop> {
    pub listener: L,
    pub address: SocketAddr,
}

/// The two ends of a connection: the one that has connected, and the one that was accepted.
#[derive(Drop)]
pub struct Pair<T: Drop> {
    pub dialled: T,
    pub accepted: T,
}

/// Listens at a free port.
fn listen<S: Sockets>(sockets: &mut S) -> Result<Host<S::Listener>, WireFault>
    ensures ok { IfOk result (λ host. IsListening S.listens sockets.old host.listener sockets.new) }
    ensures err { IfErr result (λ fault. fault ≡ faults.Socket) }
{
    let Some(listener) = bind(sockets, FREE) else {
        return Err(WireFault::Socket);
    };
    match sockets.address(&listener) {
        Some(address) => Ok(Host { listener, address }),
        None => Err(WireFault::Socket),
    }
}

/// Listens at a free port for each of so many nodes.
pub fn listen_all<S: Sockets>(
    alloc: Global,
    sockets: &mut S,
    nodes: u16,
) -> Result<Vec<Host<S::Listener>>, WireFault>
    ensures ok { IfOk result (λ hosts. Listen S.listens hosts.items sockets.old sockets.new) }
    ensures each { IfOk result (λ hosts. length hosts.items ≡ nodes) }
{
    let mut hosts = Vec::new(alloc);
    for _ in 0..nodes {
        hosts.push(listen(sockets)?)?;
    }
    Ok(hosts)
}

/// Connects to a host, and accepts there.
pub fn join<S: Sockets>(
    sockets: &mut S,
    host: &Host<S::Listener>,
) -> Result<Pair<S::Stream>, WireFault>
    ensures { Joins S.connects S.accepts host.now sockets.old result sockets.new }
{
    let Ok(dialled) = sockets.connect(host.address) else {
        return Err(WireFault::Socket);
    };
    for _ in 0..MOST_TURNS {
        if let Some(accepted) = sockets.accept(&host.listener) {
            return Ok(Pair { dialled, accepted });
        }
    }
    Err(WireFault::Turns)
}
