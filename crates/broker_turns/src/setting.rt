//! What a hub is set up with.

use std::alloc::Global;
use std::net::SocketAddr;

/// Where a hub waits for clients and for other nodes, and by the numbers of the cluster's nodes where it finds these. Its
/// own number has no address.
#[derive(Drop)]
pub struct Setting<L: Drop> {
    pub listener: L,
    pub bridge: L,
    pub peers: Vec<Option<SocketAddr>>,
}
