//! What is told of the other nodes.

ghost use Rattle.std.specs.Prelude.{◌≡◌, ◌<◌, Some, IfOk, length, map, string_bytes};
ghost use Rattle.std.specs.Option.{option_copied};
ghost use Rattle.node_figures.specs.Peers.{address_of, away_by, bridge_of, lacking_by, lacking_of, missing_by, missing_of, others, peer_at, seen, up_by};
ghost use Rattle.node_work.specs.View.{HeldView};

use crate::count_lacking;
use bridge_lanes::LANE_ROOM;
use broker_node::Node;
use causal_context::Context;
use home_table::HomeTable;
use mqtt_fields::NoMemory;
use status_figures::Peer;
use status_tally::{Link, Tally};
use std::alloc::Global;

/// How many dots of these aren't known of, where these are known, or where nothing is.
fn count_of(alloc: Global, taken: &Context, known: Option<&Context>) -> Result<u64, NoMemory>
    ensures { IfOk result (λ count. count ≡ lacking_by taken.now (option_copied known.entry)) }
{
    match known {
        Some(known) => count_lacking(taken, known),
        None => count_lacking(taken, &Context::new(alloc)),
    }
}

/// How many operations a node has taken that another one isn't known to have.
fn lacking_of(alloc: Global, node: &Node, number: u16) -> Result<u64, NoMemory>
    ensures { IfOk result (λ count. (h : HeldView) → node.now.up ≡ Some h → count ≡ lacking_of h number) }
{
    count_of(alloc, node.store().taken(), node.belief(number))
}

/// How many dots are known of that aren't of these.
fn missing_by(taken: &Context, known: Option<&Context>) -> Result<u64, NoMemory>
    ensures { IfOk result (λ count. count ≡ missing_by taken.now (option_copied known.entry)) }
{
    match known {
        Some(known) => count_lacking(known, taken),
        None => Ok(0),
    }
}

/// How many operations another node is known to have that a node hasn't taken.
fn missing_of(node: &Node, number: u16) -> Result<u64, NoMemory>
    ensures { IfOk result (λ count. (h : HeldView) → node.now.up ≡ Some h → count ≡ missing_of h number) }
{
    missing_by(node.store().taken(), node.belief(number))
}

/// The address at which clients reach a node of a table; empty where the table hasn't that node.
fn address_of(alloc: Global, homes: &HomeTable, number: u16) -> Result<String, NoMemory>
    ensures { IfOk result (λ text. string_bytes text ≡ address_of homes.now number) }
{
    if number < homes.nodes() {
        Ok(String::from_str(alloc, homes.reference(number))?)
    } else {
        Ok(String::new(alloc))
    }
}

/// The same of the address at which other nodes reach it.
fn bridge_of(alloc: Global, homes: &HomeTable, number: u16) -> Result<String, NoMemory>
    ensures { IfOk result (λ text. string_bytes text ≡ bridge_of homes.now number) }
{
    if number < homes.nodes() {
        Ok(String::from_str(alloc, homes.bridge(number))?)
    } else {
        Ok(String::new(alloc))
    }
}

/// The address at which clients reach a node.
pub(crate) fn own_address(alloc: Global, node: &Node) -> Result<String, NoMemory>
    ensures { IfOk result (λ text. string_bytes text ≡ address_of node.now.homes node.now.place.id) }
{
    address_of(alloc, node.homes(), node.id())
}

/// The address at which other nodes reach it.
pub(crate) fn own_bridge(alloc: Global, node: &Node) -> Result<String, NoMemory>
    ensures { IfOk result (λ text. string_bytes text ≡ bridge_of node.now.homes node.now.place.id) }
{
    bridge_of(alloc, node.homes(), node.id())
}

/// For how many milliseconds there has been a link, at a node that runs since a moment.
fn up_by(since: u64, at: u64, link: Link) -> u64
    ensures { result ≡ up_by since at link }
{
    if link.up {
        at.saturating_sub(link.since.max(since))
    } else {
        0
    }
}

/// For how many milliseconds there has been no link, at a node that runs since a moment.
fn away_by(since: u64, at: u64, link: Link) -> u64
    ensures { result ≡ away_by since at link }
{
    if link.up {
        0
    } else {
        at.saturating_sub(link.since.max(since))
    }
}

/// What is told of another node.
fn peer_of(
    alloc: Global,
    node: &Node,
    tally: &Tally,
    since: u64,
    at: u64,
    number: u16,
) -> Result<Peer, NoMemory>
    requires { number < length node.now.homes.nodes }
    ensures { IfOk result (λ peer. (h : HeldView) → node.now.up ≡ Some h → seen peer ≡ peer_at node.now.homes h tally.now since at number) }
{
    let lacking = lacking_of(alloc, node, number)?;
    let missing = missing_of(node, number)?;
    let name = String::from_str(alloc, node.homes().name(number))?;
    let address = address_of(alloc, node.homes(), number)?;
    let bridge = bridge_of(alloc, node.homes(), number)?;
    let link = tally.link(number);
    Ok(Peer {
        name,
        number,
        address,
        bridge,
        linked: link.up,
        up: up_by(since, at, link),
        away: away_by(since, at, link),
        heard: link.is_heard(at),
        lacking,
        missing,
        waiting: node.waiting(number) as u64,
        room: LANE_ROOM as u64,
    })
}

/// What is told of the other nodes, by their numbers.
pub(crate) fn peers_of(
    alloc: Global,
    node: &Node,
    tally: &Tally,
    since: u64,
    at: u64,
) -> Result<Vec<Peer>, NoMemory>
    ensures { IfOk result (λ peers. (h : HeldView) → node.now.up ≡ Some h
        → map seen peers.items ≡ map (peer_at node.now.homes h tally.now since at) (others node.now.place.id (length node.now.homes.nodes))) }
{
    let mut peers = Vec::new(alloc);
    for number in 0..node.homes().nodes() {
        if number != node.id() {
            peers.push(peer_of(alloc, node, tally, since, at, number)?)?;
        }
    }
    Ok(peers)
}
