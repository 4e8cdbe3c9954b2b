//! The peers of a node in JSON.

ghost use Rattle.std.specs.Prelude.{◌≡◌, ◌++◌, string_bytes, OnOk};
ghost use Rattle.status_pages.specs.Status.{counts_of, with_peer, with_peers, with_place, with_state};

use crate::members::{before_of, push_member, push_number, quoted, truth};
use status_figures::Peer;
use std::alloc::{AllocError, Global};

/// The name of a node, its number, and its addresses for clients and for peers; the texts are in their quotes.
#[tactic(auto, unfolding(crate::specs::Status::with_place))]
pub(crate) fn push_place(
    text: &mut String,
    before: &str,
    name: &str,
    number: u16,
    address: &str,
    bridge: &str,
) -> Result<(), AllocError>
    ensures { OnOk result (string_bytes text.new ≡ with_place before.now name.now number address.now bridge.now (string_bytes text.old)) }
{
    push_member(text, before, "name", name)?;
    push_number(text, ",", "number", u64::from(number))?;
    push_member(text, ",", "address", address)?;
    push_member(text, ",", "bridge", bridge)
}

/// How much it lacks, has more, and waits for.
#[tactic(auto, unfolding(crate::specs::Status::counts_of))]
fn push_counts_of(text: &mut String, peer: &Peer) -> Result<(), AllocError>
    ensures { OnOk result (string_bytes text.new ≡ string_bytes text.old ++ counts_of peer.now) }
{
    push_number(text, ",", "lacking", peer.lacking)?;
    push_number(text, ",", "missing", peer.missing)?;
    push_number(text, ",", "waiting", peer.waiting)?;
    push_member(text, ",", "lane_full", truth(!peer.has_room()))?;
    text.push_str("}")
}

/// How it stands with a peer.
#[tactic(auto, unfolding(crate::specs::Status::with_state))]
fn push_state(text: &mut String, peer: &Peer) -> Result<(), AllocError>
    ensures { OnOk result (string_bytes text.new ≡ with_state peer.now (string_bytes text.old)) }
{
    push_member(text, ",", "linked", truth(peer.linked))?;
    push_number(text, ",", "linked_milliseconds", peer.up)?;
    push_number(text, ",", "away_milliseconds", peer.away)?;
    push_member(text, ",", "heard", truth(peer.heard))?;
    push_member(text, ",", "equal", truth(peer.is_equal()))?;
    push_counts_of(text, peer)
}

/// The peer with this index.
fn push_peer(alloc: Global, text: &mut String, index: usize, peer: &Peer) -> Result<(), AllocError>
    ensures { OnOk result (string_bytes text.new ≡ with_peer index peer.now (string_bytes text.old)) }
{
    let name = quoted(alloc, &peer.name)?;
    let address = quoted(alloc, &peer.address)?;
    let bridge = quoted(alloc, &peer.bridge)?;
    push_place(
        text,
        before_of(index),
        &name,
        peer.number,
        &address,
        &bridge,
    )?;
    push_state(text, peer)
}

/// The peers, with commas between them.
pub(crate) fn push_peers(alloc: Global, text: &mut String, peers: &[Peer]) -> Result<(), AllocError>
    ensures { OnOk result (string_bytes text.new ≡ with_peers 0 peers.now (string_bytes text.old)) }
{
    for (index, peer) in peers.iter().enumerate() {
        push_peer(alloc, text, index, peer)?;
    }
    Ok(())
}
