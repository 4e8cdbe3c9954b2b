//! The peers of a node, as the page shows them.

ghost use Rattle.std.specs.Prelude.{◌≡◌, ◌++◌, string_bytes, IfOk, OnOk};
ghost use Rattle.std.specs.Fmt.{decimal};
ghost use Rattle.status_texts.specs.Peers.{apart_line, apart_text, class_of, counts_text, differing_text, equal_text, gate_text, link_text, room_text, short_line, state_text, untaken_line, with_apart, with_peer, with_peers, with_untaken};

use crate::escape::escaped;
use crate::rows::{push_cell, push_number_cell, push_start, uptime_text};
use status_figures::{Figures, Peer, Usage};
use std::alloc::{AllocError, Global};

pub(crate) fn class_of(peer: &Peer) -> &'static str
    ensures { result.now ≡ class_of peer.now }
{
    if peer.agrees() { "agrees" } else { "apart" }
}

/// Whether a peer is linked, or for how long it hasn't been.
fn link_of(alloc: Global, peer: &Peer) -> Result<String, AllocError>
    ensures { IfOk result (λ text. string_bytes text ≡ link_text peer.now) }
{
    if peer.linked {
        return String::from_str(alloc, "linked");
    }
    let away = uptime_text(alloc, peer.away)?;
    format!(in alloc; "not linked for {away}")
}

/// Appends two numbers, each after its text.
fn push_two(
    text: &mut String,
    first: &str,
    one: u64,
    second: &str,
    other: u64,
) -> Result<(), AllocError>
    ensures { OnOk result (string_bytes text.new ≡ string_bytes text.old ++ first.now ++ decimal one ++ second.now ++ decimal other) }
{
    write!(text, "{first}{one}{second}{other}")
}

/// How many operations a peer lacks, and how many it has more than the node.
#[tactic(auto, unfolding(crate::specs::Peers::counts_text))]
fn counts_of(alloc: Global, lacking: u64, missing: u64) -> Result<String, AllocError>
    ensures { IfOk result (λ text. string_bytes text ≡ counts_text lacking missing) }
{
    let mut text = String::new(alloc);
    push_two(
        &mut text,
        "lacking operations: ",
        lacking,
        ", more than here: ",
        missing,
    )?;
    Ok(text)
}

/// How a peer differs that isn't equal.
fn differing_of(alloc: Global, peer: &Peer) -> Result<String, AllocError>
    ensures { IfOk result (λ text. string_bytes text ≡ differing_text peer.now) }
{
    if peer.heard {
        counts_of(alloc, peer.lacking, peer.missing)
    } else {
        String::from_str(alloc, "not heard since the start")
    }
}

/// Whether a peer is equal, or how it differs.
fn equal_of(alloc: Global, peer: &Peer) -> Result<String, AllocError>
    ensures { IfOk result (λ text. string_bytes text ≡ equal_text peer.now) }
{
    if peer.is_equal() {
        String::from_str(alloc, "equal")
    } else {
        differing_of(alloc, peer)
    }
}

/// Where no more messages can wait for it.
fn room_of(peer: &Peer) -> &'static str
    ensures { result.now ≡ room_text peer.now }
{
    if peer.has_room() { "" } else { ", lane full" }
}

/// How it stands with a peer.
pub(crate) fn state_of(alloc: Global, peer: &Peer) -> Result<String, AllocError>
    ensures { IfOk result (λ text. string_bytes text ≡ state_text peer.now) }
{
    let mut text = equal_of(alloc, peer)?;
    text.push_str(room_of(peer))?;
    Ok(text)
}

/// The line of a peer: its name, its bridge, the link, the state, and how many messages wait.
#[tactic(auto, unfolding(crate::specs::Peers::with_peer))]
fn push_peer(alloc: Global, text: &mut String, peer: &Peer) -> Result<(), AllocError>
    ensures { OnOk result (string_bytes text.new ≡ with_peer peer.now (string_bytes text.old)) }
{
    let name = escaped(alloc, &peer.name)?;
    let bridge = escaped(alloc, &peer.bridge)?;
    let link = link_of(alloc, peer)?;
    let state = state_of(alloc, peer)?;
    push_start(text, class_of(peer))?;
    push_cell(text, &name)?;
    push_cell(text, &bridge)?;
    push_cell(text, &link)?;
    push_cell(text, &state)?;
    push_number_cell(text, peer.waiting)?;
    text.push_str("</tr>\n")
}

/// The lines of all peers.
pub(crate) fn push_peers(alloc: Global, text: &mut String, peers: &[Peer]) -> Result<(), AllocError>
    ensures { OnOk result (string_bytes text.new ≡ with_peers peers.now (string_bytes text.old)) }
{
    for peer in peers {
        push_peer(alloc, text, peer)?;
    }
    Ok(())
}

#[tactic(auto, unfolding(crate::specs::Peers::apart_line))]
fn push_apart_line(text: &mut String, name: &str, link: &str, state: &str) -> Result<(), AllocError>
    ensures { OnOk result (string_bytes text.new ≡ string_bytes text.old ++ apart_line name.now link.now state.now) }
{
    write!(text, "{name}: {link}, {state}\n")
}

/// A line for a peer that isn't linked, isn't equal, or has a full lane.
#[tactic(auto, unfolding(crate::specs::Peers::apart_text))]
fn push_apart(alloc: Global, text: &mut String, peer: &Peer) -> Result<(), AllocError>
    ensures { OnOk result (string_bytes text.new ≡ string_bytes text.old ++ apart_text peer.now) }
{
    if peer.agrees() {
        return Ok(());
    }
    let link = link_of(alloc, peer)?;
    let state = state_of(alloc, peer)?;
    push_apart_line(text, &peer.name, &link, &state)
}

fn push_all_apart(alloc: Global, text: &mut String, peers: &[Peer]) -> Result<(), AllocError>
    ensures { OnOk result (string_bytes text.new ≡ with_apart peers.now (string_bytes text.old)) }
{
    for peer in peers {
        push_apart(alloc, text, peer)?;
    }
    Ok(())
}

#[tactic(auto, unfolding(crate::specs::Peers::untaken_line))]
fn push_untaken_line(text: &mut String, reason: &str) -> Result<(), AllocError>
    ensures { OnOk result (string_bytes text.new ≡ string_bytes text.old ++ untaken_line reason.now) }
{
    write!(
        text,
        "the table of homes in the file is not taken: {reason}\n"
    )
}

/// A line where the table of homes in the node's file isn't taken, with the reason.
fn push_untaken(text: &mut String, refusal: &Option<String>) -> Result<(), AllocError>
    ensures { OnOk result (string_bytes text.new ≡ with_untaken refusal.now (string_bytes text.old)) }
{
    match refusal {
        Some(refusal) => push_untaken_line(text, refusal),
        None => Ok(()),
    }
}

/// A line where the program is short of memory.
fn short_line(usage: &Usage) -> &'static str
    ensures { result.now ≡ short_line usage.now }
{
    if usage.is_short() {
        "the program holds nearly all the memory that it may\n"
    } else {
        ""
    }
}

/// What keeps a node from being caught up, each in a line: its table, its memory, and peers.
pub fn gate_of(alloc: Global, figures: &Figures) -> Result<String, AllocError>
    ensures { IfOk result (λ text. string_bytes text ≡ gate_text figures.now) }
{
    let mut text = String::from_str(alloc, "not caught up\n")?;
    push_untaken(&mut text, &figures.refusal)?;
    text.push_str(short_line(&figures.usage))?;
    push_all_apart(alloc, &mut text, &figures.peers)?;
    Ok(text)
}
