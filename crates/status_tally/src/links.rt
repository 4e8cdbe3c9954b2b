//! How it stands with the peers.

ghost use Rattle.std.specs.Prelude.{◌≡◌, replicate, IfOk, slice_set};
ghost use Rattle.status_tally.specs.Links.{after_dial, after_frame, after_written, head_of, heard_by, link_at, new_link};

use broker_sockets::PeerEventKind;
use std::alloc::{AllocError, Global};
use std::marker::Model;

/// The kind of a frame that tells which operations its sender has taken.
const KNOW: u8 = 3;

/// That of one that brings operations.
const DELTA: u8 = 6;

/// The kind of a frame that says it where a link begins.
const HELLO: u8 = 7;

/// For so many milliseconds after its first frame a peer may have something to bring.
const SOON: u64 = 1000;

/// How it stands with a peer.
#[derive(Clone, Copy, Debug, PartialEq, Eq)]
pub struct Link {
    /// Whether there is a link to it.
    pub up: bool,
    /// Since which moment that is so, in milliseconds; 0 from the start on.
    pub since: u64,
    /// When the first frame of it came, in milliseconds; 0 where none has come.
    pub first: u64,
    /// Whether it has told which operations it has taken, or has brought some.
    pub told: bool,
}

/// No link yet.
const NEW: Link = Link {
    up: false,
    since: 0,
    first: 0,
    told: false,
};

/// By the numbers of the nodes, how it stands with each.
#[derive(Drop)]
pub(crate) struct Links {
    links: Vec<Link>,
}

impl Model for Links {
    ghost use Rattle.std.specs.Prelude.{List};
    ghost use Rattle.status_tally.specs.declared.links.Link.{Link};

    ghost Value = { List Link };

    ghost view = { λ l. l.links.items };
}

/// The node that sends a frame, and whether it tells in it which operations it has taken, or brings some. Behind the length, in four bytes,
/// stand the kind and in two bytes the sender.
fn head_of(frame: &[u8]) -> Option<(u16, bool)>
    ensures { result ≡ head_of frame.now }
{
    match frame {
        [_, _, _, _, kind, high, low, ..] => {
            let sender = u16::from(*high) * 256 + u16::from(*low);
            Some((sender, *kind == KNOW || *kind == DELTA || *kind == HELLO))
        }
        _ => None,
    }
}

/// A link is begun anew: one that was up has failed by then.
fn after_dial(link: Link, at: u64) -> Link
    ensures { result ≡ after_dial at link }
{
    if link.up {
        Link {
            up: false,
            since: at,
            first: link.first,
            told: link.told,
        }
    } else {
        link
    }
}

/// All was written that was given for a link: it is up.
fn after_written(link: Link, at: u64) -> Link
    ensures { result ≡ after_written at link }
{
    if link.up {
        link
    } else {
        Link {
            up: true,
            since: at,
            first: link.first,
            told: link.told,
        }
    }
}

/// A frame of the peer came, which tells what it has, or doesn't.
fn after_frame(link: Link, at: u64, tells: bool) -> Link
    ensures { result ≡ after_frame at tells link }
{
    let first = if link.first == 0 { at } else { link.first };
    Link {
        up: link.up,
        since: link.since,
        first,
        told: link.told || tells,
    }
}

impl Link {
    /// Whether the peer counts as heard at a moment: it has told which operations it has taken, or has brought some, or its first frame came
    /// a second ago, and by then it would have brought what it has.
    pub fn is_heard(self, at: u64) -> bool
        ensures { result ≡ heard_by at self }
    {
        self.told || (self.first != 0 && SOON <= at.saturating_sub(self.first))
    }
}

impl Links {
    ghost use Rattle.status_tally.specs.Links.{links_after};

    /// No link, in a cluster of so many nodes.
    pub(crate) fn new(alloc: Global, nodes: u16) -> Result<Links, AllocError>
        ensures { IfOk result (λ links. links ≡ replicate nodes new_link) }
    {
        let mut links = Vec::new(alloc);
        for _ in 0..nodes {
            links.push(NEW)?;
        }
        Ok(Links { links })
    }

    /// How it stands with a peer.
    pub(crate) fn get(&self, peer: u16) -> Link
        ensures { result ≡ link_at peer self.now }
    {
        match self.links.get(peer as usize) {
            Some(link) => *link,
            None => NEW,
        }
    }

    fn put(&mut self, peer: u16, link: Link)
        ensures { self.new ≡ slice_set self.old peer link }
    {
        if let Some(place) = self.links.get_mut(peer as usize) {
            *place = link;
        }
    }

    /// How it stands after an event of other nodes at a moment.
    pub(crate) fn note(&mut self, at: u64, kind: &PeerEventKind)
        ensures { self.new ≡ links_after at kind.now self.old }
    {
        match kind {
            PeerEventKind::Linked { peer } => self.put(*peer, after_dial(self.get(*peer), at)),
            PeerEventKind::Ship { peer } => self.put(*peer, after_written(self.get(*peer), at)),
            PeerEventKind::More { peer, after: _ } => {
                self.put(*peer, after_written(self.get(*peer), at));
            }
            PeerEventKind::Frame { bytes } => {
                if let Some((peer, tells)) = head_of(bytes) {
                    self.put(peer, after_frame(self.get(peer), at, tells));
                }
            }
        }
    }
}
