//! What a door has counted.

ghost use Rattle.std.specs.Prelude.{◌≡◌, IfOk};
ghost use Rattle.status_tally.specs.Tallying.{ended_told, gave, gave_frames, heard, link_of, longest_turn, met, new_tally, recent, refused_told, ticks_after, window_after};

use crate::codes::Codes;
use crate::count::{
    count_event, count_frames, count_outputs, count_peer_event, open_after, open_with,
};
use crate::links::{Link, Links};
use crate::ticks::Ticks;
use crate::window::{NOTHING, Window, less};
use broker_sockets::{EventKind, Output, PeerEventKind, PeerFrame};
use status_figures::{CodeCount, Traffic};
use std::alloc::{AllocError, Global};

/// What a door has counted: what has gone through, how many connections of clients are open, how it stands with the peers, how long turns
/// take, and with which Reason Codes clients were refused and connections were ended.
#[derive(Drop)]
pub struct Tally {
    pub(crate) total: Traffic,
    pub(crate) clients: u64,
    pub(crate) links: Links,
    pub(crate) window: Window,
    pub(crate) ticks: Ticks,
    pub(crate) refused: Codes,
    pub(crate) ended: Codes,
}

/// What has gone through is noted at a tick, with the longest time between two ticks.
fn note_total(window: &mut Window, at: u64, kind: &EventKind, total: Traffic, ticks: Ticks)
    ensures { window.new ≡ window_after at kind.now total ticks window.old }
{
    if let EventKind::Tick = kind {
        window.note(at, total, ticks.longest_by(at));
    }
}

/// The ticks after an event, before which these totals were noted.
fn ticks_after(window: &Window, at: u64, kind: &EventKind, ticks: Ticks) -> Ticks
    ensures { result ≡ ticks_after at kind.now window.now ticks }
{
    match kind {
        EventKind::Tick => ticks.ticked(at, window.is_due(at)),
        EventKind::Started
        | EventKind::Opened { connection: _ }
        | EventKind::Piece { .. }
        | EventKind::Room { .. }
        | EventKind::Closed { connection: _ } => ticks,
    }
}

impl Tally {
    /// Nothing has gone through, in a cluster of so many nodes.
    pub fn new(alloc: Global, nodes: u16) -> Result<Tally, AllocError>
        ensures { IfOk result (λ tally. tally ≡ new_tally nodes) }
    {
        let links = Links::new(alloc, nodes)?;
        let window = Window::new(alloc)?;
        let refused = Codes::new(alloc)?;
        let ended = Codes::new(alloc)?;
        Ok(Tally {
            total: NOTHING,
            clients: 0,
            links,
            window,
            ticks: Ticks::new(),
            refused,
            ended,
        })
    }

    /// Counts an event.
    pub(crate) fn meet(&mut self, at: u64, kind: &EventKind)
        ensures { self.new ≡ met at kind.now self.old }
    {
        let ticks = ticks_after(&self.window, at, kind, self.ticks);
        note_total(&mut self.window, at, kind, self.total, self.ticks);
        self.ticks = ticks;
        count_event(&mut self.total, kind);
        self.clients = open_after(kind, self.clients);
    }

    /// Counts an event of other nodes.
    pub(crate) fn hear(&mut self, at: u64, kind: &PeerEventKind)
        ensures { self.new ≡ heard at kind.now self.old }
    {
        count_peer_event(&mut self.total, kind);
        self.links.note(at, kind);
    }

    /// Counts what is given out for clients.
    pub(crate) fn give(&mut self, outputs: &[Output])
        ensures { self.new ≡ gave outputs.now self.old }
    {
        count_outputs(&mut self.total, outputs);
        self.clients = open_with(outputs, self.clients);
        self.refused.note_refused(outputs);
        self.ended.note_ended(outputs);
    }

    /// Counts what is given out for other nodes.
    pub(crate) fn give_frames(&mut self, frames: &[PeerFrame])
        ensures { self.new ≡ gave_frames frames.now self.old }
    {
        count_frames(&mut self.total, frames);
    }

    /// What has gone through.
    pub fn total(&self) -> Traffic
        ensures { result ≡ self.now.total }
    {
        self.total
    }

    /// What went through in the last ten seconds: since the oldest of the moments at which that was noted, one a second, that is at most
    /// ten seconds away, and since the start where none is.
    pub fn recent(&self, at: u64) -> Traffic
        ensures { result ≡ recent at self.now }
    {
        less(self.total, self.window.base(at))
    }

    /// How many connections of clients are open: as many as were opened, but for those that are gone or that were closed.
    pub fn clients(&self) -> u64
        ensures { result ≡ self.now.clients }
    {
        self.clients
    }

    /// How it stands with a peer.
    pub fn link(&self, peer: u16) -> Link
        ensures { result ≡ link_of peer self.now }
    {
        self.links.get(peer)
    }

    /// In milliseconds, the longest time between two ticks in the last ten seconds, as moments tell it: the longest turn, and what was
    /// waited in it.
    pub fn longest_turn(&self, at: u64) -> u64
        ensures { result ≡ longest_turn at self.now }
    {
        self.window.longest(at, self.ticks.longest)
    }

    /// How many clients were refused, by the Reason Code of CONNACK, where any were.
    pub fn refused(&self, alloc: Global) -> Result<Vec<CodeCount>, AllocError>
        ensures { IfOk result (λ told. told.items ≡ refused_told self.now) }
    {
        self.refused.told(alloc)
    }

    /// How many connections were ended by a DISCONNECT, by its Reason Code, where any were.
    pub fn ended(&self, alloc: Global) -> Result<Vec<CodeCount>, AllocError>
        ensures { IfOk result (λ told. told.items ≡ ended_told self.now) }
    {
        self.ended.told(alloc)
    }
}
