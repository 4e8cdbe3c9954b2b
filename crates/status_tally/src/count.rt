//! What an event and what is given out add.

ghost use Rattle.std.specs.Prelude.{◌≡◌};
ghost use Rattle.status_tally.specs.Counting.{more, open_after, open_with, with_event, with_frame, with_frames, with_output, with_outputs, with_peer_event};

use broker_sockets::{EventKind, Output, PeerEventKind, PeerFrame};
use status_figures::Traffic;

/// So many more, up to the greatest number that there is.
fn more(count: u64, by: usize) -> u64
    ensures { result ≡ more by count }
{
    count.saturating_add(by as u64)
}

/// Counts what a client brings.
pub(crate) fn count_event(total: &mut Traffic, kind: &EventKind)
    ensures { total.new ≡ with_event kind.now total.old }
{
    match kind {
        EventKind::Opened { connection: _ } => total.opened = more(total.opened, 1),
        EventKind::Piece {
            connection: _,
            bytes,
        } => total.bytes_received = more(total.bytes_received, bytes.len()),
        EventKind::Started
        | EventKind::Room { .. }
        | EventKind::Closed { connection: _ }
        | EventKind::Tick => {}
    }
}

/// Counts what another node brings.
pub(crate) fn count_peer_event(total: &mut Traffic, kind: &PeerEventKind)
    ensures { total.new ≡ with_peer_event kind.now total.old }
{
    match kind {
        PeerEventKind::Frame { bytes } => {
            total.frames_received = more(total.frames_received, 1);
            total.frame_bytes_received = more(total.frame_bytes_received, bytes.len());
        }
        PeerEventKind::Linked { peer: _ } | PeerEventKind::Ship { peer: _ } => {}
        PeerEventKind::More { peer: _, after: _ } => {}
    }
}

fn count_output(total: &mut Traffic, output: &Output)
    ensures { total.new ≡ with_output output.now total.old }
{
    match output {
        Output::Send {
            connection: _,
            bytes,
        } => {
            total.packets_sent = more(total.packets_sent, 1);
            total.bytes_sent = more(total.bytes_sent, bytes.len());
        }
        Output::Close { connection: _ } => {}
    }
}

/// Counts what is given out for clients.
pub(crate) fn count_outputs(total: &mut Traffic, outputs: &[Output])
    ensures { total.new ≡ with_outputs outputs.now total.old }
{
    for output in outputs {
        count_output(total, output);
    }
}

fn count_frame(total: &mut Traffic, frame: &PeerFrame)
    ensures { total.new ≡ with_frame frame.now total.old }
{
    total.frames_sent = more(total.frames_sent, 1);
    total.frame_bytes_sent = more(total.frame_bytes_sent, frame.bytes.len());
}

/// Counts what is given out for other nodes.
pub(crate) fn count_frames(total: &mut Traffic, frames: &[PeerFrame])
    ensures { total.new ≡ with_frames frames.now total.old }
{
    for frame in frames {
        count_frame(total, frame);
    }
}

/// How many connections of clients are open after an event, of so many before it.
pub(crate) fn open_after(kind: &EventKind, count: u64) -> u64
    ensures { result ≡ open_after kind.now count }
{
    match kind {
        EventKind::Opened { connection: _ } => more(count, 1),
        EventKind::Closed { connection: _ } => count.saturating_sub(1),
        EventKind::Started | EventKind::Piece { .. } | EventKind::Room { .. } | EventKind::Tick =>
            count,
    }
}

/// How many connections of clients are open after these outputs, of so many before them.
pub(crate) fn open_with(outputs: &[Output], count: u64) -> u64
    ensures { result ≡ open_with outputs.now count }
{
    let mut left = count;
    for output in outputs {
        if let Output::Close { connection: _ } = output {
            left = left.saturating_sub(1);
        }
    }
    left
}
