//! The lines of a trace.

ghost use Rattle.std.specs.Prelude.{◌≡◌, IfOk, Some};
ghost use Rattle.cluster_play.specs.Lines.{line_text};

use broker_node::FrameKind;
use hex_text::HexText;
use mqtt_fields::NoMemory;
use mqtt_packets::Bytes;
use node_keeper::KeeperFault;
use std::alloc::Global;
use std::fmt;

/// One thing that a node gave out, or that befell it.
#[derive(Drop)]
pub enum Line {
    /// A packet to a client.
    Sent {
        node: u16,
        connection: u64,
        bytes: Bytes,
    },
    /// A connection's end.
    Closed {
        node: u16,
        connection: u64,
    },
    /// A frame, under its number.
    Frame {
        number: u64,
        from: u16,
        to: u16,
        kind: FrameKind,
    },
    /// A node that stopped, and why.
    Fault {
        node: u16,
        fault: KeeperFault,
    },
    /// A node that a crash took down.
    Crash {
        node: u16,
    },
    /// A step for a node that is down.
    Down {
        node: u16,
    },
}

impl Line {
    /// An equal line.
    pub fn copy(&self, alloc: Global) -> Result<Line, NoMemory>
        ensures { IfOk result (λ copy. copy ≡ self.now) }
    {
        match self {
            Line::Sent {
                node,
                connection,
                bytes,
            } => Ok(Line::Sent {
                node: *node,
                connection: *connection,
                bytes: bytes.copy(alloc)?,
            }),
            Line::Closed { node, connection } => Ok(Line::Closed {
                node: *node,
                connection: *connection,
            }),
            Line::Frame {
                number,
                from,
                to,
                kind,
            } => Ok(Line::Frame {
                number: *number,
                from: *from,
                to: *to,
                kind: *kind,
            }),
            Line::Fault { node, fault } => Ok(Line::Fault {
                node: *node,
                fault: *fault,
            }),
            Line::Crash { node } => Ok(Line::Crash { node: *node }),
            Line::Down { node } => Ok(Line::Down { node: *node }),
        }
    }
}

/// The lines of the steps that were played, in order.
#[derive(Drop)]
pub struct Trace {
    pub lines: Vec<Line>,
}

/// Equal lines.
fn copied(alloc: Global, lines: &[Line]) -> Result<Vec<Line>, NoMemory>
    ensures { IfOk result (λ out. out.items ≡ lines.now) }
{
    let mut out = Vec::new(alloc);
    for line in lines {
        out.push(line.copy(alloc)?)?;
    }
    Ok(out)
}

impl Trace {
    /// A trace with equal lines.
    pub fn copy(&self, alloc: Global) -> Result<Trace, NoMemory>
        ensures { IfOk result (λ copy. copy.lines.items ≡ self.now.lines.items) }
    {
        let lines = copied(alloc, &self.lines)?;
        Ok(Trace { lines })
    }
}

impl fmt::Display for Line {
    ghost output = { λ line. Some (line_text line) };

    fn fmt<W: fmt::Write>(&self, f: &mut fmt::Formatter<W>) -> fmt::Result {
        match self {
            Line::Sent {
                node,
                connection,
                bytes,
            } => {
                let text = HexText(bytes.as_slice());
                write!(f, "sent {node} {connection} {text}")
            }
            Line::Closed { node, connection } => write!(f, "closed {node} {connection}"),
            Line::Frame {
                number,
                from,
                to,
                kind,
            } => write!(f, "frame {number} {from} {to} {kind}"),
            Line::Fault { node, fault } => write!(f, "fault {node} {fault}"),
            Line::Crash { node } => write!(f, "crash {node}"),
            Line::Down { node } => write!(f, "down {node}"),
        }
    }
}
