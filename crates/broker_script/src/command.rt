//! One command, and where it may stand.

ghost use Rattle.std.specs.Prelude.{◌≡◌, ◌↔◌, IsTrue, Some};
ghost use Rattle.std.specs.List.{join_with_byte, list_all};
ghost use Rattle.broker_script.specs.Line.{line_words, spelling};
ghost use Rattle.broker_script.specs.Script.{count_in, FitsAll, prefix_in, may_precede};

use crate::event::NodeEvent;
use std::fmt;

/// A line of a script that isn't skipped. Moments are whole milliseconds.
#[derive(Debug, PartialEq, Eq, Drop)]
pub enum Command {
    /// `nodes N`: the cluster has the nodes 0 to N - 1. First, and once.
    Nodes { nodes: u16 },
    /// `home PREFIX NODE`: the home of the client identifiers that begin with the prefix is the node.
    /// After `nodes` and before any step; each prefix once. PREFIX has 1 to 255 bytes, each from 33 to
    /// 126.
    Home { prefix: String, node: u16 },
    /// The line of an event: its node takes it.
    Event(NodeEvent),
    /// `crash before EVENT`: the event's node goes down, and doesn't take the event.
    CrashBefore(NodeEvent),
    /// `crash after EVENT`: the event's node takes it and keeps what lasts, and goes down before anything
    /// is given out.
    CrashAfter(NodeEvent),
    /// `restart NODE`: the node is opened from what it kept.
    Restart { node: u16 },
    /// `deliver FRAME MOMENT`: a frame that was sent arrives.
    Deliver { frame: u64, moment: u64 },
}

impl Command {
    /// The count of nodes that the line `nodes` gives, and 0 for another line.
    pub(crate) fn count(&self) -> u16
        ensures { result ≡ count_in (line_words self.now) }
    {
        match self {
            Command::Nodes { nodes } => *nodes,
            _ => 0,
        }
    }

    /// Whether the line may stand after `nodes N`: each of its nodes is below N.
    pub(crate) fn fits(&self, nodes: u16) -> bool
        ensures { IsTrue result ↔ FitsAll nodes (line_words self.now) }
    {
        match self {
            Command::Nodes { .. } => false,
            Command::Home { node, .. } => *node < nodes,
            Command::Event(event) => event.fits(nodes),
            Command::CrashBefore(event) => event.fits(nodes),
            Command::CrashAfter(event) => event.fits(nodes),
            Command::Restart { node } => *node < nodes,
            Command::Deliver { .. } => true,
        }
    }

    /// Whether the line is the home of another prefix.
    fn is_other_home(&self, prefix: &str) -> bool
        ensures { result ≡ may_precede (prefix_in (line_words self.now)) (Some prefix.now) }
    {
        match self {
            Command::Home { prefix: own, .. } => own.as_str() != prefix,
            _ => false,
        }
    }

    /// Whether the line may stand after these: a home after homes of other prefixes alone.
    pub(crate) fn comes_after(&self, before: &[Command]) -> bool
        ensures { result ≡ list_all (λ c. may_precede (prefix_in (line_words c)) (prefix_in (line_words self.now))) before.now }
    {
        match self {
            Command::Home { prefix, .. } => before.iter().all(|c| c.is_other_home(prefix.as_str())),
            _ => true,
        }
    }
}

impl fmt::Display for Command {
    ghost output = { λ command. Some (join_with_byte 32 (spelling command)) };

    fn fmt<W: fmt::Write>(&self, f: &mut fmt::Formatter<W>) -> fmt::Result {
        match self {
            Command::Nodes { nodes } => write!(f, "nodes {nodes}"),
            Command::Home { prefix, node } => write!(f, "home {prefix} {node}"),
            Command::Event(event) => write!(f, "{event}"),
            Command::CrashBefore(event) => write!(f, "crash before {event}"),
            Command::CrashAfter(event) => write!(f, "crash after {event}"),
            Command::Restart { node } => write!(f, "restart {node}"),
            Command::Deliver { frame, moment } => write!(f, "deliver {frame} {moment}"),
        }
    }
}
