//! Why a table isn't taken.

ghost use Rattle.std.specs.Prelude.{Some};
ghost use Rattle.cli_files.specs.Judging.{refusal_text};

use cli_stops::Found;
use std::fmt;

/// Why the table that was found in a file isn't taken. Its `Display` is the words for it.
#[derive(Debug, PartialEq, Eq, Drop)]
pub enum Refusal {
    /// The file can't be read, or isn't a table that names this node.
    Faulty(Found),
    /// It is for so many nodes, and the table in force for another number.
    OtherNodes(u16),
    /// It has this version, which isn't greater than that of the table in force.
    NotNewer(u32),
    /// This node has another number in it.
    OtherNumber(u16),
    /// This node has another address in it.
    OtherAddress,
    /// The node of this number has another bridge in it.
    OtherBridge(u16),
}

impl fmt::Display for Refusal {
    ghost output = { λ refusal. Some (refusal_text refusal) };

    fn fmt<W: fmt::Write>(&self, f: &mut fmt::Formatter<W>) -> fmt::Result {
        match self {
            Refusal::Faulty(found) => write!(f, "{found}"),
            Refusal::OtherNodes(nodes) => write!(
                f,
                "it has {nodes} nodes, and the table in force has another number"
            ),
            Refusal::NotNewer(version) => write!(
                f,
                "its version {version} is not greater than that of the table in force"
            ),
            Refusal::OtherNumber(number) => write!(
                f,
                "this node is node {number} in it, counted from 0, and not so in the table in force"
            ),
            Refusal::OtherAddress => {
                write!(
                    f,
                    "it has another address for this node, which needs a restart"
                )
            }
            Refusal::OtherBridge(number) => write!(
                f,
                "it has another bridge for node {number}, counted from 0, which needs a restart"
            ),
        }
    }
}
