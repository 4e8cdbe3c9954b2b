//! What is played.

ghost use Rattle.std.specs.Prelude.{◌≡◌, IfOk};

use broker_node::Event;
use mqtt_fields::NoMemory;
use std::alloc::Global;

/// One step of a cluster.
#[derive(Drop)]
pub enum Step {
    /// An event at a node.
    Event { node: u16, event: Event },
    /// A frame, by its number, reaches its receiver at a moment. A frame stays deliverable.
    Deliver { frame: u64, at: u64 },
    /// A crash takes a node before an event, which doesn't happen.
    CrashBefore { node: u16, event: Event },
    /// A node takes an event, and a crash takes the node before anything is given out.
    CrashAfter { node: u16, event: Event },
    /// A node, running or down, is opened from its rows.
    Restart { node: u16 },
}

impl Step {
    /// An equal step.
    pub fn copy(&self, alloc: Global) -> Result<Step, NoMemory>
        ensures { IfOk result (λ copy. copy ≡ self.now) }
    {
        match self {
            Step::Event { node, event } => Ok(Step::Event {
                node: *node,
                event: event.copy(alloc)?,
            }),
            Step::Deliver { frame, at } => Ok(Step::Deliver {
                frame: *frame,
                at: *at,
            }),
            Step::CrashBefore { node, event } => Ok(Step::CrashBefore {
                node: *node,
                event: event.copy(alloc)?,
            }),
            Step::CrashAfter { node, event } => Ok(Step::CrashAfter {
                node: *node,
                event: event.copy(alloc)?,
            }),
            Step::Restart { node } => Ok(Step::Restart { node: *node }),
        }
    }
}
