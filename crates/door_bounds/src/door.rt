//! What a handler with limits keeps.

ghost use Rattle.std.specs.Prelude.{◌≡◌, ℕ, None, false};
ghost use Rattle.door_bounds.specs.Answering.{IsWeighed, weighed};
ghost use Rattle.door_bounds.specs.Clients.{client_of};

use crate::Gauge;
use crate::clients::Clients;
use crate::limits::{BoundLimits, full_after};
use broker_sockets::EventKind;
use std::alloc::Global;

/// The limits, whether too much is held, and the connections that are open.
#[derive(Drop)]
pub(crate) struct Door {
    pub(crate) limits: BoundLimits,
    pub(crate) full: bool,
    pub(crate) clients: Clients,
}

impl Door {
    /// No connection is open.
    pub(crate) fn new(alloc: Global, limits: BoundLimits) -> Door
        ensures limits { result.limits ≡ limits }
        ensures full { result.full ≡ false }
        ensures none { (q : ℕ) → client_of result.clients q ≡ None }
    {
        Door {
            limits,
            full: false,
            clients: Clients::new(alloc),
        }
    }

    /// So much is held.
    fn weigh(&mut self, held: Option<u64>)
        ensures { self.new ≡ weighed held self.old }
    {
        self.full = full_after(self.limits.most_memory, held, self.full);
    }
}

/// At a tick it is asked how much is held.
pub(crate) fn weigh_if<G: Gauge>(gauge: &mut G, door: &mut Door, kind: &EventKind)
    ensures { IsWeighed kind.now door.old door.new }
{
    match kind {
        EventKind::Tick => {
            if door.limits.most_memory.is_some() {
                door.weigh(gauge.held());
            }
        }
        _ => {}
    }
}
