//! Who looks at a node once the rows of a turn are written.

use crate::losses::losses_of;
use crate::stack::TalliedNode;
use crate::status::NodeTeller;
use crate::viewed::Viewer;
use broker_sockets::Sockets;
use cli_stops::RunFault;
use door_bounds::Gauge;
use door_log::LossLog;
use door_tables::Tables;
use row_store::RowStore;
use status_sockets::{Machine, OpenDesk};
use std::alloc::Global;
use std::io::Write;

/// So many kinds of losses there are.
const LOSSES: usize = 6;

/// A desk at which the status of a node is told, and a log of what it leaves out, if there are any.
#[derive(Drop)]
pub(crate) struct Watchers<S: Sockets, U, W> {
    desk: Option<OpenDesk<S, NodeTeller, U>>,
    losses: Option<LossLog<W>>,
}

impl<S: Sockets + Drop, U: Drop, W: Drop> Watchers<S, U, W> {
    /// This desk, and a log that is written here.
    pub(crate) fn new(
        alloc: Global,
        desk: Option<OpenDesk<S, NodeTeller, U>>,
        error: Option<W>,
    ) -> Result<Watchers<S, U, W>, RunFault> {
        let Some(error) = error else {
            return Ok(Watchers { desk, losses: None });
        };
        match LossLog::new(alloc, error, LOSSES) {
            Ok(log) => Ok(Watchers {
                desk,
                losses: Some(log),
            }),
            Err(_) => Err(RunFault::NoMemory),
        }
    }
}

impl<R: RowStore, F: Tables, G: Gauge, E: Write, S: Sockets, U: Machine, W: Write> Viewer<
    TalliedNode<R, F, G, E>,
> for Watchers<S, U, W> {
    ghost use Rattle.node_server.specs.Status.{HasWritten};

    ghost may_see = { HasWritten };

    ghost settled = { λ d d' settles. settles.settled.settled.settled.0.0.0.nothing };

    /// Attends to those who ask for the status, and tells of what is left out.
    fn view(&mut self, handler: &TalliedNode<R, F, G, E>, at: u64) {
        if let Some(desk) = &mut self.desk {
            desk.watch(handler, at);
        }
        if let Some(log) = &mut self.losses {
            let losses = losses_of(
                &handler
                    .inside()
                    .inside()
                    .inside()
                    .inside()
                    .inside()
                    .inside()
                    .counts(),
            );
            let _ = log.tell(at, &losses);
        }
    }
}
