//! How a node that is served takes another table of homes.

ghost use Rattle.std.specs.Prelude.{◌≡◌};
ghost use Rattle.node_server.specs.Events.{table_event};

use crate::served::{ServedNode, hand_over};
use broker_node::{Event, EventKind};
use broker_sockets::Output;
use door_tables::TakesTables;
use home_table::HomeTable;
use node_keeper::KeeperFault;
use row_store::RowStore;

/// The event of a table, at a moment in milliseconds.
fn table_event(at: u64, homes: HomeTable) -> Event
    ensures { result ≡ table_event at homes }
{
    Event {
        at,
        kind: EventKind::Table { homes },
    }
}

impl<R: RowStore> TakesTables for ServedNode<R> {
    ghost use Rattle.node_keeper.specs.BatchViews.{node_in};
    ghost use Rattle.node_server.specs.Events.{table_event};
    ghost use Rattle.node_server.specs.Serving.{IsAnsweredToClients, IsHalted};

    ghost goes_by = { λ s. (node_in s.keeper).homes };

    ghost takes = { λ s at homes handed s'. IsAnsweredToClients s.keeper (table_event at homes) handed s'.keeper };

    ghost denies = { λ s at homes fault s'. IsHalted s.keeper (table_event at homes) fault s'.keeper };

    fn homes(&self) -> &HomeTable {
        self.keeper.node().homes()
    }

    /// Hands the table to the node as an event, whose rows stay. After a fault the node has stopped.
    fn take_table(&mut self, at: u64, homes: HomeTable) -> Result<Vec<Output>, KeeperFault> {
        let event = table_event(at, homes);
        match self.keeper.decide(&event) {
            Ok(made) => hand_over(self.alloc, &mut self.keeper, made),
            Err(fault) => Err(fault),
        }
    }
}
