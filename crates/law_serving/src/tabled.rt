//! The law.

ghost use Rattle.law_serving.specs.Tabled.{ServedTablesRise};

use broker_sockets::{BridgeHandler, Handler};
use door_tables::{Tables, TakesTables};
use node_server::{ServedNode, TabledNode};
use row_store::RowStore;

/// A served node that has started takes a table of homes only where that is newer than the one by which it goes then, and goes by it from then on. So the
/// versions of the tables that it takes rise over all calls, and none is taken twice.
pub fn served_tables_rise<R: RowStore, F: Tables>()
    ensures { ServedTablesRise ⟦<ServedNode<R> as Handler>⟧.handles ⟦<ServedNode<R> as BridgeHandler>⟧.hears ⟦<ServedNode<R> as Handler>⟧.settles
        ⟦<ServedNode<R> as TakesTables>⟧.goes_by ⟦<ServedNode<R> as TakesTables>⟧.takes
        ⟦<TabledNode<R, F> as Handler>⟧.handles ⟦<TabledNode<R, F> as BridgeHandler>⟧.hears ⟦<TabledNode<R, F> as Handler>⟧.settles }
{}
