//! A node that is opened from its rows, with a table of homes that isn't older than they tell.

ghost use Rattle.std.specs.Prelude.{◌≡◌, ◌<◌, ℕ, length, IfOk, IfErr};
ghost use Rattle.cli_stops.specs.declared.run_fault.RunFault.TheVariants as runs;
ghost use Rattle.node_keeper.specs.Keeping.{OpensFromRows};
ghost use Rattle.node_keeper.specs.Views.{node_of, rows_of};
ghost use Rattle.node_server.specs.Opening.{IsNotOlder, IsTableBefore};
ghost use Rattle.node_work.specs.View.{place_of};

use crate::fault::of_node;
use cli_stops::RunFault;
use home_table::HomeTable;
use node_keeper::Keeper;
use replica_store::newest_of;
use row_store::RowStore;
use std::alloc::Global;

/// Opens a node from its rows, as `Keeper::open` does. A fault gives the rows back.
///
/// OlderTable where the node has made a subscription that stands under a later version than the table's, which is then told.
pub fn open_after<R: RowStore>(
    alloc: Global,
    rows: R,
    homes: HomeTable,
    id: u16,
) -> Result<Keeper<R>, (RunFault, R)>
    requires { id < length homes.nodes }
    ensures homes { IfOk result (λ k. (node_of k).homes ≡ homes) }
    ensures newest { IfOk result (λ k. IsNotOlder (node_of k)) }
    ensures ok { IfOk result (λ k. R.is_clean (rows_of k) → R.is_open rows
        → R.is_open (rows_of k) × OpensFromRows (place_of id homes) homes (R.content rows) (R.content (rows_of k)) (node_of k)) }
    ensures older { IfErr result (λ e. R.is_clean e.1 → R.is_open rows → (version : ℕ) → e.0 ≡ runs.OlderTable version
        → IsTableBefore (place_of id homes) (R.content rows) (R.content e.1) homes version) }
{
    let keeper = match Keeper::open(alloc, rows, homes, id) {
        Ok(keeper) => keeper,
        Err((fault, rows)) => return Err((of_node(fault), rows)),
    };
    let newest = newest_of(keeper.node().store(), id);
    if keeper.node().homes().version() < newest {
        return Err((RunFault::OlderTable(newest), keeper.into_rows()));
    }
    Ok(keeper)
}
