//! A node that is opened from its rows.

ghost use Rattle.std.specs.Prelude.{◌≡◌, ◌≢◌, ◌<◌, ◌⊎◌, length, map, OnOk, IfOk, OnErr, IsErrOf, Err};
ghost use Rattle.std.specs.FinMap.{entries, insert};
ghost use Rattle.node_keeper.specs.Keeping.{AreOfNone, IsOneFailureMore, OpensFromRows, are_raised, given_mark, may_be_raised, may_be_marked};
ghost use Rattle.node_rows.specs.Rows.{mark, mark_key};
ghost use Rattle.node_work.specs.View.{place_of};
ghost use Rattle.row_store.specs.Rows.{Content, entry_of};

use broker_node::Node;
use home_table::HomeTable;
use node_rows::{are_older, mark_row, raise};
use row_store::{Change, Row, RowFault, RowStore};
use std::alloc::Global;

/// Writes the mark of a new node.
fn put_mark<R: RowStore>(alloc: Global, rows: &mut R, id: u16) -> Result<(), RowFault>
    ensures ok { R.is_clean rows.new → R.is_open rows.old → OnOk result (R.is_open rows.new × (R.content rows.new ≡ insert (R.content rows.old) mark_key (mark id 0))) }
    ensures err { R.is_clean rows.new → R.is_open rows.new → OnErr result (R.content rows.new ≡ R.content rows.old) }
    ensures device { IsErrOf result RowFault.Device → IsOneFailureMore (R.failed rows.old) (R.failed rows.new) }
    ensures counts { result ≢ Err RowFault.Device → R.failed rows.new ≡ R.failed rows.old }
    ensures bad { result ≢ Err RowFault.BadRow }
    ensures crash { R.is_clean rows.new → R.is_open rows.old → (c : Content) → R.may_leave rows.new c
        → (c ≡ R.content rows.old) ⊎ (c ≡ insert (R.content rows.old) mark_key (mark id 0)) }
    ensures was_clean { R.is_clean rows.new → R.is_clean rows.old }
    ensures was_open { R.is_clean rows.new → R.is_open rows.new → R.is_open rows.old }
{
    let Ok(row) = mark_row(alloc, id, 0) else {
        return Err(RowFault::NoMemory);
    };
    let Ok(changes) = vec![in alloc; Change::Put(row)] else {
        return Err(RowFault::NoMemory);
    };
    rows.apply(&changes)
}

/// The rows, in the order of their keys. Where there are none it first writes the mark.
fn load_marked<R: RowStore>(alloc: Global, rows: &mut R, id: u16) -> Result<Vec<Row>, RowFault>
    ensures ok { R.is_clean rows.new → R.is_open rows.old
        → IfOk result (λ loaded. R.is_open rows.new × given_mark id (R.content rows.old) (R.content rows.new) × (map entry_of loaded.items ≡ entries (R.content rows.new))) }
    ensures err { R.is_clean rows.new → R.is_open rows.new → OnErr result (may_be_marked id (R.content rows.old) (R.content rows.new)) }
    ensures bad { R.is_clean rows.new → R.is_open rows.old → result ≢ Err RowFault.BadRow }
    ensures crash { R.is_clean rows.new → R.is_open rows.old → (c : Content) → R.may_leave rows.new c → may_be_marked id (R.content rows.old) c }
    ensures was_open { R.is_clean rows.new → R.is_open rows.new → R.is_open rows.old }
    ensures device { IsErrOf result RowFault.Device → IsOneFailureMore (R.failed rows.old) (R.failed rows.new) }
    ensures counts { result ≢ Err RowFault.Device → R.failed rows.new ≡ R.failed rows.old }
{
    let loaded = rows.load()?;
    if !loaded.is_empty() {
        return Ok(loaded);
    }
    put_mark(alloc, rows, id)?;
    rows.load()
}

/// Writes rows of version 1 or 2 as rows of version 3, and leaves others as they are. `loaded` are the rows that the store has.
fn write_raised<R: RowStore>(alloc: Global, rows: &mut R, loaded: &[Row]) -> Result<(), RowFault>
    ensures ok { R.is_clean rows.new → R.is_open rows.old → map entry_of loaded.now ≡ entries (R.content rows.old)
        → OnOk result (R.is_open rows.new × are_raised (R.content rows.old) (R.content rows.new)) }
    ensures err { R.is_clean rows.new → R.is_open rows.new → OnErr result (R.content rows.new ≡ R.content rows.old) }
    ensures device { IsErrOf result RowFault.Device → IsOneFailureMore (R.failed rows.old) (R.failed rows.new) }
    ensures counts { result ≢ Err RowFault.Device → R.failed rows.new ≡ R.failed rows.old }
    ensures bad { result ≢ Err RowFault.BadRow }
    ensures crash { R.is_clean rows.new → R.is_open rows.old → map entry_of loaded.now ≡ entries (R.content rows.old)
        → (c : Content) → R.may_leave rows.new c → (c ≡ R.content rows.old) ⊎ are_raised (R.content rows.old) c }
    ensures was_clean { R.is_clean rows.new → R.is_clean rows.old }
    ensures was_open { R.is_clean rows.new → R.is_open rows.new → R.is_open rows.old }
{
    if !are_older(loaded) {
        return Ok(());
    }
    let Ok(changes) = raise(alloc, loaded) else {
        return Err(RowFault::NoMemory);
    };
    rows.apply(&changes)
}

/// Opens a node from its rows, as `Keeper::open` does.
pub fn wake<R: RowStore>(
    alloc: Global,
    rows: &mut R,
    homes: HomeTable,
    id: u16,
) -> Result<Node, RowFault>
    requires { id < length homes.nodes }
    ensures place { IfOk result (λ n. n.place ≡ place_of id homes) }
    ensures homes { IfOk result (λ n. n.homes ≡ homes) }
    ensures ok { R.is_clean rows.new → R.is_open rows.old
        → IfOk result (λ n. R.is_open rows.new × OpensFromRows (place_of id homes) homes (R.content rows.old) (R.content rows.new) n) }
    ensures err { R.is_clean rows.new → R.is_open rows.new → OnErr result (may_be_marked id (R.content rows.old) (R.content rows.new)) }
    ensures bad { R.is_clean rows.new → R.is_open rows.old → IsErrOf result RowFault.BadRow → AreOfNone (place_of id homes) (R.content rows.new) }
    ensures crash { R.is_clean rows.new → R.is_open rows.old → (c : Content) → R.may_leave rows.new c → may_be_raised id (R.content rows.old) c }
    ensures device { IsErrOf result RowFault.Device → IsOneFailureMore (R.failed rows.old) (R.failed rows.new) }
{
    let loaded = load_marked(alloc, rows, id)?;
    let node = Node::open(alloc, &loaded, homes, id)?;
    write_raised(alloc, rows, &loaded)?;
    Ok(node)
}
