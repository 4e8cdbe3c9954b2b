//! A store of rows from which something is dropped.

ghost use Rattle.std.specs.Prelude.{◌≡◌, IfOk, OnErr};
ghost use Rattle.row_drops.specs.Dropping.{IsDropped, IsInside};

use crate::changes::changes_of;
use crate::target::Target;
use row_store::{Change, RowFault, RowStore};
use std::alloc::Global;

/// Makes the rows of node `id` of `nodes` nodes those of this node without what is dropped, all at once or nothing, and answers which changes that took. BadRow
/// where no such node has just these rows, where there are none, and where they are of an older version.
pub fn drop_in<R: RowStore>(
    alloc: Global,
    rows: &mut R,
    id: u16,
    nodes: u16,
    target: &Target,
) -> Result<Vec<Change>, RowFault>
    requires { IsInside target.now nodes }
    ensures ok { R.is_clean rows.new → R.is_open rows.old → IfOk result (λ _. IsDropped id nodes target.now (R.content rows.old) (R.content rows.new)) }
    ensures err { R.is_clean rows.new → R.is_open rows.new → OnErr result (R.content rows.new ≡ R.content rows.old) }
{
    let loaded = rows.load()?;
    let changes = changes_of(alloc, &loaded, id, nodes, target)?;
    rows.apply(&changes)?;
    Ok(changes)
}
