//! The latest version of the table of homes under which a node has made a subscription that stands.

ghost use Rattle.std.specs.Prelude.{◌≡◌};
ghost use Rattle.replica_store.specs.Newest.{newest_of, own_version};

use crate::store::ReplicaStore;
use causal_context::Dot;
use subscription_set::Entry;

/// The version under which the node of this number made a subscription; 0 where another node made it.
fn own_version(dot: Dot, entry: &Entry, id: u16) -> u32
    ensures { result ≡ own_version id (dot, entry.now) }
{
    if dot.node() == id { entry.version() } else { 0 }
}

/// The greatest version under which the node of this number made a subscription that stands; 0 where it made none.
pub fn newest_of(store: &ReplicaStore, id: u16) -> u32
    ensures { result ≡ newest_of id store.now }
{
    let mut newest = 0;
    for (dot, entry) in store.subscriptions().entries() {
        newest = own_version(*dot, entry, id).max(newest);
    }
    newest
}
