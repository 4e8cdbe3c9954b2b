//! A node's parts, read from its rows.
ghost use Rattle.std.specs.Prelude.{◌≡◌, ◌⊎◌, T, map as map_list, IfOk, IfErr, IsErrOf};
ghost use Rattle.std.specs.FinMap as map;
ghost use Rattle.row_store.specs.declared.store.RowFault.TheVariants as faults;
ghost use Rattle.row_store.specs.Rows.{entry_of, key_cmp};
ghost use Rattle.replica_store.specs.States.{nothing};
ghost use Rattle.replica_rows.specs.Reading.{IsStore};
ghost use Rattle.node_rows.specs.Rows.{Lasting, new_node};
ghost use Rattle.node_rows.specs.Reading.{AreLinksOf, AreLinksToOthers, Recovers, IsLasting, IsOpened, IsStateOf, NoLanes, NoLanesToOthers, NoState, Say, SayNothing, SayNothingNow, SayNow};

use crate::among::is_among;
use crate::cut::cut;
use crate::mark::named_in;
use crate::sessions::read_sessions;
use crate::versions::{are_older, raised_rows};
use bridge_deltas::Links;
use replica_rows::laws::is_store;
use replica_store::{ReplicaStore, StoreFault};
use row_store::{Row, RowFault, are_rising};
use session_table::Sessions;
use std::alloc::Global;

/// What lasts of a node: the number of the last client identifier that it gave, its sessions, each on no connection, the
/// replicated state, and the lanes to and from the other nodes. It believes nothing of these nodes yet, and keeps no deltas.
#[derive(Drop)]
pub struct Opened {
    pub named: u64,
    pub sessions: Sessions,
    pub store: ReplicaStore,
    pub links: Links,
}

// The replicated state whose rows these are.
fn read_state(alloc: Global, rows: &[Row], nodes: u16) -> Result<ReplicaStore, RowFault>
    ensures { Recovers (IsStateOf rows.now nodes) (NoState rows.now nodes) result }
{
    match replica_rows::from_rows(alloc, rows) {
        Ok(store) => {
            if is_among(nodes, &store) {
                Ok(store)
            } else {
                Err(RowFault::BadRow)
            }
        }
        Err(StoreFault::NoMemory) => Err(RowFault::NoMemory),
        Err(_) => Err(RowFault::BadRow),
    }
}

// What the node keeps of the lanes whose rows these are.
fn links_of(alloc: Global, rows: &[Row], id: u16, nodes: u16) -> Result<Links, RowFault>
    ensures { Recovers (AreLinksOf (map_list entry_of rows.now) id nodes) (NoLanes (map_list entry_of rows.now) nodes) result }
{
    Links::from_rows(alloc, id, nodes, rows)
}

// The same where none is a lane to the node itself.
fn read_links(alloc: Global, rows: &[Row], id: u16, nodes: u16) -> Result<Links, RowFault>
    ensures { Recovers (AreLinksToOthers (map_list entry_of rows.now) id nodes)
        (NoLanesToOthers (map_list entry_of rows.now) id nodes) result }
{
    let links = links_of(alloc, rows, id, nodes)?;
    if links.is_new(id) {
        Ok(links)
    } else {
        Err(RowFault::BadRow)
    }
}

// A node that has done nothing yet.
fn opened_new(alloc: Global, id: u16, nodes: u16) -> Result<Opened, RowFault>
    ensures opened { Recovers (IsOpened id nodes (new_node nodes)) ⊥ result }
    ensures store { IsStore nothing }
{
    let store = ReplicaStore::new(alloc);
    is_store(&store);
    let Ok(links) = Links::new(alloc, id, nodes) else {
        return Err(RowFault::NoMemory);
    };
    Ok(Opened {
        named: 0,
        sessions: Sessions::new(alloc),
        store,
        links,
    })
}

// Reads rows of version 3 that rise, cut by their kinds.
fn read(alloc: Global, rows: &[Row], id: u16, nodes: u16) -> Result<Opened, RowFault>
    requires { T (map.is_sorted key_cmp (map_list entry_of rows.now)) }
    ensures { Recovers (λ o. (x : Lasting) × IsLasting id nodes x × SayNow rows.now id x × IsOpened id nodes x o) (SayNothingNow rows.now id nodes) result }
{
    let [first, others @ ..] = rows else {
        return opened_new(alloc, id, nodes);
    };
    let (own, copies, state, last) = cut(others);
    let Some(named) = named_in(first, id) else {
        return Err(RowFault::BadRow);
    };
    let store = read_state(alloc, state, nodes)?;
    let sessions = read_sessions(alloc, own, copies)?;
    let links = read_links(alloc, last, id, nodes)?;
    Ok(Opened {
        named,
        sessions,
        store,
        links,
    })
}

// Reads rows of any version that rise.
fn read_either(alloc: Global, rows: &[Row], id: u16, nodes: u16) -> Result<Opened, RowFault>
    requires { T (map.is_sorted key_cmp (map_list entry_of rows.now)) }
    ensures { Recovers (λ o. (x : Lasting) × IsLasting id nodes x × Say rows.now id x × IsOpened id nodes x o) (SayNothing rows.now id nodes) result }
{
    if !are_older(rows) {
        return read(alloc, rows, id, nodes);
    }
    let Ok(raised) = raised_rows(alloc, rows) else {
        return Err(RowFault::NoMemory);
    };
    read(alloc, &raised, id, nodes)
}

/// Reads the rows of node `id` of a cluster of `nodes` nodes, in the order of their keys, in version 1, 2 or 3. A node without
/// rows is new.
///
/// BadRow exactly where no such node has just these rows: there is no mark or one of another version or node, a key or value
/// can't be read, rows contradict each other, the numbers of messages that wait for a node don't follow one another up to the last
/// that was put in, a row names a node that the cluster lacks, or a row of lanes names the node itself.
pub fn open(alloc: Global, rows: &[Row], id: u16, nodes: u16) -> Result<Opened, RowFault>
    ensures ok { IfOk result (λ o. (x : Lasting) × IsLasting id nodes x × Say rows.now id x × IsOpened id nodes x o) }
    ensures bad { IsErrOf result RowFault.BadRow → SayNothing rows.now id nodes }
    ensures fault { IfErr result (λ e. (e ≡ RowFault.NoMemory) ⊎ (e ≡ RowFault.BadRow)) }
{
    if are_rising(rows) {
        read_either(alloc, rows, id, nodes)
    } else {
        Err(RowFault::BadRow)
    }
}
