//! The last deltas, and what is sent of them.
ghost use Rattle.std.specs.Prelude.{◌≡◌, ◌≤◌, ◌↔◌, ◌++◌, ◌∷◌, [], List, drop, if◌then◌else◌, length, IfOk, IfSome, IsNone, IsOk, IsTrue, OnErr, OnOk};
ghost use Rattle.causal_context.specs.SetLattice.{IsSubset};
ghost use Rattle.filter_trie.specs.Selected.{IsSelected};
ghost use Rattle.replica_store.specs.States.{State};
ghost use Rattle.bridge_deltas.specs.Buffer.{with_delta};
ghost use Rattle.bridge_deltas.specs.Confirmed.{IsConfirmed};
ghost use Rattle.bridge_deltas.specs.Shipped.{AreKept, IsNew, IsShipped, JoinsNew, all_joined, dots_with};

use causal_context::{Context, Lattice};
use mqtt_fields::NoMemory;
use replica_store::ReplicaStore;
use std::alloc::Global;
use std::collections::VecDeque;

/// As many deltas as are kept.
const KEPT: usize = 4096;

/// Puts a delta behind the others, in the place of the oldest where there are as many as are kept, which takes no memory. Answers whether one went.
pub(crate) fn keep(
    deltas: &mut VecDeque<ReplicaStore>,
    delta: ReplicaStore,
) -> Result<bool, NoMemory>
    requires { length deltas.old.items ≤ 4096 }
    ensures ok { OnOk result (deltas.new.items ≡ with_delta delta deltas.old.items) }
    ensures gone { IfOk result (λ gone. let all = deltas.old.items ++ delta ∷ [] in
        deltas.new.items ≡ (if gone then drop 1 all else all)) }
    ensures err { OnErr result (deltas.new.items ≡ deltas.old.items) }
    ensures few { length deltas.new.items ≤ 4096 }
    ensures full { length deltas.old.items ≡ 4096 → IsOk result }
{
    if deltas.len() < KEPT {
        deltas.push_back(delta)?;
        return Ok(false);
    }
    let _oldest = deltas.pop_front();
    deltas.push_back(delta)?;
    Ok(true)
}

/// How many of the oldest deltas have no dot that the belief lacks, where so many are known to have none: those behind
/// them are looked at, up to the first that has one.
pub(crate) fn count_confirmed(
    deltas: &VecDeque<ReplicaStore>,
    belief: &Context,
    known: usize,
) -> usize
    requires { IsConfirmed belief.now known deltas.now.items }
    ensures { IsConfirmed belief.now result deltas.now.items }
{
    for i in known..deltas.len() {
        if !deltas[i].taken().is_below(belief) {
            return i;
        }
    }
    deltas.len()
}

// Joins the delta, if it has a dot that the belief lacks.
fn join_new(
    joined: &mut ReplicaStore,
    delta: &ReplicaStore,
    belief: &Context,
) -> Result<(), NoMemory>
    ensures { OnOk result (JoinsNew belief.now joined.old delta.now joined.new) }
{
    if delta.taken().is_below(belief) {
        return Ok(());
    }
    joined.join(delta)
}

// The join of the deltas with a dot that the belief lacks; the first so many have none.
fn joined_news(
    alloc: Global,
    deltas: &VecDeque<ReplicaStore>,
    confirmed: usize,
    belief: &Context,
) -> Result<ReplicaStore, NoMemory>
    requires { IsConfirmed belief.now confirmed deltas.now.items }
    ensures { IfOk result (λ s. (news : List State) × IsSelected (IsNew belief.now) deltas.now.items news × (s ≡ all_joined news)) }
{
    let mut joined = ReplicaStore::new(alloc);
    for i in confirmed..deltas.len() {
        join_new(&mut joined, &deltas[i], belief)?;
    }
    Ok(joined)
}

// The dots of the belief and of all deltas; the first so many have none that the belief lacks.
fn dots_with(
    deltas: &VecDeque<ReplicaStore>,
    confirmed: usize,
    belief: &Context,
) -> Result<Context, NoMemory>
    requires { IsConfirmed belief.now confirmed deltas.now.items }
    ensures { IfOk result (λ dots. dots ≡ dots_with belief.now deltas.now.items) }
{
    let mut dots = belief.copy()?;
    for i in confirmed..deltas.len() {
        dots.join(deltas[i].taken())?;
    }
    Ok(dots)
}

// Whether each of the dots that the belief lacks is in one of the deltas.
fn are_kept(
    deltas: &VecDeque<ReplicaStore>,
    confirmed: usize,
    belief: &Context,
    taken: &Context,
) -> Result<bool, NoMemory>
    requires { IsConfirmed belief.now confirmed deltas.now.items }
    ensures { IfOk result (λ kept. IsTrue kept ↔ AreKept belief.now deltas.now.items taken.now) }
{
    let dots = dots_with(deltas, confirmed, belief)?;
    Ok(taken.is_below(&dots))
}

/// What is sent of the store to a peer that is believed to have taken these dots, all of the first so many deltas among
/// them: nothing where it has taken all.
pub(crate) fn shipped(
    alloc: Global,
    deltas: &VecDeque<ReplicaStore>,
    confirmed: usize,
    belief: &Context,
    store: &ReplicaStore,
) -> Result<Option<ReplicaStore>, NoMemory>
    requires { IsConfirmed belief.now confirmed deltas.now.items }
    ensures none { IfOk result (λ s. IsNone s ↔ IsSubset store.now.taken belief.now) }
    ensures some { IfOk result (λ s. IfSome s (IsShipped belief.now deltas.now.items store.now)) }
    ensures nothing { IsSubset store.now.taken belief.now → IsOk result }
{
    if store.taken().is_below(belief) {
        return Ok(None);
    }
    if are_kept(deltas, confirmed, belief, store.taken())? {
        let joined = joined_news(alloc, deltas, confirmed, belief)?;
        return Ok(Some(joined));
    }
    let whole = store.copy()?;
    Ok(Some(whole))
}
