//! A node whose rows are changed once for many events.

ghost use Rattle.std.specs.Prelude.{◌≡◌, ◌≢◌, ◌<◌, ◌≤◌, ◌^◌, ◌⊎◌, ◌++◌, [], OnOk, IfOk, IfErr, OnErr, IsErrOf, IsOk, is_some, Ok, Err, None, Some, true};
ghost use Rattle.broker_node.specs.Idle.{IsIdle};
ghost use Rattle.broker_node.specs.Step.{IsAtEnd};
ghost use Rattle.node_keeper.specs.Batches.{IsDecided, IsOfNode, IsOfRows};
ghost use Rattle.node_keeper.specs.Keeping.{KeeperHasCauseAt, IsOneFailureMore, KeeperRests};
ghost use Rattle.node_keeper.specs.declared.fault.KeeperFault.TheVariants as faults;
ghost use Rattle.node_work.specs.View.{HeldView};
ghost use Rattle.row_store.specs.Rows.{Content, after_all};

use crate::{Keeper, KeeperFault};
use broker_node::{Event, Node};
use node_work::{Outcome, Output};
use row_store::{Change, RowFault, RowStore};
use std::alloc::{AllocError, Global};
use std::mem;

/// A node and its rows, and the changes of the rows that wait: those of the events that were decided since the last commit.
#[derive(Drop)]
pub struct BatchKeeper<R> {
    alloc: Global,
    node: Node,
    rows: R,
    waiting: Vec<Change>,
}

/// Puts changes behind those that wait. No changes take no memory.
fn add(waiting: &mut Vec<Change>, changes: Vec<Change>) -> Result<(), AllocError>
    ensures ok { OnOk result (waiting.new.items ≡ waiting.old.items ++ changes.items) }
    ensures none { changes.items ≡ [] → result ≡ Ok tt }
{
    if waiting.is_empty() {
        *waiting = changes;
        return Ok(());
    }
    for change in changes {
        waiting.push(change)?;
    }
    Ok(())
}

/// The node decides the event, and the changes of its rows join those that wait. After a fault the node has stopped.
fn take(
    node: &mut Node,
    waiting: &mut Vec<Change>,
    event: &Event,
) -> Result<Vec<Output>, KeeperFault>
    ensures place { node.new.place ≡ node.old.place }
    ensures stopped { node.old.up ≡ None → (result ≡ Err faults.Stopped) × (node.new ≡ node.old) }
    ensures ok { IfOk result (λ outputs. IsDecided node.old waiting.old.items event.now outputs.items node.new waiting.new.items) }
    ensures idle { (h : HeldView) → node.old.up ≡ Some h → event.now.at < 2 ^ 62 → IsIdle node.old.place h event.now → KeeperRests result × (waiting.new.items ≡ waiting.old.items) }
    ensures end { is_some node.old.up ≡ true → 2 ^ 62 ≤ event.now.at → result ≡ Err faults.NumbersAtEnd }
    ensures exactly { IsAtEnd node.old event.now → ¬ IsOk result }
    ensures down { OnErr result (node.new.up ≡ None) }
    ensures cause { IfErr result (KeeperHasCauseAt node.old.up node.old.place event.now) }
    ensures kind { IfErr result IsOfNode }
{
    let Outcome { outputs, changes } = match node.step(event) {
        Ok(outcome) => outcome,
        Err(fault) => return Err(KeeperFault::from(fault)),
    };
    match add(waiting, changes) {
        Ok(()) => Ok(outputs),
        Err(_) => {
            node.stop();
            Err(KeeperFault::NoMemory)
        }
    }
}

/// Makes the changes, all or none, by one call of the store of rows.
fn write<R: RowStore>(rows: &mut R, changes: Vec<Change>) -> Result<(), RowFault>
    ensures nothing { changes.items ≡ [] → (result ≡ Ok tt) × (rows.new ≡ rows.old) }
    ensures ok { R.is_clean rows.new → R.is_open rows.old → OnOk result (R.is_open rows.new × (R.content rows.new ≡ after_all (R.content rows.old) changes.items)) }
    ensures err { R.is_clean rows.new → R.is_open rows.new → OnErr result (R.content rows.new ≡ R.content rows.old) }
    ensures crash { R.is_clean rows.new → R.is_open rows.old → (c : Content) → R.may_leave rows.new c
        → (c ≡ R.content rows.old) ⊎ (c ≡ after_all (R.content rows.old) changes.items) }
    ensures device { IsErrOf result RowFault.Device → IsOneFailureMore (R.failed rows.old) (R.failed rows.new) }
    ensures counts { result ≢ Err RowFault.Device → R.failed rows.new ≡ R.failed rows.old }
    ensures bad { result ≢ Err RowFault.BadRow }
    ensures was_clean { R.is_clean rows.new → R.is_clean rows.old }
{
    rows.apply(&changes)
}

impl<R: RowStore> BatchKeeper<R> {
    ghost use Rattle.node_keeper.specs.BatchViews.{node_in, rows_in, waiting_in};
    ghost use Rattle.node_keeper.specs.Views.{node_of, rows_of};

    /// A node whose rows are changed by `commit`. Nothing waits.
    pub fn new(alloc: Global, keeper: Keeper<R>) -> BatchKeeper<R>
        ensures node { node_in result ≡ node_of keeper }
        ensures rows { rows_in result ≡ rows_of keeper }
        ensures nothing { waiting_in result ≡ [] }
    {
        let (node, rows) = keeper.into_parts();
        BatchKeeper {
            alloc,
            node,
            rows,
            waiting: Vec::new(alloc),
        }
    }

    /// The node decides one event. The changes of its rows wait for the next commit, and until then nothing of what is given
    /// out here may leave: a crash leaves the rows of the last commit. After a fault the node has stopped, and nothing waits.
    pub fn decide(&mut self, event: &Event) -> Result<Vec<Output>, KeeperFault>
        ensures place { (node_in self.new).place ≡ (node_in self.old).place }
        ensures rows { rows_in self.new ≡ rows_in self.old }
        ensures stopped { (node_in self.old).up ≡ None → (result ≡ Err faults.Stopped) × (node_in self.new ≡ node_in self.old) }
        ensures ok { IfOk result (λ outputs. IsDecided (node_in self.old) (waiting_in self.old) event.now outputs.items (node_in self.new) (waiting_in self.new)) }
        ensures idle { (h : HeldView) → (node_in self.old).up ≡ Some h → event.now.at < 2 ^ 62 → IsIdle (node_in self.old).place h event.now → KeeperRests result × (waiting_in self.new ≡ waiting_in self.old) }
        ensures end { is_some (node_in self.old).up ≡ true → 2 ^ 62 ≤ event.now.at → result ≡ Err faults.NumbersAtEnd }
        ensures exactly { IsAtEnd (node_in self.old) event.now → ¬ IsOk result }
        ensures down { OnErr result ((node_in self.new).up ≡ None) }
        ensures dropped { OnErr result (waiting_in self.new ≡ []) }
        ensures cause { IfErr result (KeeperHasCauseAt (node_in self.old).up (node_in self.old).place event.now) }
        ensures kind { IfErr result IsOfNode }
    {
        let taken = take(&mut self.node, &mut self.waiting, event);
        if taken.is_err() {
            self.waiting.clear();
        }
        taken
    }

    /// Makes the changes that wait, all or none, by one call of the store of rows, which is given them as they were decided; where
    /// none wait it asks the store for nothing. Where they can't be made the node has stopped. Nothing waits afterwards.
    pub fn commit(&mut self) -> Result<(), KeeperFault>
        ensures place { (node_in self.new).place ≡ (node_in self.old).place }
        ensures node { OnOk result (node_in self.new ≡ node_in self.old) }
        ensures settled { waiting_in self.new ≡ [] }
        ensures nothing { waiting_in self.old ≡ [] → (result ≡ Ok tt) × (rows_in self.new ≡ rows_in self.old) }
        ensures ok { R.is_clean (rows_in self.new) → R.is_open (rows_in self.old)
            → OnOk result (R.is_open (rows_in self.new) × (R.content (rows_in self.new) ≡ after_all (R.content (rows_in self.old)) (waiting_in self.old))) }
        ensures down { OnErr result ((node_in self.new).up ≡ None) }
        ensures err { R.is_clean (rows_in self.new) → R.is_open (rows_in self.new) → OnErr result (R.content (rows_in self.new) ≡ R.content (rows_in self.old)) }
        ensures crash { R.is_clean (rows_in self.new) → R.is_open (rows_in self.old) → (c : Content) → R.may_leave (rows_in self.new) c
            → (c ≡ R.content (rows_in self.old)) ⊎ (c ≡ after_all (R.content (rows_in self.old)) (waiting_in self.old)) }
        // A crash after `Ok` leaves what was written.
        ensures lasts { R.is_clean (rows_in self.new) → R.is_open (rows_in self.old)
            → OnOk result ((c : Content) → R.may_leave (rows_in self.new) c → c ≡ after_all (R.content (rows_in self.old)) (waiting_in self.old)) }
        ensures kind { IfErr result IsOfRows }
        ensures bad { result ≢ Err (faults.Rows RowFault.BadRow) }
        ensures device { IsErrOf result (faults.Rows RowFault.Device) → IsOneFailureMore (R.failed (rows_in self.old)) (R.failed (rows_in self.new)) }
        ensures counts { result ≢ Err (faults.Rows RowFault.Device) → R.failed (rows_in self.new) ≡ R.failed (rows_in self.old) }
        ensures was_clean { R.is_clean (rows_in self.new) → R.is_clean (rows_in self.old) }
    {
        let waiting = mem::replace(&mut self.waiting, Vec::new(self.alloc));
        match write(&mut self.rows, waiting) {
            Ok(()) => Ok(()),
            Err(fault) => {
                self.node.stop();
                Err(KeeperFault::Rows(fault))
            }
        }
    }

    /// The node.
    pub fn node(&self) -> &Node
        ensures { result.now ≡ node_in self.now }
    {
        &self.node
    }

    /// Gives the rows back, without what waits.
    pub fn into_rows(self) -> R
        ensures { result ≡ rows_in self }
    {
        let BatchKeeper { rows, .. } = self;
        rows
    }

    /// A crash: the node is down, and the rows stay. Nothing waits.
    pub fn crash(&mut self)
        ensures node { node_in self.new ≡ record (node_in self.old) { up = None } }
        ensures rows { rows_in self.new ≡ rows_in self.old }
        ensures nothing { waiting_in self.new ≡ [] }
    {
        let BatchKeeper { node, waiting, .. } = self;
        waiting.clear();
        node.stop();
    }
}
