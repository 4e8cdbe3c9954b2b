//! A node and its rows.

ghost use Rattle.std.specs.Prelude.{◌≡◌, ◌≢◌, ◌<◌, ◌≤◌, ◌^◌, length, OnOk, IfOk, IfErr, IfSome, OnErr, IsErr, IsOk, IsErrOf, is_some, Err, None, Some, true};
ghost use Rattle.std.specs.Option.{unwrap_or};
ghost use Rattle.broker_node.specs.Idle.{IsIdle};
ghost use Rattle.broker_node.specs.Step.{IsAtEnd, may_move_in};
ghost use Rattle.node_keeper.specs.Keeping.{AreOfNone, CannotOpen, Commits, GivesOut, KeeperHasCauseAt, IsOneFailureMore, KeepsRows, KeepsTable, MayBeLeft, OpensFromRows, KeeperRests, may_be_raised, may_be_marked};
ghost use Rattle.node_keeper.specs.declared.fault.KeeperFault.TheVariants as faults;
ghost use Rattle.node_work.specs.View.{HeldView, place_of};
ghost use Rattle.row_store.specs.Rows.{Content};

use crate::fault::KeeperFault;
use crate::waking::wake;
use broker_node::{Event, Node};
use home_table::HomeTable;
use mqtt_fields::NUMBERS_END;
use node_work::{Outcome, Output};
use row_store::{RowFault, RowStore};
use std::alloc::Global;

/// A node and its rows, which hold what of it lasts.
#[derive(Drop)]
pub struct Keeper<R> {
    alloc: Global,
    rows: R,
    node: Node,
    ghost among: { node.place.id < node.place.nodes },
}

/// The table of homes that a node has before an event which may bring it another one.
fn table_before(node: &Node, event: &Event) -> Result<Option<HomeTable>, KeeperFault>
    ensures ok { IfOk result (λ o. KeepsTable node.now event.now o) }
    ensures fault { IfErr result (λ e. e ≡ faults.NoMemory) }
    ensures cause { IsErr result → may_move_in node.now.up event.now.kind ≡ true }
    ensures end { 2 ^ 62 ≤ event.now.at → IsOk result }
{
    node.has_place();
    if event.at >= NUMBERS_END || !node.may_move(event) {
        return Ok(None);
    }
    match node.homes().copy() {
        Ok(homes) => Ok(Some(homes)),
        Err(_) => Err(KeeperFault::NoMemory),
    }
}

/// Stops a node whose step isn't written, with the table that it had before it.
fn lose(node: &mut Node, before: Option<HomeTable>)
    requires { IfSome before (λ t. length t.nodes ≡ node.old.place.nodes) }
    ensures { node.new ≡ record node.old { homes = unwrap_or before node.old.homes; up = None } }
{
    node.has_place();
    match before {
        Some(homes) => node.stop_with(homes),
        None => node.stop(),
    }
}

impl<R: RowStore> Keeper<R> {
    ghost use Rattle.node_keeper.specs.Views.{node_of, rows_of};

    /// Opens a node from its rows: its table of homes, and its number. Where there are no rows it first writes the mark, and
    /// rows of version 1 or 2 it writes as rows of version 3 before it answers. A fault gives the rows back; they are what they
    /// were, but for the mark.
    pub fn open(
        alloc: Global,
        mut rows: R,
        homes: HomeTable,
        id: u16,
    ) -> Result<Keeper<R>, (KeeperFault, R)>
        requires { id < length homes.nodes }
        ensures place { IfOk result (λ k. (node_of k).place ≡ place_of id homes) }
        ensures homes { IfOk result (λ k. (node_of k).homes ≡ homes) }
        ensures ok { IfOk result (λ k. R.is_clean (rows_of k) → R.is_open rows
            → R.is_open (rows_of k) × OpensFromRows (place_of id homes) homes (R.content rows) (R.content (rows_of k)) (node_of k)) }
        ensures err { IfErr result (λ e. R.is_clean e.1 → R.is_open e.1 → may_be_marked id (R.content rows) (R.content e.1)) }
        ensures bad { IfErr result (λ e. R.is_clean e.1 → R.is_open rows → e.0 ≡ faults.Rows RowFault.BadRow
            → AreOfNone (place_of id homes) (R.content e.1)) }
        ensures crash { IfErr result (λ e. R.is_clean e.1 → R.is_open rows → (c : Content) → R.may_leave e.1 c → may_be_raised id (R.content rows) c) }
        ensures device { IfErr result (λ e. e.0 ≡ faults.Rows RowFault.Device → IsOneFailureMore (R.failed rows) (R.failed e.1)) }
        ensures fault { IfErr result (λ e. CannotOpen e.0) }
    {
        match wake(alloc, &mut rows, homes, id) {
            Ok(node) => Ok(Keeper { alloc, rows, node }),
            Err(RowFault::NoMemory) => Err((KeeperFault::NoMemory, rows)),
            Err(fault) => Err((KeeperFault::Rows(fault), rows)),
        }
    }

    /// Opens the node again from its rows: a restart, also of a node that runs. After a fault it is down.
    pub fn reopen(&mut self) -> Result<(), KeeperFault>
        ensures place { (node_of self.new).place ≡ (node_of self.old).place }
        ensures homes { (node_of self.new).homes ≡ (node_of self.old).homes }
        ensures ok { R.is_clean (rows_of self.new) → R.is_open (rows_of self.old)
            → OnOk result (R.is_open (rows_of self.new) × OpensFromRows (node_of self.old).place (node_of self.old).homes (R.content (rows_of self.old)) (R.content (rows_of self.new)) (node_of self.new)) }
        ensures down { OnErr result ((node_of self.new) ≡ record (node_of self.old) { up = None }) }
        ensures err { R.is_clean (rows_of self.new) → R.is_open (rows_of self.new)
            → OnErr result (may_be_marked (node_of self.old).place.id (R.content (rows_of self.old)) (R.content (rows_of self.new))) }
        ensures bad { R.is_clean (rows_of self.new) → R.is_open (rows_of self.old) → IsErrOf result (faults.Rows RowFault.BadRow)
            → AreOfNone (node_of self.old).place (R.content (rows_of self.new)) }
        ensures crash { R.is_clean (rows_of self.new) → R.is_open (rows_of self.old) → (c : Content) → R.may_leave (rows_of self.new) c
            → may_be_raised (node_of self.old).place.id (R.content (rows_of self.old)) c }
        ensures device { IsErrOf result (faults.Rows RowFault.Device) → IsOneFailureMore (R.failed (rows_of self.old)) (R.failed (rows_of self.new)) }
        ensures fault { IfErr result CannotOpen }
    {
        self.node.stop();
        self.node.has_place();
        let Ok(homes) = self.node.homes().copy() else {
            return Err(KeeperFault::NoMemory);
        };
        match wake(self.alloc, &mut self.rows, homes, self.node.id()) {
            Ok(node) => {
                self.node = node;
                Ok(())
            }
            Err(RowFault::NoMemory) => Err(KeeperFault::NoMemory),
            Err(fault) => Err(KeeperFault::Rows(fault)),
        }
    }

    /// Takes one event: the node decides it, its rows are changed as it tells, and only then is anything given out. Where
    /// the rows can't be changed nothing is, and the node has stopped, with the table of homes that it had.
    pub fn handle(&mut self, event: &Event) -> Result<Vec<Output>, KeeperFault>
        ensures place { (node_of self.new).place ≡ (node_of self.old).place }
        ensures stopped { (node_of self.old).up ≡ None → (result ≡ Err faults.Stopped) × ((node_of self.new) ≡ (node_of self.old)) × ((rows_of self.new) ≡ (rows_of self.old)) }
        ensures ok { R.is_clean (rows_of self.new) → R.is_open (rows_of self.old)
            → IfOk result (λ outputs. R.is_open (rows_of self.new) × Commits (node_of self.old) (R.content (rows_of self.old)) event.now outputs.items (node_of self.new) (R.content (rows_of self.new))) }
        ensures given { IfOk result (λ outputs. GivesOut (node_of self.old) event.now outputs.items (node_of self.new)) }
        ensures idle { (h : HeldView) → (node_of self.old).up ≡ Some h → event.now.at < 2 ^ 62 → IsIdle (node_of self.old).place h event.now → KeeperRests result × ((rows_of self.new) ≡ (rows_of self.old)) }
        ensures end { is_some (node_of self.old).up ≡ true → 2 ^ 62 ≤ event.now.at → result ≡ Err faults.NumbersAtEnd }
        ensures exactly { IsAtEnd (node_of self.old) event.now → ¬ IsOk result }
        ensures down { OnErr result ((node_of self.new) ≡ record (node_of self.old) { up = None }) }
        ensures err { R.is_clean (rows_of self.new) → R.is_open (rows_of self.new) → OnErr result (R.content (rows_of self.new) ≡ R.content (rows_of self.old)) }
        ensures kept { IfErr result (KeepsRows (rows_of self.old) (rows_of self.new)) }
        ensures crash { R.is_clean (rows_of self.new) → R.is_open (rows_of self.old) → (c : Content) → R.may_leave (rows_of self.new) c → MayBeLeft (node_of self.old) (R.content (rows_of self.old)) event.now c }
        ensures cause { IfErr result (KeeperHasCauseAt (node_of self.old).up (node_of self.old).place event.now) }
        ensures bad { result ≢ Err (faults.Rows RowFault.BadRow) }
        ensures device { IsErrOf result (faults.Rows RowFault.Device) → IsOneFailureMore (R.failed (rows_of self.old)) (R.failed (rows_of self.new)) }
        ensures counts { result ≢ Err (faults.Rows RowFault.Device) → R.failed (rows_of self.new) ≡ R.failed (rows_of self.old) }
    {
        let before = match table_before(&self.node, event) {
            Ok(before) => before,
            Err(fault) => {
                self.node.stop();
                return Err(fault);
            }
        };
        let Outcome { outputs, changes } = match self.node.step(event) {
            Ok(outcome) => outcome,
            Err(fault) => return Err(KeeperFault::from(fault)),
        };
        match self.rows.apply(&changes) {
            Ok(()) => Ok(outputs),
            Err(fault) => {
                lose(&mut self.node, before);
                Err(KeeperFault::Rows(fault))
            }
        }
    }

    /// The node.
    pub fn node(&self) -> &Node
        ensures { result.now ≡ (node_of self.now) }
    {
        &self.node
    }

    /// The rows.
    pub fn rows(&self) -> &R
        ensures { result.now ≡ (rows_of self.now) }
    {
        &self.rows
    }

    /// Whether the node runs: it hasn't stopped.
    pub fn is_up(&self) -> bool
        ensures { result ≡ is_some (node_of self.now).up }
    {
        self.node.is_up()
    }

    /// Gives the rows back.
    pub fn into_rows(self) -> R
        ensures { result ≡ rows_of self }
    {
        let Keeper { rows, .. } = self;
        rows
    }

    /// Gives the node and the rows.
    pub fn into_parts(self) -> (Node, R)
        ensures node { result.0 ≡ node_of self }
        ensures rows { result.1 ≡ rows_of self }
    {
        let Keeper { node, rows, .. } = self;
        (node, rows)
    }

    /// A crash: the node is down, and the rows stay.
    pub fn crash(&mut self)
        ensures node { (node_of self.new) ≡ record (node_of self.old) { up = None } }
        ensures rows { (rows_of self.new) ≡ (rows_of self.old) }
    {
        let Keeper { node, .. } = self;
        node.stop();
    }
}
