//! A node, and what it makes of each event.

ghost use Rattle.std.specs.Prelude.{◌≡◌, ◌<◌, ◌≤◌, ◌^◌, ◌⊎◌, length, OnOk, IfOk, IfErr, IsErrOf, IsOk, OnErr, None, Some, MatchOption, Ok, Err, cond, is_some, true, false};
ghost use Rattle.std.specs.FinMap as map;
ghost use Rattle.std.specs.Option.{option_copied};
ghost use Rattle.broker_node.specs.Idle.{IsIdle, Rests, RestsWhereIdle};
ghost use Rattle.broker_node.specs.Opening.{IsOpenedFrom};
ghost use Rattle.broker_node.specs.Step.{IsDone, IsAtEnd, HasCauseAt, Settles, step_start, may_move, may_move_in};
ghost use Rattle.broker_node.specs.Turns.{Decides};
ghost use Rattle.node_bridge.specs.View.{known_of, lane_to};
ghost use Rattle.node_rows.specs.Reading.{SayNothing};
ghost use Rattle.node_work.specs.Held.Connections.{is_open};
ghost use Rattle.node_work.specs.View.{place_of};
ghost use Rattle.node_work.specs.Working.{ComesTo};
ghost use Rattle.node_work.specs.declared.fault.NodeFault.TheVariants.{NoMemory, NumbersAtEnd, Stopped};

use crate::event::{Event, EventKind};
use crate::turn::decide;
use causal_context::Context;
use home_table::HomeTable;
use node_work::{Counts, NodeFault, Outcome, Work};
use replica_store::ReplicaStore;
use row_store::{Row, RowFault};
use std::alloc::Global;
use std::marker::Model;

/// A node of the cluster.
pub struct Node {
    id: u16,
    homes: HomeTable,
    stopped: bool,
    work: Work,
}

impl Drop for Node {
    fn drop(self) {
        let Node {
            id: _id,
            homes: _homes,
            stopped: _stopped,
            work: _work,
        } = self;
    }
}

impl Model for Node {
    ghost use Rattle.std.specs.Prelude.{◌≡◌, false};
    ghost use Rattle.node_work.specs.View.{NodeView, place_of, up_of, coded_node};

    ghost Value = { NodeView };

    ghost coded = { coded_node };

    ghost view = { λ n. record { place = place_of n.id n.homes; homes = n.homes; up = up_of n.stopped n.work.held } };

    ghost invariant = { λ n. n.stopped ≡ false → (n.work.place ≡ place_of n.id n.homes) × (n.work.held.homes ≡ n.homes) };
}

/// Decides an event of a node that runs, and hands over what comes of it.
fn settle(work: &mut Work, event: &Event) -> Result<Outcome, NodeFault>
    ensures idle { event.now.at < 2 ^ 62 → IsIdle work.old.place work.old.held event.now → Rests result }
    ensures end { 2 ^ 62 ≤ event.now.at → result ≡ Err NumbersAtEnd }
    ensures ok { IfOk result (λ o. Settles work.old event.now o work.new) }
    ensures err { IfErr result (λ f. ComesTo {T = Unit {0}} (λ x. x) (Err f) (step_start work.old) work.new (Decides event.now)) }
{
    work.start();
    decide(work, event)?;
    work.can_last();
    work.finish()
}

/// Whether the event may bring a node another table of homes.
fn may_move(work: &Work, event: &Event) -> bool
    ensures { result ≡ may_move work.now.held.started event.now.kind }
{
    if !work.held().is_started() {
        return false;
    }
    match event.kind {
        EventKind::Table { .. } => true,
        _ => false,
    }
}

/// The table of homes that a node holds, where it may be another one.
fn moved(work: &Work, moves: bool) -> Result<Option<HomeTable>, NodeFault>
    ensures some { IfOk result (λ o. cond moves (o ≡ Some work.now.held.homes) (o ≡ None)) }
    ensures none { moves ≡ false → result ≡ Ok None }
    ensures fault { IfErr result (λ e. e ≡ NoMemory) }
{
    if moves {
        let homes = work.homes().copy()?;
        return Ok(Some(homes));
    }
    Ok(None)
}

impl Node {
    /// A node by its rows, in the order of their keys, the table of homes, and its number. One without rows is new.
    ///
    /// BadRow exactly where no such node has just these rows.
    pub fn open(alloc: Global, rows: &[Row], homes: HomeTable, id: u16) -> Result<Node, RowFault>
        requires { id < length homes.nodes }
        ensures ok { IfOk result (IsOpenedFrom rows.now id homes) }
        ensures bad { IsErrOf result RowFault.BadRow → SayNothing rows.now id (length homes.nodes) }
        ensures fault { IfErr result (λ e. (e ≡ RowFault.NoMemory) ⊎ (e ≡ RowFault.BadRow)) }
    {
        let Ok(shared) = homes.copy() else {
            return Err(RowFault::NoMemory);
        };
        let opened = node_rows::open(alloc, rows, id, homes.nodes())?;
        Ok(Node {
            id,
            homes,
            stopped: false,
            work: Work::wake(alloc, id, shared, opened),
        })
    }

    /// The table of homes: the one that it took last, with which it is opened again.
    pub fn homes(&self) -> &HomeTable
        ensures { result.now ≡ self.now.homes }
    {
        &self.homes
    }

    /// Its number.
    pub fn id(&self) -> u16
        ensures { result ≡ self.now.place.id }
    {
        self.id
    }

    /// Its place is one for the nodes of its table, which it holds while it runs. This does nothing; its contract is a law.
    pub fn has_place(&self)
        ensures place { self.now.place ≡ place_of self.now.place.id self.now.homes }
        ensures held { MatchOption self.now.up (Unit {0}) (λ h. self.now.homes ≡ h.homes) }
    {
        let _id = self.id;
    }

    /// Whether the event may bring it another table of homes.
    pub fn may_move(&self, event: &Event) -> bool
        ensures { result ≡ may_move_in self.now.up event.now.kind }
    {
        if self.stopped {
            return false;
        }
        may_move(&self.work, event)
    }

    /// Stops the node.
    pub fn stop(&mut self)
        ensures { self.new ≡ record self.old { up = None } }
    {
        self.stopped = true;
    }

    /// Stops the node, which is opened again with another table for as many nodes.
    pub fn stop_with(&mut self, homes: HomeTable)
        requires { length homes.nodes ≡ length self.old.homes.nodes }
        ensures { self.new ≡ record self.old { homes = homes; up = None } }
    {
        self.stopped = true;
        self.homes = homes;
    }

    /// Whether the node runs: it hasn't stopped.
    pub fn is_up(&self) -> bool
        ensures { result ≡ is_some self.now.up }
    {
        !self.stopped
    }

    /// The replicated state. Nothing is said of it once the node has stopped.
    pub fn store(&self) -> &ReplicaStore
        ensures { MatchOption self.now.up (Unit {0}) (λ h. result.now ≡ h.store) }
    {
        self.work.held().store()
    }

    /// Whether a client's connection is open. Nothing is said of it once the node has stopped.
    pub fn is_open(&self, connection: u64) -> bool
        ensures { MatchOption self.now.up (Unit {0}) (λ h. result ≡ is_open connection h) }
    {
        self.work.held().is_open(connection)
    }

    /// How often something was left out. Nothing is said of it once the node has stopped.
    pub fn counts(&self) -> Counts
        ensures { MatchOption self.now.up (Unit {0}) (λ h. result ≡ h.counts) }
    {
        self.work.held().counts()
    }

    /// How many clients have a session. Nothing is said of it once the node has stopped.
    pub fn sessions(&self) -> usize
        ensures { MatchOption self.now.up (Unit {0}) (λ h. result ≡ map.len h.sessions) }
    {
        self.work.held().sessions().count()
    }

    /// How many messages wait for another node. Nothing is said of it once the node has stopped.
    pub fn waiting(&self, peer: u16) -> usize
        ensures { MatchOption self.now.up (Unit {0}) (λ h. result ≡ length (lane_to h.bridge peer).waiting) }
    {
        self.work.held().bridge().waiting_count(peer)
    }

    /// The dots that another node is known to have taken, where the cluster has it. Nothing is said of them once the node has stopped.
    pub fn belief(&self, peer: u16) -> Option<&Context>
        ensures { MatchOption self.now.up (Unit {0}) (λ h. option_copied result ≡ known_of h.bridge peer) }
    {
        self.work.held().bridge().belief(peer)
    }

    /// Decides one event. After a fault the node has stopped.
    ///
    /// NumbersAtEnd at a moment of 2^62 or later, and only there or where the event needs a number of
    /// 2^62 or more; and such an event never succeeds. An idle event asks for no memory.
    pub fn step(&mut self, event: &Event) -> Result<Outcome, NodeFault>
        ensures place { self.new.place ≡ self.old.place }
        ensures homes { may_move_in self.old.up event.now.kind ≡ false → self.new.homes ≡ self.old.homes }
        ensures stopped { self.old.up ≡ None → (result ≡ Err Stopped) × (self.new ≡ self.old) }
        ensures idle { RestsWhereIdle self.old event.now result }
        ensures end { is_some self.old.up ≡ true → 2 ^ 62 ≤ event.now.at → result ≡ Err NumbersAtEnd }
        ensures exactly { IsAtEnd self.old event.now → ¬ IsOk result }
        ensures ok { IfOk result (λ o. IsDone self.old event.now o.outputs.items o.changes.items self.new) }
        ensures err { OnErr result (self.new ≡ record self.old { up = None }) }
        ensures cause { IfErr result (HasCauseAt self.old.up self.old.place event.now) }
    {
        if self.stopped {
            return Err(NodeFault::Stopped);
        }
        self.work.homes().is_table();
        let moves = may_move(&self.work, event);
        match settle(&mut self.work, event) {
            Ok(outcome) => match moved(&self.work, moves) {
                Ok(None) => Ok(outcome),
                Ok(Some(homes)) => {
                    self.homes = homes;
                    Ok(outcome)
                }
                Err(fault) => {
                    self.stopped = true;
                    Err(fault)
                }
            },
            Err(fault) => {
                self.stopped = true;
                Err(fault)
            }
        }
    }
}
