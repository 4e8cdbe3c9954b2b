//! A node behind sockets.

ghost use Rattle.std.specs.Prelude.{◌≡◌, ◌≢◌, [], IfErr, IfOk, MatchOption};
ghost use Rattle.node_keeper.specs.declared.fault.KeeperFault.TheVariants.{NoMemory};
ghost use Rattle.node_server.specs.Outputs.{AreForClients, AreForPeers};
ghost use Rattle.node_server.specs.Serving.{IsCrashed};

use crate::convert::{event_of, for_all, for_clients, peer_event_of};
use crate::straining::{LaneWatch, tell_strain};
use broker_node::Node;
use broker_sockets::{BridgeHandler, Event, Given, Handler, Output, PeerEvent};
use node_keeper::{BatchKeeper, Keeper, KeeperFault};
use node_work::{Counts, Output as Made};
use row_store::RowStore;
use std::alloc::Global;

/// A node with its rows, which answers the clients and the other nodes of sockets.
#[derive(Drop)]
pub struct ServedNode<R> {
    pub(crate) alloc: Global,
    pub(crate) keeper: BatchKeeper<R>,
    /// Who is told whether too much waits for other nodes, if anybody.
    lanes: Option<LaneWatch>,
}

impl<R: RowStore> ServedNode<R> {
    ghost use Rattle.node_keeper.specs.BatchViews.{node_in, rows_in, waiting_in};
    ghost use Rattle.node_keeper.specs.Views.{node_of, rows_of};

    /// A node that is to be served.
    pub fn new(alloc: Global, keeper: Keeper<R>) -> ServedNode<R>
        ensures node { node_in result.keeper ≡ node_of keeper }
        ensures rows { rows_in result.keeper ≡ rows_of keeper }
        ensures nothing { waiting_in result.keeper ≡ [] }
    {
        ServedNode {
            alloc,
            keeper: BatchKeeper::new(alloc, keeper),
            lanes: None,
        }
    }

    /// From now on it is told here whether too much waits for other nodes, where somebody is to be told.
    pub(crate) fn watch_lanes(&mut self, lanes: Option<LaneWatch>)
        ensures { self.new.keeper ≡ self.old.keeper }
    {
        self.lanes = lanes;
    }

    /// How many links were closed since they came from elsewhere than a bridge of the table; none where nobody counts them.
    pub(crate) fn links_refused(&self) -> u64 {
        match &self.lanes {
            Some(lanes) => lanes.links_refused(),
            None => 0,
        }
    }

    /// The node.
    pub fn node(&self) -> &Node
        ensures { result.now ≡ node_in self.now.keeper }
    {
        self.keeper.node()
    }

    /// How often the node has left something out. Nothing is said of it once the node has stopped.
    pub fn counts(&self) -> Counts
        ensures { MatchOption (node_in self.now.keeper).up (Unit {0}) (λ h. result ≡ h.counts) }
    {
        self.keeper.node().counts()
    }
}

/// Hands over what of the outputs is for clients. Where there is no memory for it the node stops, as in a crash.
pub(crate) fn hand_over<R: RowStore>(
    alloc: Global,
    keeper: &mut BatchKeeper<R>,
    made: Vec<Made>,
) -> Result<Vec<Output>, KeeperFault>
    ensures ok { IfOk result (λ handed. AreForClients made.items handed.items × (keeper.new ≡ keeper.old)) }
    ensures fault { IfErr result (λ fault. (fault ≡ NoMemory) × (made.items ≢ []) × IsCrashed keeper.old keeper.new) }
{
    match for_clients(alloc, made) {
        Ok(handed) => Ok(handed),
        Err(_) => {
            keeper.crash();
            Err(KeeperFault::NoMemory)
        }
    }
}

/// Hands over all outputs, in the same way.
fn give_all<R: RowStore>(
    alloc: Global,
    keeper: &mut BatchKeeper<R>,
    made: Vec<Made>,
) -> Result<Given, KeeperFault>
    ensures ok { IfOk result (λ given. AreForClients made.items given.outputs.items × AreForPeers made.items given.frames.items × (keeper.new ≡ keeper.old)) }
    ensures fault { IfErr result (λ fault. (fault ≡ NoMemory) × (made.items ≢ []) × IsCrashed keeper.old keeper.new) }
{
    match for_all(alloc, made) {
        Ok(given) => Ok(given),
        Err(_) => {
            keeper.crash();
            Err(KeeperFault::NoMemory)
        }
    }
}

impl<R: RowStore> Handler for ServedNode<R> {
    type Fault = KeeperFault;

    ghost use Rattle.node_server.specs.Events.{event_of};
    ghost use Rattle.node_server.specs.Serving.{IsAnsweredToClients, IsCommitted, IsCutOff, IsHalted};

    ghost handles = { λ s told handed s'. IsAnsweredToClients s.keeper (event_of told) handed s'.keeper };

    ghost refuses = { λ s told fault s'. IsHalted s.keeper (event_of told) fault s'.keeper };

    ghost settles = { λ s s'. IsCommitted R.is_clean R.is_open R.content R.may_leave s.keeper s'.keeper };

    ghost stops = { λ s fault s'. IsCutOff R.is_clean R.is_open R.content R.may_leave s.keeper fault s'.keeper };

    /// Hands the event to the node, whose rows stay. After a fault the node has stopped.
    fn handle(&mut self, told: Event) -> Result<Vec<Output>, KeeperFault> {
        let event = event_of(told);
        match self.keeper.decide(&event) {
            Ok(made) => {
                tell_strain(&mut self.lanes, self.keeper.node(), event.at);
                hand_over(self.alloc, &mut self.keeper, made)
            }
            Err(fault) => Err(fault),
        }
    }

    /// Changes the rows as all events since the last call tell, at once. After a fault the node has stopped.
    fn settle(&mut self) -> Result<(), KeeperFault> {
        self.keeper.commit()
    }
}

impl<R: RowStore> BridgeHandler for ServedNode<R> {
    ghost use Rattle.node_server.specs.Events.{peer_event_of};
    ghost use Rattle.node_server.specs.Serving.{IsAnsweredToAll, IsHalted};

    ghost hears = { λ s told given s'. IsAnsweredToAll s.keeper (peer_event_of told) given s'.keeper };

    ghost declines = { λ s told fault s'. IsHalted s.keeper (peer_event_of told) fault s'.keeper };

    /// Hands the event to the node, whose rows stay. After a fault the node has stopped.
    fn hear(&mut self, told: PeerEvent) -> Result<Given, KeeperFault> {
        let event = peer_event_of(told);
        match self.keeper.decide(&event) {
            Ok(made) => {
                tell_strain(&mut self.lanes, self.keeper.node(), event.at);
                give_all(self.alloc, &mut self.keeper, made)
            }
            Err(fault) => Err(fault),
        }
    }
}
