//! What a running node holds.

pub mod bridging;
pub mod connection;
pub mod connections;

ghost use Rattle.std.specs.Prelude.{◌≡◌, ℕ, ◌<◌, ◌≤◌, ◌^◌, ◌+◌, max, true, is_some, None, Some, OnOk, IfOk, IfErr, slice_get, option_and_then, Ok};
ghost use Rattle.std.specs.Option.{option_copied};
ghost use Rattle.std.specs.FinMap as map;
ghost use Rattle.bridge_lanes.specs.Lanes.{Lanes};
ghost use Rattle.bridge_frames.specs.declared.forward.Forward.{Forward};
ghost use Rattle.node_bridge.specs.View.{keeps, woken_bridge};
ghost use Rattle.replica_store.specs.States.{state_join};
ghost use Rattle.replica_store.specs.Making.{subscribe_of, put_of};
ghost use Rattle.subscription_set.specs.Standing.{any_of, any_below};
ghost use Rattle.causal_context.specs.Spelling.{HasSpelling};
ghost use Rattle.mqtt_packets.specs.Written as written;
ghost use Rattle.subscription_set.specs.Standing.{seen_of};
ghost use Rattle.mqtt_sessions.specs.State.{IsPublishableIf};
ghost use Rattle.law_sessions.specs.Runs.{connects, queues, rooms, takes, answers, closes, ticks, finishes};
ghost use Rattle.node_work.specs.Acts.{next, Connection};
ghost use Rattle.node_work.specs.Held.Calling.{IsHeldCall, MayConnectHere, MayAnswer};
ghost use Rattle.session_table.specs.Calls.{GoesTo, IsSpelledIf, stays, leaves, moves, reaction_of};
ghost use Rattle.session_table.specs.Rows.{LeadsOn};
ghost use Rattle.node_work.specs.Lasting.{AreOpenedWith, CanLast, StoreTells};
ghost use Rattle.node_work.specs.Held.Sessions.{Begun, Over, called, counted, more, will_is_due, end_is_due};
ghost use Rattle.node_work.specs.Held.Connections.{Accepted, Roomed, is_open, client_at, first_at, new_connection, room_at};
ghost use Rattle.node_work.specs.Held.Feeding.{IsHeldFed};
ghost use Rattle.node_work.specs.Held.Making.{Makes, number_at_end, put_at_end, removal, removal_below, with_operation};
ghost use Rattle.node_work.specs.Packets.{CameSpelled};
ghost use Rattle.node_work.specs.View.{no_counts, woken};
ghost use Rattle.replica_rows.specs.Reading.{IsStore};
ghost use Rattle.node_work.specs.declared.fault.NodeFault.TheVariants.{NoMemory};

use crate::counts::Counts;
use crate::fault::NodeFault;
use crate::held::connections::{Came, Connections};
use bridge_deltas::Links;
use causal_context::Lattice;
use home_table::HomeTable;
use mqtt_fields::Text;
use mqtt_message::Delivery;
use mqtt_packets::{Connect, Packet};
use mqtt_sessions::SessionFault;
use mqtt_topics::Filter;
use node_bridge::Bridge;
use node_rows::Opened;
use replica_rows::changes_by;
use replica_rows::laws::is_store;
use replica_store::{Content, Operation, ReplicaStore, delta_of};
use row_store::Change;
use session_table::{Addressed, Sessions};
use std::alloc::Global;
use std::marker::Model;
use subscription_set::Entry;

/// What a running node holds.
pub struct Held {
    at: u64,
    started: bool,
    homes: HomeTable,
    store: ReplicaStore,
    connections: Connections,
    sessions: Sessions,
    bridge: Bridge,
    turn: u64,
    named: u64,
    counts: Counts,
}

impl Drop for Held {
    fn drop(self) {
        let Held {
            at: _at,
            started: _started,
            homes: _homes,
            store: _store,
            connections: _connections,
            sessions: _sessions,
            bridge: _bridge,
            turn: _turn,
            named: _named,
            counts: _counts,
        } = self;
    }
}

impl Model for Held {
    ghost use Rattle.std.specs.Prelude.{◌<◌, ◌≤◌, ◌^◌};
    ghost use Rattle.node_work.specs.View.{HeldView, coded_held};
    ghost use Rattle.replica_rows.specs.Reading.{IsStore};

    ghost Value = { HeldView };

    ghost coded = { coded_held };

    ghost view = { λ h. record { at = h.at; started = h.started; homes = h.homes; store = h.store; connections = h.connections; sessions = h.sessions; bridge = h.bridge; turn = h.turn; named = h.named; counts = h.counts } };

    ghost invariant = { λ h. (h.at < 2 ^ 62) × (h.turn ≤ 2 ^ 62) × (h.named < 2 ^ 62) × IsStore h.store };
}

// The dots that a store has taken, and those that it has seen, have spellings. This does nothing; its contract is the law.
fn are_spelled(store: &ReplicaStore)
    ensures taken { HasSpelling store.now.taken }
    ensures seen { HasSpelling (seen_of store.now.subscriptions) }
{
    let _taken = store.taken().ranges();
    let _seen = store.subscriptions().seen().ranges();
}

// What is kept for other nodes, as it is opened.
fn bridge_of(links: Links) -> Bridge
    requires { (lanes : Lanes Forward) × AreOpenedWith links lanes }
    ensures { (lanes : Lanes Forward) → AreOpenedWith links lanes → result ≡ woken_bridge lanes }
{
    links.have_rows();
    Bridge::of(links)
}

fn no_counts() -> Counts
    ensures { result ≡ no_counts }
{
    Counts {
        queue_full: 0,
        retained_full: 0,
        picks_lost: 0,
        lane_full: 0,
        bad_frames: 0,
        frames_too_large: 0,
        tables_refused: 0,
    }
}

impl Held {
    /// What a node holds that is opened with a table of homes and what lasts of it.
    pub fn wake(alloc: Global, homes: HomeTable, opened: Opened) -> Held
        requires named { opened.named < 2 ^ 62 }
        requires store { IsStore opened.store }
        requires lanes { (lanes : Lanes Forward) × AreOpenedWith opened.links lanes }
        ensures { (lanes : Lanes Forward) → AreOpenedWith opened.links lanes → result ≡ woken homes opened.named opened.sessions opened.store lanes }
    {
        let Opened {
            named,
            sessions,
            store,
            links,
        } = opened;
        Held {
            at: 0,
            started: false,
            homes,
            store,
            connections: Connections::new(alloc),
            sessions,
            bridge: bridge_of(links),
            turn: 0,
            named,
            counts: no_counts(),
        }
    }

    /// What lasts can be read from its rows again. This does nothing; its contract is the law.
    pub fn can_last(&self)
        ensures { CanLast self.now }
    {
        self.sessions.are_durable();
        self.bridge.are_lanes();
    }

    /// The greatest moment that was taken.
    pub fn at(&self) -> u64
        ensures at { result ≡ self.now.at }
        ensures below { self.now.at < 2 ^ 62 }
    {
        self.at
    }

    pub fn is_started(&self) -> bool
        ensures { result ≡ self.now.started }
    {
        self.started
    }

    /// The table of homes that was taken last.
    pub fn homes(&self) -> &HomeTable
        ensures { result.now ≡ self.now.homes }
    {
        &self.homes
    }

    pub fn store(&self) -> &ReplicaStore
        ensures { result.now ≡ self.now.store }
    {
        &self.store
    }

    pub fn is_open(&self, connection: u64) -> bool
        ensures { result ≡ is_open connection self.now }
    {
        self.connections.is_open(connection)
    }

    /// The client of a connection that was accepted.
    pub fn client_of(&self, connection: u64) -> Option<&Text>
        ensures { option_copied result ≡ client_at connection self.now }
    {
        self.connections.client_of(connection)
    }

    /// How many bytes of PUBLISHes a connection takes, where it was told before its CONNECT.
    pub fn room_of(&self, connection: u64) -> Option<u64>
        ensures { result ≡ room_at connection self.now }
    {
        self.connections.room_of(connection)
    }

    /// The first byte of the packet that a connection's stream is at.
    pub fn first(&self, connection: u64) -> Option<u8>
        ensures { result ≡ first_at connection self.now }
    {
        self.connections.first(connection)
    }

    /// Whether something stands of the client and, where one is given, to the filter.
    pub fn stands(&self, client: &Text, filter: Option<&Filter>) -> bool
        ensures { result ≡ any_of client.now (option_copied filter.entry) self.now.store.subscriptions }
    {
        self.store.subscriptions().stands(client, filter)
    }

    /// Whether something stands of the client that was made under a version of the table of homes below
    /// this one.
    pub fn stands_below(&self, client: &Text, version: u64) -> bool
        ensures { result ≡ any_below client.now version self.now.store.subscriptions }
    {
        self.store.subscriptions().stands_below(client, version)
    }

    pub fn sessions(&self) -> &Sessions
        ensures { result.now ≡ self.now.sessions }
    {
        &self.sessions
    }

    /// What is kept for the other nodes.
    pub fn bridge(&self) -> &Bridge
        ensures { result.now ≡ self.now.bridge }
    {
        &self.bridge
    }

    /// Whether the will of a client's session is due.
    pub fn will_is_due(&self, client: &Text) -> bool
        ensures { result ≡ will_is_due client.now self.now }
    {
        match self.sessions.will_due(client) {
            Some(due) => due <= self.at,
            None => false,
        }
    }

    /// Whether the end of a client's session is due.
    pub fn end_is_due(&self, client: &Text) -> bool
        ensures { result ≡ end_is_due client.now self.now }
    {
        match self.sessions.end_due(client) {
            Some(due) => due <= self.at,
            None => false,
        }
    }

    /// How many messages were passed on.
    pub fn turn(&self) -> u64
        ensures { result ≡ self.now.turn }
    {
        self.turn
    }

    /// The number of the last client identifier that was given.
    pub fn named(&self) -> u64
        ensures named { result ≡ self.now.named }
        ensures below { self.now.named < 2 ^ 62 }
    {
        self.named
    }

    pub fn counts(&self) -> Counts
        ensures { result ≡ self.now.counts }
    {
        self.counts
    }

    /// Takes a moment, unless a later one was taken.
    pub fn take_moment(&mut self, at: u64)
        requires { at < 2 ^ 62 }
        ensures { self.new ≡ record self.old { at = max self.old.at at } }
    {
        self.at = self.at.max(at);
    }

    pub fn begin(&mut self)
        ensures { self.new ≡ record self.old { started = true } }
    {
        self.started = true;
    }

    /// Takes another table of homes.
    pub fn move_to(&mut self, homes: HomeTable)
        ensures { self.new ≡ record self.old { homes = homes } }
    {
        self.homes = homes;
    }

    /// Takes an operation that the node made.
    fn apply(
        &mut self,
        alloc: Global,
        operation: &Operation,
        changes: &mut Vec<Change>,
    ) -> Result<(), NodeFault>
        ensures ok { OnOk result (self.new ≡ with_operation self.old operation.now) }
        ensures tells { OnOk result (StoreTells self.old.store changes.old.items changes.new.items self.new.store) }
        ensures fault { IfErr result (λ e. e ≡ NoMemory) }
    {
        let Ok(delta) = delta_of(alloc, operation) else {
            return Err(NodeFault::NoMemory);
        };
        self.merge(alloc, delta, changes)
    }

    /// Makes a Subscribe of the entry, and takes it. Here and in the calls below, the changes of the rows of the replicated
    /// state that this makes come after those that are there.
    pub fn subscribe(
        &mut self,
        alloc: Global,
        node: u16,
        entry: Entry,
        changes: &mut Vec<Change>,
    ) -> Result<(), NodeFault>
        ensures makes { Makes (number_at_end node self.old) (subscribe_of node entry self.old.store) self.old self.new result }
        ensures tells { OnOk result (StoreTells self.old.store changes.old.items changes.new.items self.new.store) }
    {
        let operation = self.store.make_subscribe(node, entry)?;
        self.apply(alloc, &operation, changes)
    }

    /// Makes a Remove of what stands of the client and, where one is given, to the filter, and takes
    /// it.
    pub fn remove(
        &mut self,
        alloc: Global,
        node: u16,
        client: &Text,
        filter: Option<&Filter>,
        changes: &mut Vec<Change>,
    ) -> Result<(), NodeFault>
        requires { any_of client.now (option_copied filter) self.old.store.subscriptions ≡ true }
        ensures makes { Makes (number_at_end node self.old) (removal node client.now (option_copied filter.entry) self.old.store) self.old self.new result }
        ensures tells { OnOk result (StoreTells self.old.store changes.old.items changes.new.items self.new.store) }
    {
        match self.store.make_remove(node, client, filter)? {
            Some(operation) => self.apply(alloc, &operation, changes),
            None => Ok(()),
        }
    }

    /// Makes a Remove of what stands of the client and was made under a version of the table of homes
    /// below this one, and takes it.
    pub fn remove_below(
        &mut self,
        alloc: Global,
        node: u16,
        client: &Text,
        version: u64,
        changes: &mut Vec<Change>,
    ) -> Result<(), NodeFault>
        requires { any_below client.now version self.old.store.subscriptions ≡ true }
        ensures makes { Makes (number_at_end node self.old) (removal_below node client.now version self.old.store) self.old self.new result }
        ensures tells { OnOk result (StoreTells self.old.store changes.old.items changes.new.items self.new.store) }
    {
        match self.store.make_remove_below(node, client, version)? {
            Some(removal) => self.apply(alloc, &removal, changes),
            None => Ok(()),
        }
    }

    /// Makes a Put of the content, and takes it.
    pub fn put(
        &mut self,
        alloc: Global,
        node: u16,
        content: Content,
        changes: &mut Vec<Change>,
    ) -> Result<(), NodeFault>
        ensures makes { Makes (put_at_end node self.old) (put_of node content self.old.store) self.old self.new result }
        ensures tells { OnOk result (StoreTells self.old.store changes.old.items changes.new.items self.new.store) }
    {
        let operation = self.store.make_put(node, content)?;
        self.apply(alloc, &operation, changes)
    }

    /// Joins a state to the replicated one.
    fn join(
        &mut self,
        alloc: Global,
        state: &ReplicaStore,
        changes: &mut Vec<Change>,
    ) -> Result<(), NodeFault>
        ensures ok { OnOk result (self.new ≡ record self.old { store = state_join self.old.store state.now }) }
        ensures tells { OnOk result (StoreTells self.old.store changes.old.items changes.new.items self.new.store) }
        ensures fault { IfErr result (λ e. e ≡ NoMemory) }
    {
        is_store(state);
        let mut own = changes_by(alloc, &self.store, state)?;
        changes.append(&mut own)?;
        self.store.join(state)?;
        are_spelled(&self.store);
        Ok(())
    }

    /// Merges a state, and keeps it for the other nodes.
    pub fn merge(
        &mut self,
        alloc: Global,
        state: ReplicaStore,
        changes: &mut Vec<Change>,
    ) -> Result<(), NodeFault>
        ensures ok { OnOk result (self.new ≡ record self.old { store = state_join self.old.store state; bridge = keeps state self.old.bridge }) }
        ensures tells { OnOk result (StoreTells self.old.store changes.old.items changes.new.items self.new.store) }
        ensures fault { IfErr result (λ e. e ≡ NoMemory) }
    {
        self.join(alloc, &state, changes)?;
        self.bridge.keep(state)?;
        Ok(())
    }

    pub fn open(&mut self, alloc: Global, connection: u64) -> Result<(), NodeFault>
        ensures ok { OnOk result (self.new
            ≡ record self.old { connections = map.insert self.old.connections connection new_connection }) }
        ensures fault { IfErr result (λ e. e ≡ NoMemory) }
    {
        self.connections.open(alloc, connection)
    }

    pub fn close(&mut self, connection: u64)
        ensures { self.new ≡ record self.old { connections = map.remove self.old.connections connection } }
    {
        self.connections.close(connection);
    }

    /// Takes in a piece of a connection's stream.
    pub fn feed(&mut self, connection: u64, piece: &[u8]) -> Result<Came, NodeFault>
        ensures idle { map.get self.old.connections connection ≡ None → (result ≡ Ok Came.Nothing) × (self.new ≡ self.old) }
        ensures fed { IfOk result (λ came. IsHeldFed self.old connection piece.now came self.new) }
        ensures spelled { IfOk result (λ came. CameSpelled came) }
        ensures fault { IfErr result (λ e. e ≡ NoMemory) }
    {
        self.connections.feed(connection, piece)
    }

    /// Keeps how many bytes of PUBLISHes an open connection takes.
    pub fn keep_room(&mut self, connection: u64, bytes: u64)
        ensures { self.new ≡ next self.old (Connection (Roomed connection bytes)) }
    {
        self.connections.keep_room(connection, bytes);
    }

    /// Gives an open connection its client.
    pub fn accept(&mut self, alloc: Global, connection: u64, client: &Text) -> Result<(), NodeFault>
        ensures ok { OnOk result (self.new ≡ next self.old (Connection (Accepted connection client.now))) }
        ensures fault { IfErr result (λ e. e ≡ NoMemory) }
    {
        let client = client.copy(alloc)?;
        self.connections.accept(connection, client)
    }

    /// Remembers the number of the last client identifier that was given.
    pub fn name(&mut self, number: u64)
        requires { number < 2 ^ 62 }
        ensures { self.new ≡ record self.old { named = number } }
    {
        self.named = number;
    }

    /// Counts a message that is passed on, and picks that are lost.
    pub fn pass(&mut self, lost: u64)
        requires { self.old.turn < 2 ^ 62 }
        ensures { self.new ≡ record self.old { turn = self.old.turn + 1; counts = record self.old.counts { picks_lost = more lost self.old.counts.picks_lost } } }
    {
        self.turn += 1;
        self.counts.picks_lost = self.counts.picks_lost.saturating_add(lost);
    }

    /// Counts a retained message that had no room.
    pub fn drop_retained(&mut self)
        ensures { self.new ≡ record self.old { counts = record self.old.counts { retained_full = more 1 self.old.counts.retained_full } } }
    {
        self.counts.retained_full = self.counts.retained_full.saturating_add(1);
    }

    /// Counts a copy that a full queue left out.
    pub fn count_full(&mut self, full: bool)
        ensures { self.new ≡ record self.old { counts = counted full self.old.counts } }
    {
        if full {
            self.counts.queue_full = self.counts.queue_full.saturating_add(1);
        }
    }

    /// Gives a client a new session. Here and in the calls below, the changes of the sessions' rows that this makes come
    /// after those that are there.
    pub fn begin_session(
        &mut self,
        client: Text,
        changes: &mut Vec<Change>,
    ) -> Result<(), NodeFault>
        ensures ok { OnOk result (self.new ≡ called self.old (Begun client)) }
        ensures leads { OnOk result (LeadsOn self.old.sessions changes.old.items changes.new.items self.new.sessions) }
        ensures fault { IfErr result (λ e. e ≡ NoMemory) }
    {
        self.sessions.begin(client, changes)?;
        Ok(())
    }

    /// Takes a client's session out.
    pub fn end_session(&mut self, client: &Text, changes: &mut Vec<Change>) -> Result<(), NodeFault>
        ensures gone { self.new ≡ called self.old (Over client.now) }
        ensures leads { OnOk result (LeadsOn self.old.sessions changes.old.items changes.new.items self.new.sessions) }
        ensures fault { IfErr result (λ e. e ≡ NoMemory) }
    {
        self.sessions.remove(client, changes)?;
        Ok(())
    }

    /// The beginning of a connection of the client's session, which takes so many bytes of PUBLISHes, where that is counted.
    pub fn connect(
        &mut self,
        client: &Text,
        connection: u64,
        connect: &Connect,
        continued: bool,
        room: Option<u64>,
        changes: &mut Vec<Change>,
    ) -> Result<Option<Addressed>, SessionFault>
        requires continued { MayConnectHere client.now continued self.old.sessions }
        requires will { IsPublishableIf connect.now.will }
        ensures called { IsHeldCall client.now (connects connect.now continued room self.old.at) (moves connection) self.old (reaction_of result) self.new }
        ensures goes { IfOk result (GoesTo client.now self.new.sessions) }
        ensures spelled { IfOk (reaction_of result) (IsSpelledIf self.old.at) }
        ensures leads { OnOk result (LeadsOn self.old.sessions changes.old.items changes.new.items self.new.sessions) }
    {
        self.sessions.connect(
            client, connection, connect, continued, room, self.at, changes,
        )
    }

    /// A copy of a message for the client.
    pub fn queue(
        &mut self,
        client: &Text,
        delivery: Delivery,
        changes: &mut Vec<Change>,
    ) -> Result<Option<Addressed>, SessionFault>
        ensures called { IsHeldCall client.now (queues delivery self.old.at) stays self.old (reaction_of result) self.new }
        ensures goes { IfOk result (GoesTo client.now self.new.sessions) }
        ensures spelled { IfOk (reaction_of result) (IsSpelledIf self.old.at) }
        ensures leads { OnOk result (LeadsOn self.old.sessions changes.old.items changes.new.items self.new.sessions) }
    {
        self.sessions.queue(client, delivery, self.at, changes)
    }

    /// The client's connection takes so many bytes of PUBLISHes from now on.
    pub fn make_room(
        &mut self,
        client: &Text,
        bytes: u64,
        changes: &mut Vec<Change>,
    ) -> Result<Option<Addressed>, SessionFault>
        ensures called { IsHeldCall client.now (rooms bytes self.old.at) stays self.old (reaction_of result) self.new }
        ensures goes { IfOk result (GoesTo client.now self.new.sessions) }
        ensures spelled { IfOk (reaction_of result) (IsSpelledIf self.old.at) }
        ensures leads { OnOk result (LeadsOn self.old.sessions changes.old.items changes.new.items self.new.sessions) }
    {
        self.sessions.make_room(client, bytes, self.at, changes)
    }

    /// A packet of the client.
    pub fn packet(
        &mut self,
        client: &Text,
        packet: &Packet,
        room: bool,
        changes: &mut Vec<Change>,
    ) -> Result<Option<Addressed>, SessionFault>
        requires { written.HasSpelling packet.now }
        ensures called { IsHeldCall client.now (takes packet.now self.old.at room) stays self.old (reaction_of result) self.new }
        ensures goes { IfOk result (GoesTo client.now self.new.sessions) }
        ensures spelled { IfOk (reaction_of result) (IsSpelledIf self.old.at) }
        ensures leads { OnOk result (LeadsOn self.old.sessions changes.old.items changes.new.items self.new.sessions) }
    {
        self.sessions.packet(client, packet, self.at, room, changes)
    }

    /// The codes of the SUBSCRIBE or UNSUBSCRIBE that was asked for.
    pub fn answer(
        &mut self,
        client: &Text,
        identifier: u16,
        codes: &[u8],
        changes: &mut Vec<Change>,
    ) -> Result<Option<Addressed>, SessionFault>
        requires { MayAnswer identifier codes.now }
        ensures called { IsHeldCall client.now (answers identifier codes.now) stays self.old (reaction_of result) self.new }
        ensures goes { IfOk result (GoesTo client.now self.new.sessions) }
        ensures spelled { IfOk (reaction_of result) (IsSpelledIf self.old.at) }
        ensures leads { OnOk result (LeadsOn self.old.sessions changes.old.items changes.new.items self.new.sessions) }
    {
        self.sessions.answer(client, identifier, codes, changes)
    }

    /// The connection of the client's session is gone.
    pub fn part(
        &mut self,
        client: &Text,
        changes: &mut Vec<Change>,
    ) -> Result<Option<Addressed>, SessionFault>
        ensures called { IsHeldCall client.now (closes self.old.at) leaves self.old (reaction_of result) self.new }
        ensures goes { IfOk result (GoesTo client.now self.new.sessions) }
        ensures spelled { IfOk (reaction_of result) (IsSpelledIf self.old.at) }
        ensures leads { OnOk result (LeadsOn self.old.sessions changes.old.items changes.new.items self.new.sessions) }
    {
        self.sessions.closed(client, self.at, changes)
    }

    /// One thing of the client's session that is due.
    pub fn tick(
        &mut self,
        client: &Text,
        changes: &mut Vec<Change>,
    ) -> Result<Option<Addressed>, SessionFault>
        ensures called { IsHeldCall client.now (ticks self.old.at) stays self.old (reaction_of result) self.new }
        ensures goes { IfOk result (GoesTo client.now self.new.sessions) }
        ensures spelled { IfOk (reaction_of result) (IsSpelledIf self.old.at) }
        ensures leads { OnOk result (LeadsOn self.old.sessions changes.old.items changes.new.items self.new.sessions) }
    {
        self.sessions.tick(client, self.at, changes)
    }

    /// The client's session ends now.
    pub fn finish(
        &mut self,
        client: &Text,
        changes: &mut Vec<Change>,
    ) -> Result<Option<Addressed>, SessionFault>
        ensures called { IsHeldCall client.now (finishes self.old.at) stays self.old (reaction_of result) self.new }
        ensures goes { IfOk result (GoesTo client.now self.new.sessions) }
        ensures spelled { IfOk (reaction_of result) (IsSpelledIf self.old.at) }
        ensures leads { OnOk result (LeadsOn self.old.sessions changes.old.items changes.new.items self.new.sessions) }
    {
        self.sessions.finish(client, self.at, changes)
    }
}
