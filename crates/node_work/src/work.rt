//! A node at work on an event.

mod bridging;

ghost use Rattle.std.specs.Prelude.{◌≡◌, ◌<◌, ◌≤◌, ◌^◌, ℕ, List, map, true, false, is_some, [], ◌∷◌, ◌++◌, OnOk, IfOk, IfErr, IsOk, Ok, Err, Some, None};
ghost use Rattle.std.specs.Option.{option_copied};
ghost use Rattle.mqtt_packets.specs.Written.{HasSpelling, written};
ghost use Rattle.mqtt_message.specs.declared.delivery.Delivery.{Delivery};
ghost use Rattle.mqtt_message.specs.declared.message.Message.{Message};
ghost use Rattle.mqtt_sessions.specs.State.{IsPublishableIf};
ghost use Rattle.mqtt_sessions.specs.Reaction.{packet_of};
ghost use Rattle.mqtt_sessions.specs.Reaction as reactions;
ghost use Rattle.law_sessions.specs.Runs.{connects, queues, rooms, takes, answers, closes, ticks, finishes};
ghost use Rattle.subscription_set.specs.Standing.{any_of, any_below};
ghost use Rattle.node_work.specs.Acts.{Began, Connection, Store, Merged, Session, Out, Named, Acknowledged, Passed, Dropped, Moved, MayMove, AreAnswers};
ghost use Rattle.node_work.specs.Calling.{Calls};
ghost use Rattle.node_work.specs.Doings.{TakesMoment, OpensConnection, MakesPut, MakesSubscribe, Removes, RemovesBelow, Sends, Disconnects, Redirects};
ghost use Rattle.mqtt_sessions.specs.Answers.{fits};
ghost use Rattle.node_work.specs.Held.Calling.{MayConnectHere, MayAnswer, Reacted, connection_of};
ghost use Rattle.mqtt_sessions.specs.Reaction.{AreSpelled};
ghost use Rattle.session_table.specs.Calls.{IsSpelledIf, stays, leaves, moves, reaction_of};
ghost use Rattle.session_table.specs.Rows.{own_kind};
ghost use Rattle.node_work.specs.Held.Connections.{Opened, Roomed, Accepted, Closed, IsWaiting, is_open};
ghost use Rattle.node_work.specs.Held.Feeding.{IsHeldFed};
ghost use Rattle.node_work.specs.Held.Sessions.{Begun, Over, has_session, packet_output, end_outputs, outputs_on};
ghost use Rattle.node_work.specs.Packets.{CameSpelled};
ghost use Rattle.replica_rows.specs.Reading.{IsStore};
ghost use Rattle.row_store.specs.Gathered.{AreOnce, Settle};
ghost use Rattle.bridge_routes.specs.declared.plain.PlainCopy.{PlainCopy as Copy};
ghost use Rattle.node_work.specs.Passing.{IsPassed, turn_at_end};
ghost use Rattle.node_work.specs.Lasting.{AreOpenedWith, CanLast};
ghost use Rattle.bridge_frames.specs.declared.forward.Forward.{Forward};
ghost use Rattle.bridge_lanes.specs.Lanes.{Lanes};
ghost use Rattle.bridge_routes.specs.declared.destinations.Route.{Route};
ghost use Rattle.node_work.specs.View.{HeldView, place_of, woken};
ghost use Rattle.node_work.specs.Working.{ComesTo, Acting, Numbered, Returns, If};
ghost use Rattle.node_work.specs.declared.granted.Granted.{Granted};
ghost use Rattle.node_work.specs.declared.fault.NodeFault.TheVariants.{NoMemory, NumbersAtEnd};

use crate::fault::NodeFault;
use crate::held::Held;
use crate::held::connections::Came;
use crate::outcome::{Outcome, Output};
use crate::packets::{disconnect, moved, written};
use home_table::HomeTable;
use mqtt_fields::{NUMBERS_END, Text};
use mqtt_message::Delivery;
use mqtt_packets::{Bytes, Connect, Packet};
use mqtt_sessions::{Output as SessionOutput, Publication, Reaction, SessionFault};
use mqtt_topics::Filter;
use node_rows::{Opened, mark_row};
use replica_store::{Content, ReplicaStore};
use row_store::kinds::SESSION;
use row_store::{Change, gather};
use session_table::Addressed;
use std::alloc::Global;
use std::marker::Model;
use subscription_set::Entry;

/// A node at work: its place, what it holds, and what it has given out so far.
pub struct Work {
    alloc: Global,
    id: u16,
    nodes: u16,
    held: Held,
    outputs: Vec<Output>,

    // The changes of the node's rows, in the order in which they were made.
    changes: Vec<Change>,
}

impl Drop for Work {
    fn drop(self) {
        let Work {
            alloc: _alloc,
            id: _id,
            nodes: _nodes,
            held: _held,
            outputs: _outputs,
            changes: _changes,
        } = self;
    }
}

impl Model for Work {
    ghost use Rattle.std.specs.Prelude.{ℕ, List, refl};
    ghost use Rattle.std.specs.Coded.{code_by, coded×, coded_list};
    ghost use Rattle.node_work.specs.declared.outcome.Output.{Output};
    ghost use Rattle.node_work.specs.contracts.outcome.Output as output;
    ghost use Rattle.row_store.specs.declared.row.Change.{Change};
    ghost use Rattle.row_store.specs.contracts.row.Change as change;
    ghost use Rattle.node_work.specs.View.{HeldView, Place, WorkView, coded_held, coded_place};

    ghost Value = { WorkView };

    ghost coded = { code_by (Place × (HeldView × (List Output × List Change))) (coded× coded_place (coded× coded_held (coded× (coded_list output.the_row.coded) (coded_list change.the_row.coded))))
        (λ w. (w.place, (w.held, (w.outputs, w.changes)))) (λ p. record { place = p.0; held = p.1.0; outputs = p.1.1.0; changes = p.1.1.1 }) (λ _. refl) };

    ghost view = { λ w. record { place = record { id = w.id; nodes = w.nodes }; held = w.held; outputs = w.outputs.items; changes = w.changes.items } };
}

/// A reaction that says nothing.
fn nothing(alloc: Global) -> Reaction
    ensures { result ≡ reactions.nothing }
{
    Reaction {
        packets: Vec::new(alloc),
        ask: None,
        end: None,
        over: false,
        full: false,
    }
}

impl Work {
    /// A node, as it is opened with what lasts of it.
    pub fn wake(alloc: Global, id: u16, homes: HomeTable, opened: Opened) -> Work
        requires named { opened.named < 2 ^ 62 }
        requires store { IsStore opened.store }
        requires lanes { (lanes : Lanes Forward) × AreOpenedWith opened.links lanes }
        ensures { (lanes : Lanes Forward) → AreOpenedWith opened.links lanes
            → result ≡ record { place = place_of id homes; held = woken homes opened.named opened.sessions opened.store lanes; outputs = []; changes = [] } }
    {
        Work {
            alloc,
            id,
            nodes: homes.nodes(),
            held: Held::wake(alloc, homes, opened),
            outputs: Vec::new(alloc),
            changes: Vec::new(alloc),
        }
    }

    pub fn alloc(&self) -> Global {
        self.alloc
    }

    pub fn id(&self) -> u16
        ensures { result ≡ self.now.place.id }
    {
        self.id
    }

    /// How many nodes the cluster has.
    pub fn nodes(&self) -> u16
        ensures { result ≡ self.now.place.nodes }
    {
        self.nodes
    }

    /// The table of homes that was taken last.
    pub fn homes(&self) -> &HomeTable
        ensures { result.now ≡ self.now.held.homes }
    {
        self.held.homes()
    }

    pub fn held(&self) -> &Held
        ensures { result.now ≡ self.now.held }
    {
        &self.held
    }

    /// Starts a step.
    pub fn start(&mut self)
        ensures { self.new ≡ record self.old { outputs = []; changes = [] } }
    {
        self.outputs.clear();
        self.changes.clear();
    }

    /// What lasts can be read from its rows again. This does nothing; its contract is the law.
    pub fn can_last(&self)
        ensures { CanLast self.now.held }
    {
        self.held.can_last();
    }

    /// Hands over what was given out, and the changes of the rows: of those at one row the last, and none at a session's own row
    /// where that leaves what the first one does. It takes no memory where there are no changes.
    pub fn finish(&mut self) -> Result<Outcome, NodeFault>
        ensures given { IfOk result (λ o. o.outputs.items ≡ self.old.outputs) }
        ensures once { IfOk result (λ o. AreOnce o.changes.items) }
        ensures settled { IfOk result (λ o. Settle own_kind o.changes.items self.old.changes) }
        ensures rest { self.new ≡ record self.old { outputs = []; changes = [] } }
        ensures none { self.old.changes ≡ [] → IfOk result (λ o. o.changes.items ≡ []) × IsOk result }
        ensures fault { IfErr result (λ e. e ≡ NoMemory) }
    {
        let alloc = self.alloc;
        let outputs = std::mem::replace(&mut self.outputs, Vec::new(alloc));
        let told = std::mem::replace(&mut self.changes, Vec::new(alloc));
        let changes = gather(alloc, told, SESSION)?;
        Ok(Outcome { outputs, changes })
    }

    /// Takes a moment, unless a later one was taken. It takes no memory.
    pub fn take_moment(&mut self, at: u64) -> Result<(), NodeFault>
        ensures comes { ComesTo (λ x. x) result self.old self.new (TakesMoment at) }
        ensures same { self.new.changes ≡ self.old.changes }
        ensures below { at < 2 ^ 62 → result ≡ Ok tt }
        ensures end { 2 ^ 62 ≤ at → result ≡ Err NumbersAtEnd }
    {
        if at >= NUMBERS_END {
            return Err(NodeFault::NumbersAtEnd);
        }
        self.held.take_moment(at);
        Ok(())
    }

    /// Begins the node's work.
    pub fn begin(&mut self) -> Result<(), NodeFault>
        ensures comes { ComesTo (λ x. x) result self.old self.new (Acting (λ p h. Began)) }
        ensures same { self.new.changes ≡ self.old.changes }
        ensures done { result ≡ Ok tt }
    {
        self.held.begin();
        Ok(())
    }

    /// Takes another table of homes, which is newer and for as many nodes. It takes no memory.
    pub fn move_to(&mut self, homes: HomeTable) -> Result<(), NodeFault>
        requires { MayMove self.old.place self.old.held homes }
        ensures comes { ComesTo (λ x. x) result self.old self.new (Acting (λ p h. Moved homes)) }
        ensures same { self.new.changes ≡ self.old.changes }
        ensures done { result ≡ Ok tt }
    {
        self.held.move_to(homes);
        Ok(())
    }

    /// Makes a Subscribe of the entry, which is made under the version of the table of homes, and takes it.
    pub fn subscribe(&mut self, entry: Entry) -> Result<(), NodeFault>
        requires { entry.version ≡ self.old.held.homes.version }
        ensures { ComesTo (λ x. x) result self.old self.new (MakesSubscribe entry) }
    {
        self.held
            .subscribe(self.alloc, self.id, entry, &mut self.changes)
    }

    /// Makes a Remove of what stands of the client and, where one is given, to the filter, and takes
    /// it; or makes none where nothing stands, and then takes no memory. Answers whether something
    /// stood.
    pub fn remove(&mut self, client: &Text, filter: Option<&Filter>) -> Result<bool, NodeFault>
        ensures comes { ComesTo (λ x. x) result self.old self.new (Removes client.now (option_copied filter.entry)) }
        ensures none { any_of client.now (option_copied filter.entry) self.old.held.store.subscriptions ≡ false → (result ≡ Ok false) × (self.new ≡ self.old) }
    {
        if !self.held.stands(client, filter) {
            return Ok(false);
        }
        self.held
            .remove(self.alloc, self.id, client, filter, &mut self.changes)?;
        Ok(true)
    }

    /// Makes a Remove of what stands of the client and was made under a version of the table of homes
    /// below this one, and takes it; or makes none where nothing does, and then takes no memory.
    /// Answers whether something did.
    pub fn remove_below(&mut self, client: &Text, version: u64) -> Result<bool, NodeFault>
        ensures comes { ComesTo (λ x. x) result self.old self.new (RemovesBelow client.now version) }
        ensures none { any_below client.now version self.old.held.store.subscriptions ≡ false → (result ≡ Ok false) × (self.new ≡ self.old) }
    {
        if !self.held.stands_below(client, version) {
            return Ok(false);
        }
        self.held
            .remove_below(self.alloc, self.id, client, version, &mut self.changes)?;
        Ok(true)
    }

    /// Makes a Put of the content, and takes it.
    pub fn put(&mut self, content: Content) -> Result<(), NodeFault>
        ensures { ComesTo (λ x. x) result self.old self.new (MakesPut content) }
    {
        self.held
            .put(self.alloc, self.id, content, &mut self.changes)
    }

    /// Merges a state, and keeps it for the other nodes.
    pub fn merge(&mut self, state: ReplicaStore) -> Result<(), NodeFault>
        ensures { ComesTo (λ x. x) result self.old self.new (Acting (λ p h. Store (Merged state))) }
    {
        self.held.merge(self.alloc, state, &mut self.changes)
    }

    /// Opens a connection that isn't open.
    pub fn open(&mut self, connection: u64) -> Result<(), NodeFault>
        ensures comes { ComesTo (λ x. x) result self.old self.new (OpensConnection connection) }
        ensures same { self.new.changes ≡ self.old.changes }
        ensures idle { is_open connection self.old.held ≡ true → (result ≡ Ok tt) × (self.new ≡ self.old) }
    {
        if self.held.is_open(connection) {
            return Ok(());
        }
        self.held.open(self.alloc, connection)
    }

    /// Takes in a piece of a connection's stream.
    pub fn feed(&mut self, connection: u64, piece: &[u8]) -> Result<Came, NodeFault>
        ensures idle { is_open connection self.old.held ≡ false → (result ≡ Ok Came.Nothing) × (self.new ≡ self.old) }
        ensures fed { IfOk result (λ came. (h : HeldView) × IsHeldFed self.old.held connection piece.now came h × (self.new ≡ record self.old { held = h })) }
        ensures spelled { IfOk result (λ came. CameSpelled came) }
        ensures fault { IfErr result (λ e. e ≡ NoMemory) }
    {
        self.held.feed(connection, piece)
    }

    /// Keeps how many bytes of PUBLISHes a connection takes that waits for its CONNECT. It takes no memory.
    pub fn keep_room(&mut self, connection: u64, bytes: u64) -> Result<(), NodeFault>
        requires { IsWaiting connection self.old.held }
        ensures comes { ComesTo (λ x. x) result self.old self.new (Acting (λ p h. Connection (Roomed connection bytes))) }
        ensures same { self.new.changes ≡ self.old.changes }
        ensures done { result ≡ Ok tt }
    {
        self.held.keep_room(connection, bytes);
        Ok(())
    }

    /// Gives an open connection its client.
    pub fn accept(&mut self, connection: u64, client: &Text) -> Result<(), NodeFault>
        ensures comes { ComesTo (λ x. x) result self.old self.new (Acting (λ p h. Connection (Accepted connection client.now))) }
        ensures same { self.new.changes ≡ self.old.changes }
    {
        self.held.accept(self.alloc, connection, client)
    }

    fn give(&mut self, output: Output) -> Result<(), NodeFault>
        ensures ok { OnOk result (self.new ≡ record self.old { outputs = self.old.outputs ++ output ∷ [] }) }
        ensures same { self.new.changes ≡ self.old.changes }
        ensures fault { IfErr result (λ e. e ≡ NoMemory) }
    {
        self.outputs.push(output)?;
        Ok(())
    }

    /// Takes a connection out. It takes no memory.
    pub fn close(&mut self, connection: u64) -> Result<(), NodeFault>
        ensures comes { ComesTo (λ x. x) result self.old self.new (Acting (λ p h. Connection (Closed connection))) }
        ensures same { self.new.changes ≡ self.old.changes }
        ensures done { result ≡ Ok tt }
    {
        self.held.close(connection);
        Ok(())
    }

    /// Tells a client that its connection is closed.
    pub fn tell_close(&mut self, connection: u64) -> Result<(), NodeFault>
        ensures comes { ComesTo (λ x. x) result self.old self.new (Acting (λ p h. Out (Output.Close connection))) }
        ensures same { self.new.changes ≡ self.old.changes }
    {
        self.give(Output::Close { connection })
    }

    /// Sends a packet to a connection, unless it is longer than its client takes.
    pub fn send(&mut self, connection: u64, packet: &Packet, limit: u64) -> Result<(), NodeFault>
        requires { HasSpelling packet.now }
        ensures comes { ComesTo (λ x. x) result self.old self.new (If (fits limit packet.now) (Sends connection packet.now) (Returns tt)) }
        ensures same { self.new.changes ≡ self.old.changes }
    {
        let bytes = written(self.alloc, packet)?;
        if bytes.len() as u64 > limit {
            return Ok(());
        }
        let bytes = Bytes::new(bytes);
        self.give(Output::Send { connection, bytes })
    }

    /// Sends the server's DISCONNECT to a connection of the client, unless it is longer than the client takes.
    pub fn disconnect(
        &mut self,
        connection: u64,
        client: &Text,
        reason: u8,
    ) -> Result<(), NodeFault>
        ensures comes { ComesTo (λ x. x) result self.old self.new (Disconnects connection client.now reason) }
        ensures same { self.new.changes ≡ self.old.changes }
    {
        let Some(limit) = self.held.sessions().limit(client) else {
            return Ok(());
        };
        let packet = disconnect(self.alloc, reason);
        self.send(connection, &packet, limit)
    }

    /// Sends the server's DISCONNECT with Server moved and the address of another server to a connection of the client, unless it is
    /// longer than the client takes.
    pub fn redirect(
        &mut self,
        connection: u64,
        client: &Text,
        address: Text,
    ) -> Result<(), NodeFault>
        ensures comes { ComesTo (λ x. x) result self.old self.new (Redirects connection client.now address) }
        ensures same { self.new.changes ≡ self.old.changes }
    {
        let Some(limit) = self.held.sessions().limit(client) else {
            return Ok(());
        };
        let redirection = moved(self.alloc, address)?;
        self.send(connection, &redirection, limit)
    }

    /// Gives a client the number of its identifier.
    pub fn name(&mut self, number: u64) -> Result<(), NodeFault>
        requires later { self.old.held.named < number }
        requires below { number < 2 ^ 62 }
        ensures { ComesTo (λ x. x) result self.old self.new (Acting (λ p h. Named number)) }
    {
        let row = mark_row(self.alloc, self.id, number)?;
        self.changes.push(Change::Put(row))?;
        self.held.name(number);
        Ok(())
    }

    /// Begins to make the copies of a message, and to hand it to other nodes.
    pub fn pass(&mut self, lost: u64) -> Result<(), NodeFault>
        ensures comes { (m : Message) (copies : List Copy) (routes : List (ℕ × Route)) → IsPassed self.old.place self.old.held m copies lost routes
            → ComesTo (λ x. x) result self.old self.new (Numbered turn_at_end (λ p h. Passed m copies lost routes)) }
        ensures same { self.new.changes ≡ self.old.changes }
        ensures fault { IfErr result (λ e. e ≡ NumbersAtEnd) }
    {
        if self.held.turn() >= NUMBERS_END {
            return Err(NodeFault::NumbersAtEnd);
        }
        self.held.pass(lost);
        Ok(())
    }

    /// Begins to offer the retained messages that answer a SUBSCRIBE.
    pub fn acknowledge(&mut self) -> Result<(), NodeFault>
        ensures comes { (client : List ℕ) (packet : ℕ) (grants : List Granted) (offers : List Delivery) → AreAnswers self.old.held self.old.held.at grants offers
            → ComesTo (λ x. x) result self.old self.new (Acting (λ p h. Acknowledged client packet h.at grants offers)) }
        ensures same { self.new.changes ≡ self.old.changes }
        ensures done { result ≡ Ok tt }
    {
        Ok(())
    }

    /// Drops a retained message for want of room.
    pub fn drop_retained(&mut self) -> Result<(), NodeFault>
        ensures comes { ComesTo (λ x. x) result self.old self.new (Acting (λ p h. Dropped)) }
        ensures same { self.new.changes ≡ self.old.changes }
        ensures done { result ≡ Ok tt }
    {
        self.held.drop_retained();
        Ok(())
    }

    /// Gives a client a session, where it has none.
    pub fn begin_session(&mut self, client: &Text) -> Result<(), NodeFault>
        requires { has_session client.now self.old.held ≡ false }
        ensures { ComesTo (λ x. x) result self.old self.new (Acting (λ p h. Session (Begun client.now))) }
    {
        let client = client.copy(self.alloc)?;
        self.held.begin_session(client, &mut self.changes)
    }

    /// Takes a client's session out.
    pub fn end_session(&mut self, client: &Text) -> Result<(), NodeFault>
        ensures { ComesTo (λ x. x) result self.old self.new (Acting (λ p h. Session (Over client.now))) }
    {
        self.held.end_session(client, &mut self.changes)
    }

    /// Sends what a session gives to the connection that its client is on, and counts a copy that it left out.
    fn react(
        &mut self,
        called: Result<Option<Addressed>, SessionFault>,
    ) -> Result<Reaction, NodeFault>
        requires { IfOk (reaction_of called) (IsSpelledIf self.old.held.at) }
        ensures { Reacted (connection_of called) (reaction_of called) result self.old self.new }
    {
        let found = called?;
        let Some(Addressed { reaction, to }) = found else {
            return Ok(nothing(self.alloc));
        };
        self.held.count_full(reaction.full);
        self.send_reaction(to, &reaction)?;
        Ok(reaction)
    }

    /// Sends what a reaction has for the connection that its client is on.
    fn send_reaction(&mut self, on: Option<u64>, reaction: &Reaction) -> Result<(), NodeFault>
        requires { AreSpelled self.old.held.at reaction.now.packets }
        ensures ok { OnOk result (self.new ≡ record self.old { outputs = self.old.outputs ++ outputs_on on self.old.held.at reaction.now }) }
        ensures fault { IfErr result (λ e. e ≡ NoMemory) }
    {
        let Some(connection) = on else {
            return Ok(());
        };
        self.send_each(connection, &reaction.packets)?;
        self.send_last(connection, reaction.end)
    }

    /// Sends the packets of a reaction.
    fn send_each(&mut self, connection: u64, packets: &[SessionOutput]) -> Result<(), NodeFault>
        requires { AreSpelled self.old.held.at packets.now }
        ensures ok { OnOk result (self.new ≡ record self.old { outputs = self.old.outputs ++ map (packet_output connection self.old.held.at) packets.now }) }
        ensures fault { IfErr result (λ e. e ≡ NoMemory) }
    {
        for packet in packets {
            self.send_one(connection, packet)?;
        }
        Ok(())
    }

    fn send_one(&mut self, connection: u64, packet: &SessionOutput) -> Result<(), NodeFault>
        requires { HasSpelling (packet_of self.old.held.at packet.now) }
        ensures ok { OnOk result (self.new ≡ record self.old { outputs = self.old.outputs ++ packet_output connection self.old.held.at packet.now ∷ [] }) }
        ensures fault { IfErr result (λ e. e ≡ NoMemory) }
    {
        match packet {
            SessionOutput::Answer(answer) => self.put_out(connection, answer),
            SessionOutput::Publish(publication) => self.publish(connection, publication),
        }
    }

    /// Sends a PUBLISH of a session.
    fn publish(&mut self, connection: u64, publication: &Publication) -> Result<(), NodeFault>
        requires { HasSpelling (packet_of self.old.held.at (SessionOutput.Publish publication.now)) }
        ensures ok { OnOk result (self.new ≡ record self.old { outputs = self.old.outputs ++ packet_output connection self.old.held.at (SessionOutput.Publish publication.now) ∷ [] }) }
        ensures fault { IfErr result (λ e. e ≡ NoMemory) }
    {
        let at = self.held.at();
        let bytes = publication
            .delivery
            .publish_bytes(self.alloc, at, publication.dup, publication.id)?;
        let bytes = Bytes::new(bytes);
        self.give(Output::Send { connection, bytes })
    }

    /// Sends a packet to a connection.
    pub fn put_out(&mut self, connection: u64, packet: &Packet) -> Result<(), NodeFault>
        requires { HasSpelling packet.now }
        ensures ok { OnOk result (self.new ≡ record self.old { outputs = self.old.outputs ++ Output.Send connection (written packet.now) ∷ [] }) }
        ensures fault { IfErr result (λ e. e ≡ NoMemory) }
        ensures comes { ComesTo (λ x. x) result self.old self.new (Sends connection packet.now) }
    {
        let bytes = Bytes::new(written(self.alloc, packet)?);
        self.give(Output::Send { connection, bytes })
    }

    /// Sends the DISCONNECT with which a connection ends, where its code isn't 0.
    fn send_last(&mut self, connection: u64, end: Option<u8>) -> Result<(), NodeFault>
        ensures ok { OnOk result (self.new ≡ record self.old { outputs = self.old.outputs ++ end_outputs connection end }) }
        ensures fault { IfErr result (λ e. e ≡ NoMemory) }
    {
        let Some(code) = end else {
            return Ok(());
        };
        if code == 0 {
            return Ok(());
        }
        let packet = disconnect(self.alloc, code);
        self.put_out(connection, &packet)
    }

    /// The beginning of a connection of a client's session, which takes so many bytes of PUBLISHes, where that is counted.
    pub fn connect(
        &mut self,
        client: &Text,
        connection: u64,
        connect: &Connect,
        continued: bool,
        room: Option<u64>,
    ) -> Result<Reaction, NodeFault>
        requires continued { MayConnectHere client.now continued self.old.held.sessions }
        requires will { IsPublishableIf connect.now.will }
        ensures { ComesTo (λ x. x) result self.old self.new (Calls client.now (connects connect.now continued room) (moves connection)) }
    {
        let called = self.held.connect(
            client,
            connection,
            connect,
            continued,
            room,
            &mut self.changes,
        );
        self.react(called)
    }

    /// A copy of a message for a client.
    pub fn queue(&mut self, client: &Text, delivery: Delivery) -> Result<Reaction, NodeFault>
        ensures { ComesTo (λ x. x) result self.old self.new (Calls client.now (queues delivery) stays) }
    {
        let called = self.held.queue(client, delivery, &mut self.changes);
        self.react(called)
    }

    /// A client's connection takes so many bytes of PUBLISHes from now on.
    pub fn make_room(&mut self, client: &Text, bytes: u64) -> Result<Reaction, NodeFault>
        ensures { ComesTo (λ x. x) result self.old self.new (Calls client.now (rooms bytes) stays) }
    {
        let called = self.held.make_room(client, bytes, &mut self.changes);
        self.react(called)
    }

    /// A packet of a client.
    pub fn packet(
        &mut self,
        client: &Text,
        packet: &Packet,
        room: bool,
    ) -> Result<Reaction, NodeFault>
        requires { HasSpelling packet.now }
        ensures { ComesTo (λ x. x) result self.old self.new (Calls client.now (λ at. takes packet.now at room) stays) }
    {
        let called = self.held.packet(client, packet, room, &mut self.changes);
        self.react(called)
    }

    /// The codes of the SUBSCRIBE or UNSUBSCRIBE that a client's session asked for.
    pub fn answer(
        &mut self,
        client: &Text,
        identifier: u16,
        codes: &[u8],
    ) -> Result<Reaction, NodeFault>
        requires { MayAnswer identifier codes.now }
        ensures { ComesTo (λ x. x) result self.old self.new (Calls client.now (λ at. answers identifier codes.now) stays) }
    {
        let called = self
            .held
            .answer(client, identifier, codes, &mut self.changes);
        self.react(called)
    }

    /// The connection of a client's session is gone.
    pub fn part(&mut self, client: &Text) -> Result<Reaction, NodeFault>
        ensures { ComesTo (λ x. x) result self.old self.new (Calls client.now closes leaves) }
    {
        let called = self.held.part(client, &mut self.changes);
        self.react(called)
    }

    /// One thing of a client's session that is due.
    pub fn tick(&mut self, client: &Text) -> Result<Reaction, NodeFault>
        ensures { ComesTo (λ x. x) result self.old self.new (Calls client.now ticks stays) }
    {
        let called = self.held.tick(client, &mut self.changes);
        self.react(called)
    }

    /// A client's session ends now.
    pub fn finish_session(&mut self, client: &Text) -> Result<Reaction, NodeFault>
        ensures { ComesTo (λ x. x) result self.old self.new (Calls client.now finishes stays) }
    {
        let called = self.held.finish(client, &mut self.changes);
        self.react(called)
    }
}
