//! A client's packets, one after another, and what is done for them.

ghost use Rattle.std.specs.Prelude.{◌≡◌, IfOk, OnOk};
ghost use Rattle.mqtt_packets.specs.Stream.{packet_at};
ghost use Rattle.door_packets.specs.Marks.{is_marked};
ghost use Rattle.mqtt_packets.specs.declared.packet.Packet.TheVariants as packets;
ghost use Rattle.door_packets.specs.Packets.{cleaned};
ghost use Rattle.door_packets.specs.Walk.{begun, connect_step, entered, entered_as, entered_by, let_in, next, next_by, published, seen, stage_by, started, subscribed, told_first, took, with_step};

use crate::client::{Client, Stage};
use crate::entry::{connect_code, login_of};
use crate::marks::Marks;
use crate::publish::{is_allowed, publish_step};
use crate::publish_view::{PublishView, publish_in};
use crate::step::Step;
use crate::subscribe::subscribe_step;
use crate::{Access, Login, front_packet};
use mqtt_fields::NoMemory;
use mqtt_packets::{Bytes, Connect, Packet, Publish, Subscribe};
use std::alloc::Global;

/// What is known of a client, and what is done for its packets so far.
#[derive(Drop)]
pub struct Walk {
    pub client: Client,
    pub steps: Vec<Step>,
}

/// The same CONNECT with Clean Start.
fn cleaned(connect: Connect) -> Packet
    ensures { result ≡ packets.Connect (cleaned connect) }
{
    Packet::Connect(Connect {
        clean_start: true,
        keep_alive: connect.keep_alive,
        properties: connect.properties,
        client: connect.client,
        will: connect.will,
        user_name: connect.user_name,
        password: connect.password,
    })
}

/// What the handler inside is told of a CONNECT that is let in, whose bytes these are.
fn connect_step(
    alloc: Global,
    marks: &Marks,
    bytes: &[u8],
    connect: Connect,
) -> Result<Step, NoMemory>
    ensures { IfOk result (λ step. step ≡ connect_step (is_marked marks.now) bytes.now connect) }
{
    if marks.contains(&connect.client) {
        Ok(Step::Asks(cleaned(connect), None))
    } else {
        Ok(Step::Tells(Bytes::from_slice(alloc, bytes)?))
    }
}

/// How far a client has come where this is done.
fn stage_by(step: &Step, stage: Stage) -> Stage
    ensures { result ≡ stage_by step.now stage }
{
    match step {
        Step::Ends => Stage::Over,
        Step::Opens => stage,
        Step::Rooms(_) => stage,
        Step::Tells(_) => stage,
        Step::Asks(_, _) => stage,
        Step::Acks(_) => stage,
        Step::Subacks(_, _) => stage,
        Step::Drops => stage,
        Step::TurnsAway(_) => stage,
    }
}

impl Walk {
    /// Nothing is done yet.
    pub fn new(alloc: Global, client: Client) -> Walk
        ensures { seen result ≡ started client }
    {
        Walk {
            client,
            steps: Vec::new(alloc),
        }
    }

    /// Then this is done.
    fn push(&mut self, step: Step) -> Result<(), NoMemory>
        ensures { OnOk result (seen self.new ≡ with_step (seen self.old) step) }
    {
        self.steps.push(step)?;
        Ok(())
    }

    /// The handler inside is told that the connection is open, and how much room it has.
    fn begin(&mut self, room: Option<u64>) -> Result<(), NoMemory>
        ensures { OnOk result (seen self.new ≡ begun (seen self.old) room) }
    {
        self.push(Step::Opens)?;
        match room {
            None => Ok(()),
            Some(bytes) => self.push(Step::Rooms(bytes)),
        }
    }

    /// The first packet is no CONNECT: the handler inside is told of it, and of nothing else.
    pub fn tell_first(
        &mut self,
        alloc: Global,
        room: Option<u64>,
        bytes: &[u8],
    ) -> Result<(), NoMemory>
        ensures { OnOk result (seen self.new ≡ told_first (seen self.old) room bytes.now) }
    {
        self.begin(room)?;
        self.client.stage = Stage::Over;
        self.push(Step::Tells(Bytes::from_slice(alloc, bytes)?))
    }

    /// The client is let in, and this is done.
    fn let_in(&mut self, room: Option<u64>, login: Login, step: Step) -> Result<(), NoMemory>
        ensures { OnOk result (seen self.new ≡ let_in (seen self.old) room login step) }
    {
        self.begin(room)?;
        self.client.stage = Stage::Open;
        self.client.login = Some(login);
        self.push(step)
    }

    /// The first packet is this CONNECT, whose bytes these are.
    fn enter_as<A: Access>(
        &mut self,
        alloc: Global,
        access: &A,
        marks: &Marks,
        room: Option<u64>,
        bytes: &[u8],
        connect: Connect,
    ) -> Result<(), NoMemory>
        ensures { OnOk result (seen self.new ≡ entered_as (A.rights access.now) (is_marked marks.now) (seen self.old) room bytes.now connect) }
    {
        let login = login_of(alloc, &connect)?;
        if let Some(code) = connect_code(alloc, access, &login, &connect)? {
            self.client.stage = Stage::Over;
            return self.push(Step::TurnsAway(code));
        }
        let step = connect_step(alloc, marks, bytes, connect)?;
        self.let_in(room, login, step)
    }

    /// The first packet is this, whose bytes these are.
    fn enter_by<A: Access>(
        &mut self,
        alloc: Global,
        access: &A,
        marks: &Marks,
        room: Option<u64>,
        bytes: &[u8],
        packet: Packet,
    ) -> Result<(), NoMemory>
        ensures { OnOk result (seen self.new ≡ entered_by (A.rights access.now) (is_marked marks.now) (seen self.old) room bytes.now packet) }
    {
        match packet {
            Packet::Connect(connect) => self.enter_as(alloc, access, marks, room, bytes, connect),
            _ => self.tell_first(alloc, room, bytes),
        }
    }

    /// Takes the first packet.
    #[tactic(auto, using(crate::proofs::PacketFronts::entered_some, crate::proofs::PacketFronts::entered_none))]
    fn enter<A: Access>(
        &mut self,
        alloc: Global,
        access: &A,
        marks: &Marks,
        room: Option<u64>,
        bytes: &[u8],
    ) -> Result<(), NoMemory>
        ensures { OnOk result (seen self.new ≡ entered (A.rights access.now) (is_marked marks.now) (seen self.old) room bytes.now (packet_at bytes.now)) }
    {
        match front_packet(alloc, bytes)? {
            Some((packet, _)) => self.enter_by(alloc, access, marks, room, bytes, packet),
            None => self.tell_first(alloc, room, bytes),
        }
    }

    /// Takes a PUBLISH, whose bytes these are.
    fn publish<A: Access>(
        &mut self,
        alloc: Global,
        access: &A,
        bytes: &[u8],
        publish: &PublishView<'_>,
    ) -> Result<(), NoMemory>
        ensures { OnOk result (seen self.new ≡ published (A.rights access.now) (seen self.old) bytes.now publish.now) }
    {
        let Some(login) = &self.client.login else {
            return Ok(());
        };
        let allowed = is_allowed(access, login, &self.client.aliases, publish);
        let step = publish_step(alloc, allowed, bytes, publish)?;
        self.client.aliases.note(allowed, publish)?;
        self.client.stage = stage_by(&step, self.client.stage);
        self.push(step)
    }

    /// Takes a PUBLISH that was read, whose bytes these are.
    fn publish_read<A: Access>(
        &mut self,
        alloc: Global,
        access: &A,
        bytes: &[u8],
        publish: Publish,
    ) -> Result<(), NoMemory>
        ensures { OnOk result (seen self.new ≡ published (A.rights access.now) (seen self.old) bytes.now publish) }
    {
        let Publish {
            dup,
            qos,
            retain,
            topic,
            identifier,
            properties,
            payload,
        } = publish;
        let view = PublishView {
            dup,
            qos,
            retain,
            topic: topic.as_str(),
            identifier,
            properties,
            payload: payload.as_slice(),
        };
        self.publish(alloc, access, bytes, &view)
    }

    /// Takes a SUBSCRIBE, whose bytes these are.
    fn subscribe<A: Access>(
        &mut self,
        alloc: Global,
        access: &A,
        bytes: &[u8],
        subscribe: Subscribe,
    ) -> Result<(), NoMemory>
        ensures { OnOk result (seen self.new ≡ subscribed (A.rights access.now) (seen self.old) bytes.now subscribe) }
    {
        let Some(login) = &self.client.login else {
            return Ok(());
        };
        let step = subscribe_step(alloc, access, login, bytes, subscribe)?;
        self.push(step)
    }

    /// Takes this packet of a client that was let in, whose bytes these are.
    fn next_by<A: Access>(
        &mut self,
        alloc: Global,
        access: &A,
        bytes: &[u8],
        packet: Packet,
    ) -> Result<(), NoMemory>
        ensures { OnOk result (seen self.new ≡ next_by (A.rights access.now) (seen self.old) bytes.now packet) }
    {
        match packet {
            Packet::Publish(publish) => self.publish_read(alloc, access, bytes, publish),
            Packet::Subscribe(subscribe) => self.subscribe(alloc, access, bytes, subscribe),
            _ => self.push(Step::Tells(Bytes::from_slice(alloc, bytes)?)),
        }
    }

    /// Takes a packet of a client that was let in. One that can't be read is told as it came.
    #[tactic(auto, using(crate::proofs::PacketFronts::next_publish, crate::proofs::PacketFronts::next_some, crate::proofs::PacketFronts::next_none))]
    fn take_next<A: Access>(
        &mut self,
        alloc: Global,
        access: &A,
        bytes: &[u8],
    ) -> Result<(), NoMemory>
        ensures { OnOk result (seen self.new ≡ next (A.rights access.now) (seen self.old) bytes.now (packet_at bytes.now)) }
    {
        if let Some(view) = publish_in(alloc, bytes) {
            return self.publish(alloc, access, bytes, &view);
        }
        match front_packet(alloc, bytes)? {
            Some((packet, _)) => self.next_by(alloc, access, bytes, packet),
            None => self.push(Step::Tells(Bytes::from_slice(alloc, bytes)?)),
        }
    }

    /// Takes a packet, whose bytes these are.
    pub fn take<A: Access>(
        &mut self,
        alloc: Global,
        access: &A,
        marks: &Marks,
        bytes: &[u8],
    ) -> Result<(), NoMemory>
        ensures { OnOk result (seen self.new ≡ took (A.rights access.now) (is_marked marks.now) (seen self.old) bytes.now) }
    {
        match self.client.stage {
            Stage::Waiting(room) => self.enter(alloc, access, marks, room, bytes),
            Stage::Open => self.take_next(alloc, access, bytes),
            Stage::Over | Stage::Leaving => Ok(()),
        }
    }
}
