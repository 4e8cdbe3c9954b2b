//! Messages that a client publishes (MQTT 5.0, 3.3, 3.6, 4.3.2 and 4.3.3).

ghost use Rattle.std.specs.Prelude.{◌≡◌, ◌<◌, ◌≤◌, ◌^◌, IfOk, IfErr, IfSome, MatchOption, None, OnErr, OnOk, false, is_some, true};
ghost use Rattle.std.specs.List.{list_any};
ghost use Rattle.std.specs.Option.{option_copied};
ghost use Rattle.mqtt_packets.specs.declared.packet.Packet.TheVariants as packets;
ghost use Rattle.mqtt_packets.specs.Written.{HasSpelling};
ghost use Rattle.mqtt_topics.specs.Levels.{is_wildcard};
ghost use Rattle.mqtt_message.specs.Accepted.{IsAcceptable};
ghost use Rattle.mqtt_sessions.specs.Aliases.{filled, topic_of};
ghost use Rattle.mqtt_sessions.specs.Arriving as arriving;
ghost use Rattle.mqtt_sessions.specs.Called.{IsFault};
ghost use Rattle.mqtt_sessions.specs.Packets.{SetsAlias, WantsFor};
ghost use Rattle.mqtt_sessions.specs.Reaction.{Comes, gives_out};
ghost use Rattle.mqtt_sessions.specs.declared.fault.SessionFault.TheVariants.{NoMemory as OutOfMemory};
ghost use Rattle.mqtt_sessions.specs.State.{aliases_of, watched};

use crate::aliases::is_beyond;
use crate::answers::{puback, pubcomp, pubrec};
use crate::fault::SessionFault;
use crate::link::{Connection, alias_topic, set_alias};
use crate::reaction::{Ask, Reaction, asks};
use crate::running::Running;
use mqtt_fields::identifier::{SUBSCRIPTION_IDENTIFIER, TOPIC_ALIAS};
use mqtt_fields::{NoMemory, Properties, Qos, Text};
use mqtt_message::{Message, spelled_is_acceptable};
use mqtt_packets::{Publish, reason};
use mqtt_topics::TopicName;
use qos_handshakes::{Ack, In, Incoming};

fn has(properties: &Properties, id: u8) -> bool
    ensures { result ≡ arriving.has_property id properties.now }
{
    properties.as_slice().iter().any(|p| p.id == id)
}

fn has_wildcard(topic: &Text) -> bool
    ensures { result ≡ list_any is_wildcard topic.now }
{
    topic
        .as_str()
        .as_bytes()
        .iter()
        .any(|b| *b == b'#' || *b == b'+')
}

/// Whether a PUBLISH has a topic: its own, or the one that its alias stands for.
fn has_topic(connection: &Option<Connection>, publish: &Publish) -> bool
    ensures { result ≡ is_some (topic_of (aliases_of connection.now) publish.now) }
{
    if !publish.topic.as_str().is_empty() {
        return true;
    }
    alias_topic(connection, publish).is_some()
}

/// The topic that its alias stands for, where a PUBLISH has none of its own.
fn topic_beside<'a>(connection: &'a Option<Connection>, publish: &Publish) -> Option<&'a TopicName>
    ensures { MatchOption (option_copied result) (filled (aliases_of connection.now) publish.now ≡ publish.now)
        (λ topic. filled (aliases_of connection.now) publish.now ≡ record publish.now { topic = topic }) }
{
    if !publish.topic.as_str().is_empty() {
        return None;
    }
    alias_topic(connection, publish)
}

/// Why a PUBLISH ends its connection, whatever else it is.
fn refusal(connection: &Option<Connection>, publish: &Publish) -> Option<u8>
    ensures code { result ≡ arriving.refusal (aliases_of connection.now) publish.now }
    ensures told { IfSome result (λ code. 0 < code) }
{
    if is_beyond(publish.properties.two(TOPIC_ALIAS)) {
        return Some(reason::TOPIC_ALIAS_INVALID);
    }
    if !has_topic(connection, publish) {
        return Some(reason::PROTOCOL_ERROR);
    }
    if has(&publish.properties, SUBSCRIPTION_IDENTIFIER) {
        return Some(reason::PROTOCOL_ERROR);
    }
    if has_wildcard(&publish.topic) {
        return Some(reason::TOPIC_NAME_INVALID);
    }
    None
}

/// Whether no room is left for the topic of a retained message.
fn is_unwelcome(publish: &Publish, room: bool) -> bool
    ensures { result ≡ arriving.is_unwelcome publish.now room }
{
    publish.retain && !room
}

/// A message can be made of a PUBLISH that isn't refused. This does nothing; its contract is a law.
fn is_acceptable(connection: &Option<Connection>, publish: &Publish)
    requires spelled { HasSpelling (packets.Publish publish.now) }
    requires taken { arriving.refusal (aliases_of connection.now) publish.now ≡ None }
    ensures { IsAcceptable (filled (aliases_of connection.now) publish.now) }
{
    spelled_is_acceptable();
    let _own = publish.topic.as_str();
    match alias_topic(connection, publish) {
        Some(topic) => {
            let _name = topic.as_str();
        }
        None => {}
    }
}

/// What a PUBLISH at QoS 1 is.
fn arrive_once(incoming: &Incoming, id: u16) -> In
    ensures { result ≡ arriving.arrival_once incoming.now id }
{
    incoming.publish1(id)
}

/// What a PUBLISH at QoS 2 is. It opens an exchange where it is new, but for an unwelcome one.
fn arrive_twice(incoming: &mut Incoming, id: u16, unwelcome: bool) -> Result<In, NoMemory>
    ensures answer { IfOk result (λ answer. answer ≡ arriving.arrival_twice incoming.old id) }
    ensures left { IfOk result (λ answer. incoming.new ≡ arriving.after_twice answer unwelcome id incoming.old) }
    ensures new { OnErr result ((arriving.arrival_twice incoming.old id ≡ In.New) × (unwelcome ≡ false)) }
{
    if unwelcome && matches!(incoming.publish1(id), In::New) {
        return Ok(In::New);
    }
    incoming.publish2(id)
}

/// Ends an exchange, and says so.
fn release(incoming: &mut Incoming, id: u16) -> u8
    ensures code { result ≡ arriving.release_code incoming.old id }
    ensures left { incoming.new ≡ arriving.after_release incoming.old id }
{
    match incoming.release(id) {
        Ack::Done => reason::SUCCESS,
        Ack::Unknown => reason::PACKET_IDENTIFIER_NOT_FOUND,
    }
}

impl Running {
    /// The message of a PUBLISH, to be passed on.
    fn pass(&self, publish: &Publish, now: u64) -> Result<Option<Ask>, NoMemory>
        requires acceptable { IsAcceptable (filled (aliases_of self.now.state.link) publish.now) }
        requires moment { now < 2 ^ 62 }
        ensures { IfOk result (λ ask. ask ≡ Some (Ask.Pass (arriving.message_in publish.now now self.now.state))) }
    {
        let client = self.kept.client();
        let message = match topic_beside(&self.connection, publish) {
            Some(topic) => Message::accept_under(self.alloc, publish, topic, client, now)?,
            None => Message::accept(self.alloc, publish, client, now)?,
        };
        Ok(Some(Ask::Pass(message)))
    }

    /// A PUBLISH at QoS 0.
    fn publish_at_most_once(
        &mut self,
        publish: &Publish,
        unwelcome: bool,
        now: u64,
    ) -> Result<Reaction, SessionFault>
        requires acceptable { IsAcceptable (filled (aliases_of self.old.state.link) publish.now) }
        requires moment { now < 2 ^ 62 }
        ensures step { IfOk result (λ r. Comes (arriving.passes_at_most_once unwelcome (arriving.message_in publish.now now self.old.state) self.old.state) r self.new.state) }
        ensures fault { IfErr result (λ e. e ≡ OutOfMemory) }
        ensures want { OnErr result (gives_out (arriving.passes_at_most_once unwelcome (arriving.message_in publish.now now self.old.state) self.old.state).reaction ≡ true) }
        ensures outgoing { watched self.new ≡ watched self.old }
    {
        if unwelcome {
            return Ok(asks(self.alloc, None, false));
        }
        let ask = self.pass(publish, now)?;
        Ok(asks(self.alloc, ask, false))
    }

    /// Answers a PUBLISH at QoS 1.
    fn answer_once(
        &mut self,
        arrival: In,
        publish: &Publish,
        unwelcome: bool,
        limit: u64,
        now: u64,
    ) -> Result<Reaction, SessionFault>
        requires acceptable { IsAcceptable (filled (aliases_of self.old.state.link) publish.now) }
        requires moment { now < 2 ^ 62 }
        requires limit { limit ≤ 268435460 }
        ensures step { IfOk result (λ r. Comes (arriving.once_by arrival unwelcome limit publish.now.identifier (arriving.message_in publish.now now self.old.state) self.old.state) r self.new.state) }
        ensures fault { IfErr result (λ e. e ≡ OutOfMemory) }
        ensures want { OnErr result (gives_out (arriving.once_by arrival unwelcome limit publish.now.identifier (arriving.message_in publish.now now self.old.state) self.old.state).reaction ≡ true) }
        ensures outgoing { watched self.new ≡ watched self.old }
    {
        let id = publish.identifier;
        match arrival {
            In::OverMaximum => Ok(self.refused(limit, reason::RECEIVE_MAXIMUM_EXCEEDED)),
            In::InUse | In::Repeat => {
                let answer = puback(self.alloc, id, reason::PACKET_IDENTIFIER_IN_USE);
                self.answered(limit, answer, None)
            }
            In::New => {
                if unwelcome {
                    let answer = puback(self.alloc, id, reason::QUOTA_EXCEEDED);
                    return self.answered(limit, answer, None);
                }
                let ask = self.pass(publish, now)?;
                self.answered(limit, puback(self.alloc, id, reason::SUCCESS), ask)
            }
        }
    }

    /// A PUBLISH at QoS 1.
    fn publish_once(
        &mut self,
        publish: &Publish,
        unwelcome: bool,
        limit: u64,
        now: u64,
    ) -> Result<Reaction, SessionFault>
        requires acceptable { IsAcceptable (filled (aliases_of self.old.state.link) publish.now) }
        requires moment { now < 2 ^ 62 }
        requires limit { limit ≤ 268435460 }
        ensures step { IfOk result (λ r. Comes (arriving.once_by (arriving.arrival_once self.old.state.incoming publish.now.identifier) unwelcome limit publish.now.identifier (arriving.message_in publish.now now self.old.state) self.old.state) r self.new.state) }
        ensures fault { IfErr result (λ e. e ≡ OutOfMemory) }
        ensures want { OnErr result (gives_out (arriving.once_by (arriving.arrival_once self.old.state.incoming publish.now.identifier) unwelcome limit publish.now.identifier (arriving.message_in publish.now now self.old.state) self.old.state).reaction ≡ true) }
        ensures outgoing { watched self.new ≡ watched self.old }
    {
        let arrival = arrive_once(&self.incoming, publish.identifier);
        self.answer_once(arrival, publish, unwelcome, limit, now)
    }

    /// Answers a PUBLISH at QoS 2, whose exchange is opened.
    fn answer_twice(
        &mut self,
        arrival: In,
        publish: &Publish,
        unwelcome: bool,
        limit: u64,
        now: u64,
    ) -> Result<Reaction, SessionFault>
        requires acceptable { IsAcceptable (filled (aliases_of self.old.state.link) publish.now) }
        requires moment { now < 2 ^ 62 }
        requires limit { limit ≤ 268435460 }
        ensures step { IfOk result (λ r. Comes (arriving.twice_by arrival unwelcome limit publish.now.identifier (arriving.message_in publish.now now self.old.state) self.old.state) r self.new.state) }
        ensures fault { IfErr result (λ e. e ≡ OutOfMemory) }
        ensures want { OnErr result (gives_out (arriving.twice_by arrival unwelcome limit publish.now.identifier (arriving.message_in publish.now now self.old.state) self.old.state).reaction ≡ true) }
        ensures outgoing { watched self.new ≡ watched self.old }
    {
        let id = publish.identifier;
        match arrival {
            In::OverMaximum => Ok(self.refused(limit, reason::RECEIVE_MAXIMUM_EXCEEDED)),
            In::InUse | In::Repeat => {
                let answer = pubrec(self.alloc, id, reason::SUCCESS);
                self.answered(limit, answer, None)
            }
            In::New => {
                if unwelcome {
                    let answer = pubrec(self.alloc, id, reason::QUOTA_EXCEEDED);
                    return self.answered(limit, answer, None);
                }
                let ask = self.pass(publish, now)?;
                self.answered(limit, pubrec(self.alloc, id, reason::SUCCESS), ask)
            }
        }
    }

    /// A PUBLISH at QoS 2.
    fn publish_twice(
        &mut self,
        publish: &Publish,
        unwelcome: bool,
        limit: u64,
        now: u64,
    ) -> Result<Reaction, SessionFault>
        requires acceptable { IsAcceptable (filled (aliases_of self.old.state.link) publish.now) }
        requires moment { now < 2 ^ 62 }
        requires limit { limit ≤ 268435460 }
        ensures step { IfOk result (λ r. Comes (arriving.arrives_twice (arriving.arrival_twice self.old.state.incoming publish.now.identifier) unwelcome limit publish.now.identifier (arriving.message_in publish.now now self.old.state) self.old.state) r self.new.state) }
        ensures fault { IfErr result (λ e. e ≡ OutOfMemory) }
        ensures want { OnErr result (gives_out (arriving.arrives_twice (arriving.arrival_twice self.old.state.incoming publish.now.identifier) unwelcome limit publish.now.identifier (arriving.message_in publish.now now self.old.state) self.old.state).reaction ≡ true) }
        ensures outgoing { watched self.new ≡ watched self.old }
    {
        let arrival = arrive_twice(&mut self.incoming, publish.identifier, unwelcome)?;
        self.answer_twice(arrival, publish, unwelcome, limit, now)
    }

    /// A PUBLISH that isn't refused, before its alias is set.
    fn publish_by_level(
        &mut self,
        publish: &Publish,
        unwelcome: bool,
        limit: u64,
        now: u64,
    ) -> Result<Reaction, SessionFault>
        requires acceptable { IsAcceptable (filled (aliases_of self.old.state.link) publish.now) }
        requires moment { now < 2 ^ 62 }
        requires limit { limit ≤ 268435460 }
        ensures step { IfOk result (λ r. Comes (arriving.passes_by publish.now.qos publish.now unwelcome limit (arriving.message_in publish.now now self.old.state) self.old.state) r self.new.state) }
        ensures fault { IfErr result (λ e. e ≡ OutOfMemory) }
        ensures want { OnErr result (gives_out (arriving.passes_by publish.now.qos publish.now unwelcome limit (arriving.message_in publish.now now self.old.state) self.old.state).reaction ≡ true) }
        ensures outgoing { watched self.new ≡ watched self.old }
    {
        match publish.qos {
            Qos::AtMostOnce => self.publish_at_most_once(publish, unwelcome, now),
            Qos::AtLeastOnce => self.publish_once(publish, unwelcome, limit, now),
            Qos::ExactlyOnce => self.publish_twice(publish, unwelcome, limit, now),
        }
    }

    /// The alias of a PUBLISH stands for its topic from now on.
    fn set(&mut self, publish: &Publish) -> Result<(), NoMemory>
        ensures step { OnOk result (self.new.state ≡ arriving.setting publish.now self.old.state) }
        ensures want { OnErr result (SetsAlias publish.now self.old.state) }
        ensures outgoing { watched self.new ≡ watched self.old }
    {
        set_alias(self.alloc, &mut self.connection, publish)
    }

    /// A PUBLISH. `room` is whether a retained message would be taken.
    pub(crate) fn publish(
        &mut self,
        publish: &Publish,
        room: bool,
        limit: u64,
        now: u64,
    ) -> Result<Reaction, SessionFault>
        requires spelled { HasSpelling (packets.Publish publish.now) }
        requires moment { now < 2 ^ 62 }
        requires limit { limit ≤ 268435460 }
        ensures step { IfOk result (λ r. Comes (arriving.publish_outcome publish.now now room limit self.old.state) r self.new.state) }
        ensures fault { IfErr result (λ e. IsFault (WantsFor publish.now (arriving.publish_outcome publish.now now room limit self.old.state)) ⊥ e) }
        ensures outgoing { watched self.new ≡ watched self.old }
    {
        if let Some(code) = refusal(&self.connection, publish) {
            return Ok(self.refused(limit, code));
        }
        is_acceptable(&self.connection, publish);
        let unwelcome = is_unwelcome(publish, room);
        let reaction = self.publish_by_level(publish, unwelcome, limit, now)?;
        self.set(publish)?;
        Ok(reaction)
    }

    /// A PUBREL.
    pub(crate) fn pubrel(&mut self, id: u16, limit: u64) -> Result<Reaction, SessionFault>
        requires { limit ≤ 268435460 }
        ensures step { IfOk result (λ r. Comes (arriving.pubrel_outcome id limit self.old.state) r self.new.state) }
        ensures fault { IfErr result (λ e. IsFault (gives_out (arriving.pubrel_outcome id limit self.old.state).reaction ≡ true) ⊥ e) }
        ensures outgoing { watched self.new ≡ watched self.old }
    {
        let code = release(&mut self.incoming, id);
        self.answered(limit, pubcomp(self.alloc, id, code), None)
    }
}
