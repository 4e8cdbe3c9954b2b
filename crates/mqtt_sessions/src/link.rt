//! An open connection.

ghost use Rattle.std.specs.Prelude.{◌≡◌, ◌≢◌, ◌≤◌, [], IfSome, IsSome, OnErr, OnOk};
ghost use Rattle.std.specs.Option.{option_copied};
ghost use Rattle.mqtt_topics.specs.Topics.{IsName};
ghost use Rattle.mqtt_sessions.specs.Aliases.{alias_of, alias_topic, topic_for};
ghost use Rattle.mqtt_sessions.specs.Arriving.{setting_by};
ghost use Rattle.mqtt_sessions.specs.State as state;
ghost use Rattle.mqtt_sessions.specs.Ending.{has_run_out, in_time, runs_out_at};
ghost use Rattle.mqtt_sessions.specs.Asking.{asked_of, waiting_by};
ghost use Rattle.mqtt_sessions.specs.Connecting.{link_by};
ghost use Rattle.mqtt_sessions.specs.State.{limit_in};

use crate::aliases::Aliases;
use mqtt_fields::identifier::{MAXIMUM_PACKET_SIZE, TOPIC_ALIAS};
use mqtt_fields::{NoMemory, Properties};
use mqtt_packets::{Connect, Publish};
use mqtt_topics::TopicName;
use std::alloc::Global;
use std::marker::Model;

/// The length of the longest packet there is (MQTT 5.0, 2.1.4).
const LONGEST: u32 = 268_435_460;

/// Which answer the connection waits for.
#[derive(Clone, Copy, PartialEq, Eq)]
pub enum Asked {
    Subscribing,
    Unsubscribing,
}

/// What an open connection has.
#[derive(Drop)]
pub(crate) struct Connection {
    /// The moment of the last packet.
    last: u64,
    /// The longest packet that the client takes.
    limit: u32,
    /// In seconds.
    keep_alive: u16,
    asked: Option<Asked>,
    /// The topics that the client's aliases stand for.
    aliases: Aliases,
}

impl Model for Connection {
    ghost use Rattle.std.specs.Prelude.{◌≤◌};
    ghost use Rattle.mqtt_sessions.specs.State.{Link};

    ghost Value = { Link };

    ghost view = { λ c. record { limit = c.limit; keep_alive = c.keep_alive; last = c.last; asked = c.asked; aliases = c.aliases } };

    ghost invariant = { λ c. c.limit ≤ 268435460 };
}

/// The longest packet that a client with these properties in its CONNECT takes.
pub(crate) fn limit_in(properties: &Properties) -> u32
    ensures limit { result ≡ limit_in properties.now }
    ensures most { result ≤ 268435460 }
{
    match properties.four(MAXIMUM_PACKET_SIZE) {
        Some(size) => LONGEST.min(size),
        None => LONGEST,
    }
}

/// A connection that begins.
pub(crate) fn begin(alloc: Global, connect: &Connect, now: u64) -> Connection
    ensures { result ≡ link_by connect.now now }
{
    Connection {
        last: now,
        limit: limit_in(&connect.properties),
        keep_alive: connect.keep_alive,
        asked: None,
        aliases: Aliases::new(alloc),
    }
}

impl Connection {
    /// A packet came.
    fn heard(self, now: u64) -> Connection
        ensures { result ≡ record self { last = now } }
    {
        Connection {
            last: now,
            limit: self.limit,
            keep_alive: self.keep_alive,
            asked: self.asked,
            aliases: self.aliases,
        }
    }

    fn waiting(self, asked: Option<Asked>) -> Connection
        ensures { result ≡ record self { asked = asked } }
    {
        Connection {
            last: self.last,
            limit: self.limit,
            keep_alive: self.keep_alive,
            asked,
            aliases: self.aliases,
        }
    }

    fn limit(&self) -> u64
        ensures limit { result ≡ self.now.limit }
        ensures most { result ≤ 268435460 }
    {
        u64::from(self.limit)
    }
}

/// The longest packet that the client takes, where it is connected.
pub(crate) fn limit_of(connection: &Option<Connection>) -> Option<u64>
    ensures limit { result ≡ state.limit_of connection.now }
    ensures most { IfSome result (λ n. n ≤ 268435460) }
{
    match connection {
        Some(open) => Some(open.limit()),
        None => None,
    }
}

/// The connection once a packet came on it.
pub(crate) fn heard_by(connection: Option<Connection>, now: u64) -> Option<Connection>
    ensures { result ≡ state.heard_by connection now }
{
    match connection {
        Some(open) => Some(open.heard(now)),
        None => None,
    }
}

/// The connection where it waits for these codes.
pub(crate) fn waiting_by(connection: Option<Connection>, asked: Option<Asked>) -> Option<Connection>
    ensures { result ≡ waiting_by connection asked }
{
    match connection {
        Some(open) => Some(open.waiting(asked)),
        None => None,
    }
}

/// What the connection waits for.
pub(crate) fn asked_of(connection: &Option<Connection>) -> Option<Asked>
    ensures { result ≡ asked_of connection.now }
{
    match connection {
        Some(open) => open.asked,
        None => None,
    }
}

/// The topic that an alias stands for on the connection.
pub(crate) fn topic_for(connection: &Option<Connection>, alias: u16) -> Option<&TopicName>
    ensures { option_copied result ≡ topic_for alias (state.aliases_of connection.now) }
{
    match connection {
        Some(open) => open.aliases.topic(alias),
        None => None,
    }
}

/// The same as a text.
pub(crate) fn topic_text(connection: &Option<Connection>, alias: u16) -> Option<&str>
    ensures topic { option_copied result ≡ topic_for alias (state.aliases_of connection.now) }
    ensures name { IfSome result (λ topic. IsName topic.now) }
{
    match topic_for(connection, alias) {
        Some(topic) => Some(topic.as_str()),
        None => None,
    }
}

/// The topic that the alias of a PUBLISH stands for.
pub(crate) fn alias_topic<'a>(
    connection: &'a Option<Connection>,
    publish: &Publish,
) -> Option<&'a TopicName>
    ensures { option_copied result ≡ alias_topic (alias_of publish.now) (state.aliases_of connection.now) }
{
    match publish.properties.two(TOPIC_ALIAS) {
        Some(alias) => topic_for(connection, alias),
        None => None,
    }
}

/// The alias of a PUBLISH stands for its topic from now on.
pub(crate) fn set_alias(
    alloc: Global,
    connection: &mut Option<Connection>,
    publish: &Publish,
) -> Result<(), NoMemory>
    ensures set { OnOk result (connection.new ≡ setting_by connection.old publish.now) }
    ensures want { OnErr result ((publish.now.topic ≢ []) × IsSome (alias_of publish.now) × IsSome connection.old) }
{
    let Some(alias) = publish.properties.two(TOPIC_ALIAS) else {
        return Ok(());
    };
    if publish.topic.as_str().is_empty() {
        return Ok(());
    }
    let Some(open) = connection else {
        return Ok(());
    };
    let Ok(topic) = TopicName::of_text(alloc, &publish.topic) else {
        return Err(NoMemory);
    };
    open.aliases.set(alias, topic)
}

/// Whether no packet came for one and a half times the Keep Alive (MQTT 5.0, 3.1.2.10).
pub(crate) fn has_run_out(connection: &Option<Connection>, now: u64) -> bool
    ensures { result ≡ has_run_out connection.now now }
{
    match connection {
        Some(open) => {
            open.keep_alive > 0
                && now.saturating_sub(open.last) >= 1500 * u64::from(open.keep_alive)
        }
        None => false,
    }
}

/// The moment from which on the Keep Alive has run out, where that is below 2^64.
pub(crate) fn runs_out_at(connection: &Option<Connection>) -> Option<u64>
    ensures { result ≡ in_time (runs_out_at connection.now) }
{
    match connection {
        Some(open) => {
            if open.keep_alive == 0 {
                return None;
            }
            open.last.checked_add(1500 * u64::from(open.keep_alive))
        }
        None => None,
    }
}
