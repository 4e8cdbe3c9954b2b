//! CONNECT.

ghost use Rattle.std.specs.Prelude.{◌≡◌, ◌+◌, ◌++◌, ◌<◌, ◌^◌, length, is_some, option_map, IfOk, IfSome, OnOk, IsErrOf, IsOk, OnErr, vec_len, vec_capacity, ◌≤◌};
ghost use Rattle.std.specs.Int.{w16, to_be_bytes};
ghost use Rattle.mqtt_fields.specs.Field.{variant_bytes};
ghost use Rattle.mqtt_fields.specs.Numbers.{text};
ghost use Rattle.mqtt_fields.specs.Block.{properties};
ghost use Rattle.mqtt_packets.specs.Optional.{maybe};
ghost use Rattle.mqtt_packets.specs.Measure.{MeasuresField, Measures};
ghost use Rattle.mqtt_packets.specs.Reading.{Gives, field_at};
ghost use Rattle.mqtt_packets.specs.Connect.{will as will_field};
ghost use Rattle.mqtt_packets.specs.Connect.{will_flags, will_bits, flags_byte, flags_of, will_parts, tail_parts, tail, will_flags_at, flags_at, connect_flags, is_mqtt, will, will_at, login, connect_end, is_valid_will, is_valid_connect, connect};

use crate::fault::PacketFault;
use crate::field::{
    copy_blob_if, copy_text_if, put_blob_if, put_properties, put_text_if, take_blob, take_blob_if,
    take_properties, take_text, take_text_if, take_u8, take_u16,
};
use crate::head::{bit, level_of};
use crate::measure::{blob_len, blob_len_if, block_len, text_len, text_len_if, within};
use crate::values::are_valid;
use mqtt_fields::{Blob, NoMemory, Place, Properties, Qos, Text};
use std::alloc::Global;

/// A message that the server publishes when the connection is lost (MQTT 5.0, 3.1.2.5).
#[derive(Drop)]
pub struct Will {
    pub retain: bool,
    pub qos: Qos,
    pub properties: Properties,
    pub topic: Text,
    pub payload: Blob,
}

/// A client's first packet (MQTT 5.0, 3.1).
#[derive(Drop)]
pub struct Connect {
    pub clean_start: bool,
    /// In seconds; 0: none.
    pub keep_alive: u16,
    pub properties: Properties,
    pub client: Text,
    pub will: Option<Will>,
    pub user_name: Option<Text>,
    pub password: Option<Blob>,
}

#[derive(Clone, Copy, Debug, PartialEq, Eq)]
pub(crate) struct WillFlags {
    qos: Qos,
    retain: bool,
}

/// Connect Flags (MQTT 5.0, 3.1.2.3).
#[derive(Clone, Copy, Debug, PartialEq, Eq)]
pub(crate) struct ConnectFlags {
    clean_start: bool,
    will: Option<WillFlags>,
    user_name: bool,
    password: bool,
}

fn will_flags(byte: u8) -> Option<Option<WillFlags>>
    ensures { result ≡ will_flags_at byte }
{
    if byte / 4 % 2 == 1 {
        let qos = level_of(byte / 8 % 4)?;
        Some(Some(WillFlags {
            qos,
            retain: byte / 32 % 2 == 1,
        }))
    } else if byte / 8 % 4 == 0 && byte / 32 % 2 == 0 {
        Some(None)
    } else {
        None
    }
}

#[tactic(auto, using(crate::proofs::HeadLaws::qos_small))]
fn will_bits(will: Option<WillFlags>) -> u8
    ensures exact { result ≡ will_bits will }
    ensures small { result < 53 }
{
    match will {
        None => 0,
        Some(w) => 4 + 8 * w.qos.number() + 32 * bit(w.retain),
    }
}

impl ConnectFlags {
    /// The flag byte.
    fn byte(self) -> u8
        ensures { result ≡ flags_byte self }
    {
        2 * bit(self.clean_start)
            + will_bits(self.will)
            + 64 * bit(self.password)
            + 128 * bit(self.user_name)
    }

    fn of(byte: u8) -> Option<ConnectFlags>
        ensures { result ≡ flags_at byte }
    {
        if byte % 2 != 0 {
            return None;
        }
        let will = will_flags(byte)?;
        Some(ConnectFlags {
            clean_start: byte / 2 % 2 == 1,
            will,
            user_name: byte / 128 % 2 == 1,
            password: byte / 64 % 2 == 1,
        })
    }
}

#[tactic(auto, unfolding(crate::specs::Connect::connect_flags))]
fn take_flags(bytes: &[u8]) -> Result<(ConnectFlags, &[u8]), PacketFault>
    ensures exact { Gives (λ x. (x.0, x.1.now)) result (field_at connect_flags bytes.now) }
    ensures no_memory { IsErrOf result PacketFault.NoMemory → ⊥ }
{
    let (byte, rest) = take_u8(bytes)?;
    match ConnectFlags::of(byte) {
        None => Err(PacketFault::Malformed),
        Some(flags) => Ok((flags, rest)),
    }
}

#[tactic(auto, using(std::proofs::lemmas::Grind::common_steps))]
fn is_mqtt(name: &str, version: u8) -> bool
    ensures { result ≡ is_mqtt name.now version }
{
    name == "MQTT" && version == 5
}

#[tactic(auto, unfolding(crate::specs::Connect::will))]
fn take_will_parts(
    alloc: Global,
    bytes: &[u8],
) -> Result<((Properties, (Text, Blob)), &[u8]), PacketFault>
    ensures { Gives (λ x. ((x.0.0, (x.0.1.0, x.0.1.1)), x.1.now)) result (field_at will bytes.now) }
{
    let (properties, rest) = take_properties(alloc, Place::Will, bytes)?;
    let (topic, rest) = take_text(alloc, rest)?;
    let (payload, rest) = take_blob(alloc, rest)?;
    Ok(((properties, (topic, payload)), rest))
}

fn take_will(
    alloc: Global,
    flags: Option<WillFlags>,
    bytes: &[u8],
) -> Result<(Option<Will>, &[u8]), PacketFault>
    ensures { Gives (λ x. (x.0, x.1.now)) result (will_at flags bytes.now) }
{
    let Some(flags) = flags else {
        return Ok((None, bytes));
    };
    let ((properties, (topic, payload)), rest) = take_will_parts(alloc, bytes)?;
    let will = Will {
        retain: flags.retain,
        qos: flags.qos,
        properties,
        topic,
        payload,
    };
    Ok((Some(will), rest))
}

#[tactic(auto, unfolding(crate::specs::Connect::login))]
fn take_login(
    alloc: Global,
    flags: ConnectFlags,
    bytes: &[u8],
) -> Result<((Option<Text>, Option<Blob>), &[u8]), PacketFault>
    ensures { Gives (λ x. ((x.0.0, x.0.1), x.1.now)) result (field_at (login flags) bytes.now) }
{
    let (user_name, rest) = take_text_if(alloc, flags.user_name, bytes)?;
    let (password, rest) = take_blob_if(alloc, flags.password, rest)?;
    Ok(((user_name, password), rest))
}

#[tactic(auto, unfolding(crate::specs::Connect::tail))]
fn connect_from(
    alloc: Global,
    flags: ConnectFlags,
    keep_alive: u16,
    properties: Properties,
    bytes: &[u8],
) -> Result<Connect, PacketFault>
    ensures { Gives (λ x. x) result (connect_end flags keep_alive properties bytes.now) }
{
    let (client, rest) = take_text(alloc, bytes)?;
    let (will, rest) = take_will(alloc, flags.will, rest)?;
    let ((user_name, password), rest) = take_login(alloc, flags, rest)?;
    if !rest.is_empty() {
        return Err(PacketFault::Malformed);
    }
    Ok(Connect {
        clean_start: flags.clean_start,
        keep_alive,
        properties,
        client,
        will,
        user_name,
        password,
    })
}

fn is_valid_will(will: &Option<Will>) -> bool
    ensures { result ≡ is_valid_will will.now }
{
    match will {
        None => true,
        Some(w) => are_valid(w.properties.as_slice()),
    }
}

impl Will {
    fn flags(&self) -> WillFlags
        ensures { result ≡ will_flags self.now }
    {
        let Will { qos, retain, .. } = self;
        WillFlags {
            qos: *qos,
            retain: *retain,
        }
    }

    #[tactic(auto, unfolding(crate::specs::Connect::will))]
    fn write(&self, out: &mut Vec<u8>) -> Result<(), NoMemory>
        requires { will.Fits (will_parts self.now) }
        ensures ok { OnOk result (out.new.items ≡ out.old.items ++ will.bytes (will_parts self.now)) }
        ensures full { OnErr result (vec_capacity out.old < vec_len out.old + length (will.bytes (will_parts self.now))) }
        ensures capacity { vec_capacity out.old ≤ vec_capacity out.new }
    {
        put_properties(Place::Will, &self.properties, out)?;
        self.topic.write(out)?;
        self.payload.write(out)
    }

    #[tactic(auto, unfolding(crate::specs::Connect::will))]
    fn len(&self) -> Option<usize>
        ensures exact { MeasuresField will (will_parts self.now) result }
        ensures small { IfSome result (λ n. n < 2 ^ 29) }
    {
        let topic = text_len(&self.topic);
        let payload = blob_len(&self.payload);
        let n = block_len(Place::Will, &self.properties)?;
        Some(n + topic + payload)
    }

    /// A will equal to this one.
    pub fn copy(&self, alloc: Global) -> Result<Will, NoMemory>
        ensures { IfOk result (λ x. x ≡ self.now) }
    {
        Ok(Will {
            retain: self.retain,
            qos: self.qos,
            properties: self.properties.copy(alloc)?,
            topic: self.topic.copy(alloc)?,
            payload: self.payload.copy(alloc)?,
        })
    }
}

fn flags_of_will(will: &Option<Will>) -> Option<WillFlags>
    ensures { result ≡ option_map will_flags will.now }
{
    match will {
        None => None,
        Some(w) => Some(w.flags()),
    }
}

fn copy_will_if(alloc: Global, will: &Option<Will>) -> Result<Option<Will>, NoMemory>
    ensures { IfOk result (λ x. x ≡ will.now) }
{
    match will {
        None => Ok(None),
        Some(w) => Ok(Some(w.copy(alloc)?)),
    }
}

fn put_will_if(will: &Option<Will>, out: &mut Vec<u8>) -> Result<(), NoMemory>
    requires { (maybe (is_some will.now) will_field).Fits (option_map will_parts will.now) }
    ensures ok { OnOk result (out.new.items ≡ out.old.items ++ variant_bytes will_field (option_map will_parts will.now)) }
    ensures full { OnErr result (vec_capacity out.old < vec_len out.old + length (variant_bytes will_field (option_map will_parts will.now))) }
    ensures capacity { vec_capacity out.old ≤ vec_capacity out.new }
{
    match will {
        None => Ok(()),
        Some(w) => w.write(out),
    }
}

fn will_len_if(will: &Option<Will>) -> Option<usize>
    ensures exact { MeasuresField (maybe (is_some will.now) will_field) (option_map will_parts will.now) result }
    ensures small { IfSome result (λ n. n < 2 ^ 29) }
{
    match will {
        None => Some(0),
        Some(w) => w.len(),
    }
}

impl Connect {
    fn is_valid(&self) -> bool
        ensures { result ≡ is_valid_connect self.now }
    {
        are_valid(self.properties.as_slice()) && is_valid_will(&self.will)
    }

    #[tactic(auto, unfolding(crate::specs::Connect::connect))]
    pub(crate) fn of(alloc: Global, bytes: &[u8]) -> Result<Connect, PacketFault>
        ensures exact { Gives (λ x. x) result (connect.of bytes.now) }
        ensures no_memory { IsErrOf result PacketFault.NoMemory → IsOk (field_at text bytes.now) }
    {
        let (name, rest) = take_text(alloc, bytes)?;
        let (version, rest) = take_u8(rest)?;
        if !is_mqtt(name.as_str(), version) {
            return Err(PacketFault::WrongVersion);
        }
        let (flags, rest) = take_flags(rest)?;
        let (keep_alive, rest) = take_u16(rest)?;
        let (properties, rest) = take_properties(alloc, Place::Connect, rest)?;
        let connect = connect_from(alloc, flags, keep_alive, properties, rest)?;
        if !connect.is_valid() {
            return Err(PacketFault::ProtocolError);
        }
        Ok(connect)
    }

    fn flags(&self) -> ConnectFlags
        ensures { result ≡ flags_of self.now }
    {
        ConnectFlags {
            clean_start: self.clean_start,
            will: flags_of_will(&self.will),
            user_name: self.user_name.is_some(),
            password: self.password.is_some(),
        }
    }

    #[tactic(auto, unfolding(crate::specs::Connect::tail, crate::specs::Connect::login))]
    fn write_tail(&self, out: &mut Vec<u8>) -> Result<(), NoMemory>
        requires { (tail (flags_of self.now)).Fits (tail_parts self.now) }
        ensures ok { OnOk result (out.new.items ≡ out.old.items ++ (tail (flags_of self.now)).bytes (tail_parts self.now)) }
        ensures full { OnErr result (vec_capacity out.old < vec_len out.old + length ((tail (flags_of self.now)).bytes (tail_parts self.now))) }
        ensures capacity { vec_capacity out.old ≤ vec_capacity out.new }
    {
        self.client.write(out)?;
        put_will_if(&self.will, out)?;
        put_text_if(&self.user_name, out)?;
        put_blob_if(&self.password, out)
    }

    fn write_end(&self, out: &mut Vec<u8>) -> Result<(), NoMemory>
        requires { (properties Place.Connect).Fits self.now.properties × (tail (flags_of self.now)).Fits (tail_parts self.now) }
        ensures ok { OnOk result (out.new.items ≡ out.old.items ++ (to_be_bytes w16 self.now.keep_alive ++ ((properties Place.Connect).bytes self.now.properties ++ (tail (flags_of self.now)).bytes (tail_parts self.now)))) }
        ensures full { OnErr result (vec_capacity out.old < vec_len out.old + length ((to_be_bytes w16 self.now.keep_alive ++ ((properties Place.Connect).bytes self.now.properties ++ (tail (flags_of self.now)).bytes (tail_parts self.now))))) }
        ensures capacity { vec_capacity out.old ≤ vec_capacity out.new }
    {
        out.extend_from_slice(&self.keep_alive.to_be_bytes())?;
        put_properties(Place::Connect, &self.properties, out)?;
        self.write_tail(out)
    }

    #[tactic(auto, using(crate::proofs::ConnectLaws::connect_bytes), unfolding(crate::specs::Connect::connect, crate::specs::Connect::connect_flags))]
    pub(crate) fn write(&self, out: &mut Vec<u8>) -> Result<(), NoMemory>
        requires { connect.Fits self.now }
        ensures ok { OnOk result (out.new.items ≡ out.old.items ++ connect.bytes self.now) }
        ensures full { OnErr result (vec_capacity out.old < vec_len out.old + length (connect.bytes self.now)) }
        ensures capacity { vec_capacity out.old ≤ vec_capacity out.new }
    {
        out.extend_from_slice(&[0, 4, b'M', b'Q', b'T', b'T', 5])?;
        out.push(self.flags().byte())?;
        self.write_end(out)
    }

    #[tactic(auto, unfolding(crate::specs::Connect::tail, crate::specs::Connect::login))]
    fn tail_len(&self) -> Option<usize>
        ensures exact { MeasuresField (tail (flags_of self.now)) (tail_parts self.now) result }
        ensures small { IfSome result (λ n. n < 2 ^ 30) }
    {
        let client = text_len(&self.client);
        let user_name = text_len_if(&self.user_name);
        let password = blob_len_if(&self.password);
        let will = will_len_if(&self.will)?;
        Some(client + will + user_name + password)
    }

    /// How many bytes the body takes.
    #[tactic(auto, using(crate::proofs::ConnectLaws::connect_fits), unfolding(crate::specs::Connect::connect, crate::specs::Connect::connect_flags))]
    pub(crate) fn len(&self) -> Option<usize>
        ensures { Measures connect self.now result }
    {
        let _keep_alive = self.keep_alive;
        if !self.is_valid() {
            return None;
        }
        let n = block_len(Place::Connect, &self.properties)?;
        let tail = self.tail_len()?;
        within(10 + n + tail)
    }

    /// A packet equal to this one.
    pub fn copy(&self, alloc: Global) -> Result<Connect, NoMemory>
        ensures { IfOk result (λ x. x ≡ self.now) }
    {
        Ok(Connect {
            clean_start: self.clean_start,
            keep_alive: self.keep_alive,
            properties: self.properties.copy(alloc)?,
            client: self.client.copy(alloc)?,
            will: copy_will_if(alloc, &self.will)?,
            user_name: copy_text_if(alloc, &self.user_name)?,
            password: copy_blob_if(alloc, &self.password)?,
        })
    }
}
