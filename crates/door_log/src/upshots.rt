//! What becomes of a client's connection by what is sent on it, and what is told of that.

ghost use Rattle.std.specs.Prelude.{◌≡◌, IfOk, IfSome, Some};
ghost use Rattle.mqtt_fields.specs.Properties.{first_text};
ghost use Rattle.mqtt3_packets.specs.Version.{version_of};
ghost use Rattle.door_log.specs.Upshots.{answered, asked_by, by_connack, closing, departure_by, earlier_at, upshot_of, is_disconnect, losing, name_with, packet_in, parted, refused};

use crate::clients::Stage;
use crate::{Departure, Earlier, LogLine};
use mqtt_fields::{LONGEST_PACKET, NoMemory, Text, identifier};
use mqtt_packets::{Bytes, Connack, Packet, PacketFault, read_packet};
use mqtt3_packets::{Level, Version, version_of};
use std::alloc::Global;

/// The first byte of a DISCONNECT (MQTT 5.0, 3.14.1).
const DISCONNECT: u8 = 0xE0;

/// What becomes of a connection, and what is told: how far it has come, or nothing where no more is told of it.
pub(crate) type Upshot = (Option<Stage>, LogLine);

/// The packet in front, if it is there whole.
fn packet_in(alloc: Global, bytes: &[u8]) -> Result<Option<Packet>, NoMemory>
    ensures { IfOk result (λ packet. packet ≡ packet_in bytes.now) }
{
    match read_packet(alloc, bytes) {
        Ok(Some((packet, _))) => Ok(Some(packet)),
        Ok(None) => Ok(None),
        Err(PacketFault::NoMemory) => Err(NoMemory),
        Err(_) => Ok(None),
    }
}

/// The identifier that a CONNECT in front asks for.
fn asked_in(alloc: Global, held: &Bytes) -> Result<Option<Text>, NoMemory>
    ensures { IfOk result (λ name. name ≡ asked_by (packet_in held.now)) }
{
    match packet_in(alloc, held.as_slice())? {
        Some(Packet::Connect(connect)) => Ok(Some(connect.client.copy(alloc)?)),
        _ => Ok(None),
    }
}

/// The identifier under which a client is accepted.
fn name_with(alloc: Global, connack: &Connack, asked: Option<Text>) -> Result<Text, NoMemory>
    ensures { IfOk result (λ name. name ≡ name_with (first_text 18 connack.now.properties) asked) }
{
    match (
        connack
            .properties
            .text(identifier::ASSIGNED_CLIENT_IDENTIFIER),
        asked,
    ) {
        (Some(assigned), _) => assigned.copy(alloc),
        (None, Some(name)) => Ok(name),
        (None, None) => match Text::new(alloc, "") {
            Ok(name) => Ok(name),
            Err(_) => Err(NoMemory),
        },
    }
}

/// The version before 5 that a client's first bytes tell, where it is one that `--mqtt3` serves.
fn earlier_of(held: &[u8]) -> Option<Earlier>
    ensures { result ≡ earlier_at (version_of 1048576 held.now) }
{
    match version_of(LONGEST_PACKET, held) {
        Some(Version::Before(Level::Four, _)) => Some(Earlier::Mqtt311),
        Some(Version::Before(Level::Three, _)) => Some(Earlier::Mqtt31),
        _ => None,
    }
}

/// What is told of a client that is refused with this reason code, of which this came.
fn refused(reason: u8, asked: Option<Text>, held: &[u8]) -> LogLine
    ensures { result ≡ refused reason asked held.now }
{
    match earlier_of(held) {
        Some(earlier) => {
            if reason == 0x84 {
                LogLine::ClientOfEarlier(earlier)
            } else {
                LogLine::ClientRefused(reason, asked)
            }
        }
        None => LogLine::ClientRefused(reason, asked),
    }
}

/// A CONNACK accepts a client of which this came, or refuses it.
fn by_connack(
    alloc: Global,
    connack: &Connack,
    asked: Option<Text>,
    held: &[u8],
) -> Result<Upshot, NoMemory>
    ensures { IfOk result (λ upshot. upshot ≡ by_connack connack.now asked held.now) }
{
    if connack.reason != 0 {
        return Ok((None, refused(connack.reason, asked, held)));
    }
    let name = name_with(alloc, connack, asked)?;
    let told = name.copy(alloc)?;
    Ok((Some(Stage::Accepted(name)), LogLine::ClientAccepted(told)))
}

/// What is sent to a client that wasn't answered yet.
fn answered(alloc: Global, held: &Bytes, bytes: &[u8]) -> Result<Option<Upshot>, NoMemory>
    ensures { IfOk result (λ upshot. upshot ≡ answered (packet_in bytes.now) held.now) }
{
    match packet_in(alloc, bytes)? {
        Some(Packet::Connack(connack)) => {
            let asked = asked_in(alloc, held)?;
            Ok(Some(by_connack(alloc, &connack, asked, held.as_slice())?))
        }
        _ => Ok(None),
    }
}

/// Why a client is gone to which a DISCONNECT with this reason code is sent.
fn departure_by(code: u8) -> Departure
    ensures { result ≡ departure_by code }
{
    if code == 0x8D {
        Departure::KeepAlive
    } else if code == 0x8E {
        Departure::TakenOver
    } else {
        Departure::Fault(code)
    }
}

fn is_disconnect(bytes: &[u8]) -> bool
    ensures { result ≡ is_disconnect bytes.now }
{
    match bytes {
        [first, ..] => *first == DISCONNECT,
        [] => false,
    }
}

/// What is sent to a client that was accepted.
fn parted(alloc: Global, name: &Text, bytes: &[u8]) -> Result<Option<Upshot>, NoMemory>
    ensures { IfOk result (λ upshot. upshot ≡ parted (packet_in bytes.now) name.now) }
{
    match packet_in(alloc, bytes)? {
        Some(Packet::Disconnect(ended)) => {
            let departure = departure_by(ended.reason);
            let line = LogLine::ClientGone(departure, name.copy(alloc)?);
            Ok(Some((None, line)))
        }
        _ => Ok(None),
    }
}

/// What becomes of a connection that has come so far where these bytes are sent on it, if anything does.
pub(crate) fn upshot_of(
    alloc: Global,
    stage: &Stage,
    bytes: &[u8],
) -> Result<Option<Upshot>, NoMemory>
    ensures { IfOk result (λ upshot. upshot ≡ upshot_of bytes.now stage.now) }
{
    match stage {
        Stage::Coming(held) => answered(alloc, held, bytes),
        Stage::Accepted(name) => {
            if is_disconnect(bytes) {
                parted(alloc, name, bytes)
            } else {
                Ok(None)
            }
        }
    }
}

/// What is told of a connection that is closed.
pub(crate) fn closing(stage: Stage) -> LogLine
    ensures { result ≡ closing stage }
{
    match stage {
        Stage::Coming(_) => LogLine::ClientUnanswered,
        Stage::Accepted(name) => LogLine::ClientGone(Departure::Closed, name),
    }
}

/// What is told of a connection that is lost, if anything is.
pub(crate) fn losing(stage: Stage) -> Option<LogLine>
    ensures { result ≡ losing stage }
{
    match stage {
        Stage::Coming(_) => None,
        Stage::Accepted(name) => Some(LogLine::ClientGone(Departure::Lost, name)),
    }
}
