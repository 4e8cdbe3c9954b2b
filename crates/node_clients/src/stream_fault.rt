//! How a stream that can't go on is answered (MQTT 5.0, 4.13).

ghost use Rattle.std.specs.Prelude.{◌≡◌, None, Some, IfOk, IfErr, IsOk};
ghost use Rattle.std.specs.Option.{option_copied};
ghost use Rattle.node_clients.specs.Pieces.{Breaks, TellsBy, SendsRefusal, SendsDisconnect, is_connect, disconnect_code, connack_code};
ghost use Rattle.node_work.specs.Held.Connections.{client_at};
ghost use Rattle.node_work.specs.Working.{ComesTo};
ghost use Rattle.node_work.specs.declared.fault.NodeFault.TheVariants.{NoMemory};

use crate::ending::close_by;
use mqtt_fields::Text;
use mqtt_packets::{PacketFault, reason};
use node_work::{NodeFault, Work, refused};

/// The first byte's type of a CONNECT.
const CONNECT: u8 = 1;

/// Tells a client which fault its stream has, and closes its connection.
pub fn break_off(work: &mut Work, connection: u64, fault: PacketFault) -> Result<(), NodeFault>
    ensures { ComesTo (λ x. x) result work.old work.new (Breaks connection fault) }
{
    let client = client_of(work, connection)?;
    tell(work, connection, fault, client.as_ref())?;
    close_by(work, connection, client.as_ref())
}

/// The client of a connection, once it is accepted. Only it takes memory.
pub fn client_of(work: &Work, connection: u64) -> Result<Option<Text>, NodeFault>
    ensures ok { IfOk result (λ client. client ≡ client_at connection work.now.held) }
    ensures memory { client_at connection work.now.held ≡ None → IsOk result }
    ensures fault { IfErr result (λ e. e ≡ NoMemory) }
{
    match work.held().client_of(connection) {
        Some(client) => Ok(Some(client.copy(work.alloc())?)),
        None => Ok(None),
    }
}

/// Tells the client which fault its stream has: by a DISCONNECT once it is accepted, and by a CONNACK where its CONNECT is at
/// fault.
fn tell(
    work: &mut Work,
    connection: u64,
    fault: PacketFault,
    client: Option<&Text>,
) -> Result<(), NodeFault>
    ensures { ComesTo (λ x. x) result work.old work.new (TellsBy connection fault (option_copied client.entry)) }
{
    if let Some(client) = client {
        return send_disconnect(work, connection, client, fault);
    }
    if is_connect(work.held().first(connection)) {
        return send_refusal(work, connection, fault);
    }
    Ok(())
}

/// Whether a packet with this first byte is a CONNECT.
fn is_connect(first: Option<u8>) -> bool
    ensures { result ≡ is_connect first }
{
    match first {
        Some(byte) => byte / 16 == CONNECT,
        None => false,
    }
}

/// Sends the DISCONNECT of a fault.
fn send_disconnect(
    work: &mut Work,
    connection: u64,
    client: &Text,
    fault: PacketFault,
) -> Result<(), NodeFault>
    ensures { ComesTo (λ x. x) result work.old work.new (SendsDisconnect connection client.now (disconnect_code fault)) }
{
    let reason = disconnect_reason(fault)?;
    work.disconnect(connection, client, reason)
}

/// Sends the CONNACK of a fault.
fn send_refusal(work: &mut Work, connection: u64, fault: PacketFault) -> Result<(), NodeFault>
    ensures { ComesTo (λ x. x) result work.old work.new (SendsRefusal connection (connack_code fault)) }
{
    let reason = connack_reason(fault)?;
    let packet = refused(work.alloc(), reason, None)?;
    work.put_out(connection, &packet)
}

/// The reason in the CONNACK that answers a faulty CONNECT.
fn connack_reason(fault: PacketFault) -> Result<u8, NodeFault>
    ensures ok { IfOk result (λ code. connack_code fault ≡ Some code) }
    ensures fault { IfErr result (λ e. e ≡ NoMemory) }
{
    match fault {
        PacketFault::WrongVersion => Ok(reason::UNSUPPORTED_PROTOCOL_VERSION),
        other => disconnect_reason(other),
    }
}

/// The reason in the DISCONNECT that answers a fault of an accepted client.
fn disconnect_reason(fault: PacketFault) -> Result<u8, NodeFault>
    ensures ok { IfOk result (λ code. disconnect_code fault ≡ Some code) }
    ensures fault { IfErr result (λ e. e ≡ NoMemory) }
{
    match fault {
        PacketFault::Malformed => Ok(reason::MALFORMED_PACKET),
        PacketFault::ProtocolError | PacketFault::WrongVersion => Ok(reason::PROTOCOL_ERROR),
        PacketFault::TooLarge => Ok(reason::PACKET_TOO_LARGE),
        PacketFault::NoMemory => Err(NodeFault::NoMemory),
    }
}
