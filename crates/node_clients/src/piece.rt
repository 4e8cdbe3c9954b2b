//! A piece of a client's stream.

ghost use Rattle.std.specs.Prelude.{◌≡◌, false, IsOk, None, Ok};
ghost use Rattle.mqtt_packets.specs.Written.{HasSpelling};
ghost use Rattle.node_clients.specs.Pieces.{Piece, Leaves, LeavesBy, TakesPackets, AnswersFirstPacket, AnswersPacket, AnswersIfOpen, BreaksIfOpen, Shuts};
ghost use Rattle.node_work.specs.Held.Connections.{is_open, client_at};
ghost use Rattle.node_work.specs.Packets.{HaveSpellings};
ghost use Rattle.node_work.specs.Working.{ComesTo, Each, Looks};

use crate::connect::connect;
use crate::ending::{close, close_by, part};
use crate::serve::serve;
use crate::stream_fault::{break_off, client_of};
use mqtt_packets::{Fed, Packet, PacketFault};
use node_work::{Came, NodeFault, Work};

/// Takes in a piece of a connection's stream, and answers its packets. For a connection that isn't open nothing is done.
pub fn take_piece(work: &mut Work, connection: u64, bytes: &[u8]) -> Result<(), NodeFault>
    ensures idle { is_open connection work.old.held ≡ false → (result ≡ Ok tt) × (work.new ≡ work.old) }
    ensures comes { ComesTo (λ x. x) result work.old work.new (Piece connection bytes.now) }
{
    match work.feed(connection, bytes)? {
        Came::Nothing => Ok(()),
        Came::Failed => shut(work, connection),
        Came::Packets(Fed { packets, fault }) => take(work, connection, &packets, fault),
    }
}

/// Closes a connection whose stream has failed.
fn shut(work: &mut Work, connection: u64) -> Result<(), NodeFault>
    ensures { ComesTo (λ x. x) result work.old work.new (Shuts connection) }
{
    let client = client_of(work, connection)?;
    close_by(work, connection, client.as_ref())
}

/// Answers packets, and then the fault.
fn take(
    work: &mut Work,
    connection: u64,
    packets: &[Packet],
    fault: Option<PacketFault>,
) -> Result<(), NodeFault>
    requires { HaveSpellings packets.now }
    ensures { ComesTo (λ x. x) result work.old work.new (TakesPackets connection packets.now fault) }
{
    answer_each(work, connection, packets)?;
    break_if_open(work, connection, fault)
}

/// Answers the packets in turn. What follows the close of the connection is dropped.
fn answer_each(work: &mut Work, connection: u64, packets: &[Packet]) -> Result<(), NodeFault>
    requires { HaveSpellings packets.now }
    ensures { ComesTo (λ x. x) result work.old work.new (Each (AnswersIfOpen connection) packets.now) }
{
    for packet in packets {
        answer_if_open(work, connection, packet)?;
    }
    Ok(())
}

/// Answers a packet, while its connection is open.
fn answer_if_open(work: &mut Work, connection: u64, packet: &Packet) -> Result<(), NodeFault>
    requires { HasSpelling packet.now }
    ensures { ComesTo (λ x. x) result work.old work.new (AnswersIfOpen connection packet.now) }
{
    if !work.held().is_open(connection) {
        return Ok(());
    }
    answer(work, connection, packet)
}

/// Answers a packet, by whether the client of its connection is accepted.
fn answer(work: &mut Work, connection: u64, packet: &Packet) -> Result<(), NodeFault>
    requires { HasSpelling packet.now }
    ensures { ComesTo (λ x. x) result work.old work.new (AnswersPacket connection packet.now) }
{
    match client_of(work, connection)? {
        Some(client) => serve(work, connection, &client, packet),
        None => answer_first(work, connection, packet),
    }
}

/// Answers the first packet of a connection. One that isn't a CONNECT closes it.
fn answer_first(work: &mut Work, connection: u64, packet: &Packet) -> Result<(), NodeFault>
    requires { HasSpelling packet.now }
    ensures { ComesTo (λ x. x) result work.old work.new (AnswersFirstPacket connection packet.now) }
{
    match packet {
        Packet::Connect(request) => connect(work, connection, request),
        _ => close(work, connection),
    }
}

/// Answers the fault of a stream, while its connection is open.
fn break_if_open(
    work: &mut Work,
    connection: u64,
    fault: Option<PacketFault>,
) -> Result<(), NodeFault>
    ensures { ComesTo (λ x. x) result work.old work.new (BreaksIfOpen connection fault) }
{
    let Some(fault) = fault else {
        return Ok(());
    };
    if !work.held().is_open(connection) {
        return Ok(());
    }
    break_off(work, connection, fault)
}

/// A client has closed its connection. For a connection that isn't open nothing is done, and for one without a client it takes
/// no memory.
pub fn leave(work: &mut Work, connection: u64) -> Result<(), NodeFault>
    ensures idle { is_open connection work.old.held ≡ false → (result ≡ Ok tt) × (work.new ≡ work.old) }
    ensures memory { client_at connection work.old.held ≡ None → IsOk result }
    ensures comes { ComesTo (λ x. x) result work.old work.new (Leaves connection) }
{
    if !work.held().is_open(connection) {
        return Ok(());
    }
    leave_open(work, connection)
}

/// The client of an open connection has closed it.
fn leave_open(work: &mut Work, connection: u64) -> Result<(), NodeFault>
    ensures memory { client_at connection work.old.held ≡ None → IsOk result }
    ensures comes { ComesTo (λ x. x) result work.old work.new (Looks (λ p h. client_at connection h) (LeavesBy connection)) }
{
    let client = client_of(work, connection)?;
    work.close(connection)?;
    match client {
        Some(client) => part(work, &client),
        None => Ok(()),
    }
}
