//! What comes of a packet.

ghost use Rattle.std.specs.Prelude.{◌≡◌, IfOk};
ghost use Rattle.mqtt_bounds.specs.Bounded.{bounded, connect_verdict, disconnect_verdict, told_in};

use crate::bounds::Bounds;
use crate::codes::Codes;
use crate::expiry::{shorter, with_four};
use crate::publish::publish_verdict;
use crate::subscribe::subscribe_verdict;
use mqtt_fields::NoMemory;
use mqtt_fields::identifier::SESSION_EXPIRY_INTERVAL;
use mqtt_packets::{Connect, Ended, Packet};
use std::alloc::Global;

/// What is mended of what answers a packet.
#[derive(Drop)]
pub enum Mend {
    /// Nothing.
    Nothing,
    /// A CONNACK tells the longest packet, and the Session Expiry Interval, where these are given.
    Connack(Option<u32>, Option<u32>),
    /// A SUBACK with this identifier has these codes too.
    Suback(u16, Codes),
    /// A DISCONNECT has this Reason Code.
    Disconnect(u8),
}

/// What comes of a packet.
#[derive(Drop)]
pub enum Verdict {
    /// It goes on as it came.
    Goes(Mend),
    /// This one goes on in its place.
    Becomes(Packet, Mend),
    /// It doesn't go on. This answers it; nothing does where it was a PUBLISH at QoS 0.
    Refused(Option<Packet>),
    /// It doesn't go on, and the connection ends with this Reason Code.
    Ends(u8),
}

/// What is told in CONNACK where this Session Expiry Interval is used, or the one that was asked for.
fn told_in(bounds: &Bounds, expiry: Option<u32>) -> Mend
    ensures { result ≡ told_in bounds.now expiry }
{
    match (bounds.longest_packet, expiry) {
        (None, None) => Mend::Nothing,
        (longest, expiry) => Mend::Connack(longest, expiry),
    }
}

fn connect_verdict(alloc: Global, bounds: &Bounds, connect: Connect) -> Result<Verdict, NoMemory>
    ensures { IfOk result (λ v. v ≡ connect_verdict bounds.now connect) }
{
    let expiry = shorter(bounds, &connect.properties);
    let mend = told_in(bounds, expiry);
    match expiry {
        None => Ok(Verdict::Goes(mend)),
        Some(expiry) => {
            let properties = with_four(
                alloc,
                SESSION_EXPIRY_INTERVAL,
                expiry,
                &connect.properties,
            )?;
            let connect = Connect {
                clean_start: connect.clean_start,
                keep_alive: connect.keep_alive,
                properties,
                client: connect.client,
                will: connect.will,
                user_name: connect.user_name,
                password: connect.password,
            };
            Ok(Verdict::Becomes(Packet::Connect(connect), mend))
        }
    }
}

fn disconnect_verdict(alloc: Global, bounds: &Bounds, ended: Ended) -> Result<Verdict, NoMemory>
    ensures { IfOk result (λ v. v ≡ disconnect_verdict bounds.now ended) }
{
    match shorter(bounds, &ended.properties) {
        None => Ok(Verdict::Goes(Mend::Nothing)),
        Some(expiry) => {
            let properties = with_four(alloc, SESSION_EXPIRY_INTERVAL, expiry, &ended.properties)?;
            let ended = Ended {
                reason: ended.reason,
                properties,
            };
            Ok(Verdict::Becomes(Packet::Disconnect(ended), Mend::Nothing))
        }
    }
}

/// What comes of a packet, where there is room for what it brings or isn't.
pub fn bounded(
    alloc: Global,
    bounds: &Bounds,
    full: bool,
    packet: Packet,
) -> Result<Verdict, NoMemory>
    ensures { IfOk result (λ v. v ≡ bounded bounds.now full packet) }
{
    match packet {
        Packet::Connect(connect) => connect_verdict(alloc, bounds, connect),
        Packet::Publish(publish) => Ok(publish_verdict(alloc, bounds, full, &publish)),
        Packet::Subscribe(subscribe) => subscribe_verdict(alloc, bounds, full, subscribe),
        Packet::Disconnect(ended) => disconnect_verdict(alloc, bounds, ended),
        _ => Ok(Verdict::Goes(Mend::Nothing)),
    }
}
