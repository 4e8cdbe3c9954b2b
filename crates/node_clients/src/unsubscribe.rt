//! UNSUBSCRIBE (MQTT 5.0, 3.10).

ghost use Rattle.std.specs.Prelude.{◌≡◌, cond, []};
ghost use Rattle.mqtt_packets.specs.declared.packet.Packet.TheVariants as packets;
ghost use Rattle.mqtt_packets.specs.Written.{HasSpelling};
ghost use Rattle.node_clients.specs.Unsubscribing.{SendsUnsuback, Unsubscribed, ServesUnsubscribe};
ghost use Rattle.node_work.specs.Held.Calling.{MayAnswer};
ghost use Rattle.node_work.specs.Working.{ComesTo, InTurn};

use crate::ending::close_after;
use crate::subscribe::filter_of;
use mqtt_fields::Text;
use mqtt_packets::{Unsubscribe, reason};
use node_work::{NodeFault, Work};

/// Ends the subscriptions of an UNSUBSCRIBE: UNSUBACK with one reason for each filter.
pub fn unsubscribe(
    work: &mut Work,
    connection: u64,
    client: &Text,
    request: &Unsubscribe,
) -> Result<(), NodeFault>
    requires { HasSpelling (packets.Unsubscribe request.now) }
    ensures { ComesTo (λ x. x) result work.old work.new (ServesUnsubscribe connection client.now request.now) }
{
    let reasons = remove_each(work, client, request.filters.as_slice())?;
    acknowledge(work, connection, client, request.identifier, &reasons)
}

/// Sends UNSUBACK. One that is longer than the client takes closes the connection.
fn acknowledge(
    work: &mut Work,
    connection: u64,
    client: &Text,
    packet: u16,
    reasons: &[u8],
) -> Result<(), NodeFault>
    requires { MayAnswer packet reasons.now }
    ensures { ComesTo (λ x. x) result work.old work.new (SendsUnsuback connection client.now packet reasons.now) }
{
    let reaction = work.answer(client, packet, reasons)?;
    close_after(work, reaction.end, connection, client)
}

/// Removes the client's subscriptions to each filter in turn, and answers the reasons.
fn remove_each(work: &mut Work, client: &Text, filters: &[Text]) -> Result<Vec<u8>, NodeFault>
    ensures { ComesTo (λ v. v.items) result work.old work.new (InTurn (Unsubscribed client.now) filters.now []) }
{
    let mut reasons = Vec::new(work.alloc());
    for text in filters {
        let reason = remove(work, client, text)?;
        reasons.push(reason)?;
    }
    Ok(reasons)
}

/// Removes the client's subscription to a filter, and answers the reason.
fn remove(work: &mut Work, client: &Text, text: &Text) -> Result<u8, NodeFault>
    ensures { ComesTo (λ x. x) result work.old work.new (Unsubscribed client.now text.now) }
{
    let Some(filter) = filter_of(work.alloc(), text)? else {
        return Ok(reason::TOPIC_FILTER_INVALID);
    };
    let stood = work.remove(client, Some(&filter))?;
    Ok(removal_reason(stood))
}

/// The reason for a filter, by whether the client's subscription to it stood.
fn removal_reason(stood: bool) -> u8
    ensures { result ≡ cond stood 0 17 }
{
    if stood {
        reason::SUCCESS
    } else {
        reason::NO_SUBSCRIPTION_EXISTED
    }
}
