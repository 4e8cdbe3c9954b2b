//! PUBLISH.

ghost use Rattle.std.specs.Prelude.{◌≡◌, IfOk};
ghost use Rattle.door_packets.specs.Packets.{is_allowed, publish_step, refusal};

use crate::aliases::Aliases;
use crate::publish_view::PublishView;
use crate::step::Step;
use crate::{Access, Login, ack};
use mqtt_fields::identifier::TOPIC_ALIAS;
use mqtt_fields::{NoMemory, Qos};
use mqtt_packets::Bytes;
use std::alloc::Global;

/// The first byte of PUBACK.
const PUBACK: u8 = 0x40;

/// The first byte of PUBREC.
const PUBREC: u8 = 0x50;

/// Whether its topic may be written: its own, or that to which it gave its alias last.
pub(crate) fn is_allowed<A: Access>(
    access: &A,
    login: &Login,
    aliases: &Aliases,
    publish: &PublishView<'_>,
) -> bool
    ensures { result ≡ is_allowed (A.rights access.now) login.now aliases.now publish.now }
{
    if !publish.topic.is_empty() {
        return access.may_write(login, publish.topic);
    }
    match publish.properties.two(TOPIC_ALIAS) {
        None => true,
        Some(alias) => !aliases.contains(alias),
    }
}

/// What is done for a PUBLISH whose topic may not be written. One at QoS 2 that comes again may have an exchange that is open in the handler inside, so
/// it ends the connection.
fn refusal(alloc: Global, publish: &PublishView<'_>) -> Result<Step, NoMemory>
    ensures { IfOk result (λ step. step ≡ refusal publish.now) }
{
    match publish.qos {
        Qos::AtMostOnce => Ok(Step::Drops),
        Qos::AtLeastOnce => Ok(Step::Acks(Bytes::new(ack(alloc, PUBACK, publish.identifier)?))),
        Qos::ExactlyOnce => {
            if publish.dup {
                Ok(Step::Ends)
            } else {
                let bytes = ack(alloc, PUBREC, publish.identifier)?;
                Ok(Step::Acks(Bytes::new(bytes)))
            }
        }
    }
}

/// What is done for a PUBLISH, whose bytes these are.
pub(crate) fn publish_step(
    alloc: Global,
    allowed: bool,
    bytes: &[u8],
    publish: &PublishView<'_>,
) -> Result<Step, NoMemory>
    ensures { IfOk result (λ step. step ≡ publish_step allowed bytes.now publish.now) }
{
    if allowed {
        Ok(Step::Tells(Bytes::from_slice(alloc, bytes)?))
    } else {
        refusal(alloc, publish)
    }
}
