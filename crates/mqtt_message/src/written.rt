//! The bytes of the PUBLISH by which a delivery is sent.

ghost use Rattle.std.specs.Prelude.{◌≡◌, ◌+◌, ◌++◌, Bool, IfOk, OnOk, ℕ};
ghost use Rattle.mqtt_fields.specs.declared.table.Place.TheVariants as places;
ghost use Rattle.mqtt_fields.specs.Block.{properties};
ghost use Rattle.mqtt_packets.specs.declared.packet.Packet.TheVariants as packets;
ghost use Rattle.mqtt_packets.specs.Head.{publish_flags};
ghost use Rattle.mqtt_packets.specs.Packet.{body_bytes};
ghost use Rattle.mqtt_packets.specs.Written.{written, HasSpelling};
ghost use Rattle.mqtt_message.specs.Sent.{sent};

use crate::delivery::Delivery;
use mqtt_fields::{NoMemory, Properties, Qos, Vbi, put_u16, vbi_len, write_properties};
use std::alloc::Global;

/// The first byte of a PUBLISH: its type, DUP, QoS and RETAIN (MQTT 5.0, 3.3.1).
#[tactic(auto, using(mqtt_packets::proofs::HeadLaws::qos_small))]
fn first_byte(dup: bool, qos: Qos, retain: bool) -> u8
    ensures { result ≡ 0x30 + publish_flags (record { dup = dup; qos = qos; retain = retain }) }
{
    let again = if dup { 8 } else { 0 };
    let retained = if retain { 1 } else { 0 };
    0x30 + again + 2 * qos.number() + retained
}

impl Delivery {
    /// Appends what follows Remaining Length, with these properties.
    #[tactic(auto, unfolding(mqtt_packets::specs::Packet::body_bytes, mqtt_packets::specs::Publish::publish), using(mqtt_fields::proofs::BlockLaws::has_spelling))]
    fn write_body(
        &self,
        identifier: u16,
        carried: &Properties,
        out: &mut Vec<u8>,
    ) -> Result<(), NoMemory>
        requires { (properties places.Publish).Fits carried.now }
        ensures { (now : ℕ) (dup : Bool) → OnOk result (out.new.items
            ≡ out.old.items ++ body_bytes (packets.Publish (record (sent self.now now dup identifier) { properties = carried.now }))) }
    {
        let message = self.message.message();
        message.topic.as_text().write(out)?;
        if self.qos != Qos::AtMostOnce {
            put_u16(identifier, out)?;
        }
        write_properties(carried, out)?;
        out.extend_from_slice(message.payload.as_slice())?;
        Ok(())
    }

    /// The bytes of the PUBLISH that sends it now, with this DUP flag and Packet Identifier (0 at QoS 0): what `publish` gives,
    /// written, without a copy of topic and payload beside it.
    pub fn publish_bytes(
        &self,
        alloc: Global,
        now: u64,
        dup: bool,
        identifier: u16,
    ) -> Result<Vec<u8>, NoMemory>
        requires { HasSpelling (packets.Publish (sent self.now now dup identifier)) }
        ensures { IfOk result (λ bytes. bytes.items ≡ written (packets.Publish (sent self.now now dup identifier))) }
    {
        let properties = self.sent_properties(alloc, now)?;
        let body = self.body_len(now);
        let mut bytes = Vec::with_capacity(alloc, 1 + vbi_len(body as u32) + body)?;
        bytes.push_reserved(first_byte(dup, self.qos, self.retain));
        Vbi::write(body as u32, &mut bytes)?;
        self.write_body(identifier, &properties, &mut bytes)?;
        Ok(bytes)
    }
}
