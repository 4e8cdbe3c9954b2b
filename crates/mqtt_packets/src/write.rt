//! Packets as bytes.

ghost use Rattle.std.specs.Prelude.{◌≡◌, ◌+◌, ◌<◌, ◌≤◌, ◌++◌, length, OnOk, OnErr, vec_len, vec_capacity};
ghost use Rattle.mqtt_packets.specs.Written.{HasSpelling, IsSound, written};

use crate::packet::Packet;
use mqtt_fields::{NoMemory, Vbi, vbi_len};
use std::alloc::Global;

/// Appends a packet that has a spelling.
#[tactic(auto, unfolding(crate::specs::Written::written))]
fn write_sound(packet: &Packet, out: &mut Vec<u8>) -> Result<(), NoMemory>
    requires { IsSound packet.now }
    ensures ok { OnOk result (out.new.items ≡ out.old.items ++ written packet.now) }
    ensures err { OnErr result (out.new.items ≡ out.old.items) }
    ensures full { OnErr result (vec_capacity out.old < vec_len out.old + length (written packet.now)) }
    ensures capacity { vec_capacity out.old ≤ vec_capacity out.new }
{
    let len = packet.body_len().unwrap();
    out.reserve(1 + vbi_len(len as u32) + len)?;
    out.push_reserved(packet.head().byte());
    Vbi::write(len as u32, out).unwrap();
    packet.write_body(out).unwrap();
    Ok(())
}

/// Appends the packet's shortest spelling. With room for it this can't fail.
#[tactic(auto, using(crate::proofs::WrittenLaws::sound_of))]
pub fn write_packet(_alloc: Global, packet: &Packet, out: &mut Vec<u8>) -> Result<(), NoMemory>
    requires { HasSpelling packet.now }
    ensures ok { OnOk result (out.new.items ≡ out.old.items ++ written packet.now) }
    ensures err { OnErr result (out.new.items ≡ out.old.items) }
    ensures full { OnErr result (vec_capacity out.old < vec_len out.old + length (written packet.now)) }
    ensures capacity { vec_capacity out.old ≤ vec_capacity out.new }
{
    write_sound(packet, out)
}
