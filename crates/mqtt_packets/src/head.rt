//! The first byte of a packet.

ghost use Rattle.std.specs.Prelude.{◌≡◌, ◌<◌, ◌^◌};
ghost use Rattle.mqtt_packets.specs.Head.{bit, level_of, publish_flags, publish_at, is_at_most_once, is_allowed, is_head, first_byte, head_at};

use mqtt_fields::Qos;

/// What PUBLISH's first byte says beside its type (MQTT 5.0, 3.3.1).
#[derive(Clone, Copy, Debug, PartialEq, Eq)]
pub(crate) struct PublishFlags {
    pub(crate) dup: bool,
    pub(crate) qos: Qos,
    pub(crate) retain: bool,
}

/// What a packet's first byte says (MQTT 5.0, 2.1.1).
#[derive(Clone, Copy, Debug, PartialEq, Eq)]
pub(crate) enum Head {
    Connect,
    Connack,
    Publish(PublishFlags),
    Puback,
    Pubrec,
    Pubrel,
    Pubcomp,
    Subscribe,
    Suback,
    Unsubscribe,
    Unsuback,
    Pingreq,
    Pingresp,
    Disconnect,
    Auth,
}

/// 1 for a set bit.
pub(crate) fn bit(set: bool) -> u8
    ensures exact { result ≡ bit set }
    ensures small { result < 2 }
{
    if set { 1 } else { 0 }
}

/// The level with this number.
#[tactic(auto, using(crate::proofs::HeadLaws::qos_is))]
pub(crate) fn level_of(number: u8) -> Option<Qos>
    ensures { result ≡ level_of number }
{
    Qos::of(number)
}

pub(crate) fn is_at_most_once(qos: Qos) -> bool
    ensures { result ≡ is_at_most_once qos }
{
    match qos {
        Qos::AtMostOnce => true,
        _ => false,
    }
}

fn publish_flags(flags: u8) -> Option<PublishFlags>
    ensures { result ≡ publish_at flags }
{
    let qos = level_of(flags / 2 % 4)?;
    let dup = flags > 7;
    if dup && is_at_most_once(qos) {
        return None;
    }
    Some(PublishFlags {
        dup,
        qos,
        retain: flags % 2 == 1,
    })
}

impl PublishFlags {
    /// The flags as four bits.
    #[tactic(auto, using(crate::proofs::HeadLaws::qos_small))]
    fn bits(self) -> u8
        ensures exact { result ≡ publish_flags self }
        ensures small { result < 16 }
    {
        8 * bit(self.dup) + 2 * self.qos.number() + bit(self.retain)
    }

    /// Whether a first byte may say so.
    pub(crate) fn is_allowed(self) -> bool
        ensures { result ≡ is_allowed self }
    {
        !(self.dup && is_at_most_once(self.qos))
    }
}

impl Head {
    /// The first byte.
    pub(crate) fn byte(self) -> u8
        ensures { result ≡ first_byte self }
    {
        match self {
            Head::Connect => 0x10,
            Head::Connack => 0x20,
            Head::Publish(flags) => 0x30 + flags.bits(),
            Head::Puback => 0x40,
            Head::Pubrec => 0x50,
            Head::Pubrel => 0x62,
            Head::Pubcomp => 0x70,
            Head::Subscribe => 0x82,
            Head::Suback => 0x90,
            Head::Unsubscribe => 0xa2,
            Head::Unsuback => 0xb0,
            Head::Pingreq => 0xc0,
            Head::Pingresp => 0xd0,
            Head::Disconnect => 0xe0,
            Head::Auth => 0xf0,
        }
    }

    /// Whether a packet may begin so.
    pub(crate) fn is_allowed(self) -> bool
        ensures { result ≡ is_head self }
    {
        match self {
            Head::Publish(flags) => flags.is_allowed(),
            _ => true,
        }
    }

    /// What a first byte says, unless no packet begins with it.
    #[tactic(auto, unfolding(crate::specs::Head::head_at))]
    pub(crate) fn of(byte: u8) -> Option<Head>
        ensures { result ≡ head_at byte }
    {
        match byte {
            0x10 => Some(Head::Connect),
            0x20 => Some(Head::Connack),
            0x30..=0x3f => {
                let flags = publish_flags(byte % 16)?;
                Some(Head::Publish(flags))
            }
            0x40 => Some(Head::Puback),
            0x50 => Some(Head::Pubrec),
            0x62 => Some(Head::Pubrel),
            0x70 => Some(Head::Pubcomp),
            0x82 => Some(Head::Subscribe),
            0x90 => Some(Head::Suback),
            0xa2 => Some(Head::Unsubscribe),
            0xb0 => Some(Head::Unsuback),
            0xc0 => Some(Head::Pingreq),
            0xd0 => Some(Head::Pingresp),
            0xe0 => Some(Head::Disconnect),
            0xf0 => Some(Head::Auth),
            _ => None,
        }
    }
}
