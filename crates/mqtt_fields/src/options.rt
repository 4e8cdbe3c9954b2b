//! QoS levels (MQTT 5.0, 4.3) and Subscription Options (MQTT 5.0, 3.8.3.1).

ghost use Rattle.std.specs.Prelude.{◌≡◌, ◌<◌, MatchOption};

use std::marker::Model;

/// How often a message is delivered.
#[derive(Clone, Copy, Debug, PartialEq, Eq, PartialOrd, Ord)]
pub enum Qos {
    /// It may be lost.
    AtMostOnce = 0,
    /// It may come twice.
    AtLeastOnce = 1,
    ExactlyOnce = 2,
}

impl Qos {
    ghost use Rattle.mqtt_fields.specs.Options.{qos_number};

    /// The level of this number. None where it isn't below 3.
    pub fn of(number: u8) -> Option<Qos>
        ensures { MatchOption result (2 < number) (λ q. qos_number q ≡ number) }
    {
        match number {
            0 => Some(Qos::AtMostOnce),
            1 => Some(Qos::AtLeastOnce),
            2 => Some(Qos::ExactlyOnce),
            _ => None,
        }
    }

    /// The level's number: 0, 1 or 2.
    pub fn number(self) -> u8
        ensures { result ≡ qos_number self }
    {
        self as u8
    }
}

/// The byte that says how a subscription is to be served. Contracts see the byte.
#[derive(Clone, Copy, Debug, PartialEq, Eq, PartialOrd, Ord)]
pub struct SubscriptionOptions {
    bits: u8,
}

impl Model for SubscriptionOptions {
    ghost use Rattle.std.specs.Prelude.{ℕ};

    ghost Value = { ℕ };

    ghost view = { λ o. o.bits };

    ghost inverse = { λ n. record { bits = n } };
}

impl SubscriptionOptions {
    ghost use Rattle.mqtt_fields.specs.Options.{qos_of, no_local_of, retain_as_published_of, retain_handling_of};

    /// The options of any byte.
    pub fn of_byte(byte: u8) -> SubscriptionOptions
        ensures { result ≡ byte }
    {
        SubscriptionOptions { bits: byte }
    }

    /// The byte.
    pub fn byte(self) -> u8
        ensures { result ≡ self }
    {
        self.bits
    }

    /// The greatest QoS at which messages are sent: 0 to 2, or 3, which no client may ask for.
    pub fn qos(self) -> u8
        ensures { result ≡ qos_of self }
    {
        self.byte() % 4
    }

    /// Whether the client gets no message that it published itself.
    pub fn no_local(self) -> bool
        ensures { result ≡ no_local_of self }
    {
        self.byte() / 4 % 2 == 1
    }

    /// Whether messages keep the RETAIN flag that they were published with.
    pub fn retain_as_published(self) -> bool
        ensures { result ≡ retain_as_published_of self }
    {
        self.byte() / 8 % 2 == 1
    }

    /// When retained messages are sent: 0 at each SUBSCRIBE, 1 for a new subscription alone, 2
    /// never, or 3, which no client may ask for.
    pub fn retain_handling(self) -> u8
        ensures { result ≡ retain_handling_of self }
    {
        self.byte() / 16 % 4
    }
}
