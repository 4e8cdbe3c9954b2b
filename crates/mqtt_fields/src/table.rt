//! The table of properties: their types, and where they may stand (MQTT 5.0, 2.2.2.2).

ghost use Rattle.std.specs.Prelude.{◌≡◌, ◌==◌, IsTrue, find};
ghost use Rattle.mqtt_fields.specs.Table.{bit_of, entry_of, is_here, is_indexed};

use crate::identifier::{
    ASSIGNED_CLIENT_IDENTIFIER, AUTHENTICATION_DATA, AUTHENTICATION_METHOD, CONTENT_TYPE,
    CORRELATION_DATA, MAXIMUM_PACKET_SIZE, MAXIMUM_QOS, MESSAGE_EXPIRY_INTERVAL,
    PAYLOAD_FORMAT_INDICATOR, REASON_STRING, RECEIVE_MAXIMUM, REQUEST_PROBLEM_INFORMATION,
    REQUEST_RESPONSE_INFORMATION, RESPONSE_INFORMATION, RESPONSE_TOPIC, RETAIN_AVAILABLE,
    SERVER_KEEP_ALIVE, SERVER_REFERENCE, SESSION_EXPIRY_INTERVAL, SHARED_SUBSCRIPTION_AVAILABLE,
    SUBSCRIPTION_IDENTIFIER, SUBSCRIPTION_IDENTIFIER_AVAILABLE, TOPIC_ALIAS, TOPIC_ALIAS_MAXIMUM,
    USER_PROPERTY, WILDCARD_SUBSCRIPTION_AVAILABLE, WILL_DELAY_INTERVAL,
};

/// Where a property block stands: a kind of packet that has properties, or the Will of a CONNECT.
#[derive(Clone, Copy, Debug, PartialEq, Eq)]
pub enum Place {
    Connect,
    Connack,
    Publish,
    Puback,
    Pubrec,
    Pubrel,
    Pubcomp,
    Subscribe,
    Suback,
    Unsubscribe,
    Unsuback,
    Disconnect,
    Auth,
    Will,
}

// A bit for each place.
const CONNECT: u16 = 1;

const CONNACK: u16 = 2;

const PUBLISH: u16 = 4;

const PUBACK: u16 = 8;

const PUBREC: u16 = 16;

const PUBREL: u16 = 32;

const PUBCOMP: u16 = 64;

const SUBSCRIBE: u16 = 128;

const SUBACK: u16 = 256;

const UNSUBSCRIBE: u16 = 512;

const UNSUBACK: u16 = 1024;

const DISCONNECT: u16 = 2048;

const AUTH: u16 = 4096;

const WILL: u16 = 8192;

const EVERYWHERE: u16 = 16383;

impl Place {
    /// Its bit in a line of the table.
    pub(crate) fn bit(self) -> u16
        ensures { result ≡ bit_of self }
    {
        match self {
            Place::Connect => CONNECT,
            Place::Connack => CONNACK,
            Place::Publish => PUBLISH,
            Place::Puback => PUBACK,
            Place::Pubrec => PUBREC,
            Place::Pubrel => PUBREL,
            Place::Pubcomp => PUBCOMP,
            Place::Subscribe => SUBSCRIBE,
            Place::Suback => SUBACK,
            Place::Unsubscribe => UNSUBSCRIBE,
            Place::Unsuback => UNSUBACK,
            Place::Disconnect => DISCONNECT,
            Place::Auth => AUTH,
            Place::Will => WILL,
        }
    }
}

/// The type of a property's value (MQTT 5.0, 1.5 and 2.2.2.2).
#[derive(Clone, Copy, Debug, PartialEq, Eq)]
pub enum ValueKind {
    /// Byte.
    Byte,
    /// Two Byte Integer.
    Two,
    /// Four Byte Integer.
    Four,
    /// Variable Byte Integer.
    Vbi,
    /// UTF-8 Encoded String.
    Text,
    /// Binary Data.
    Blob,
    /// UTF-8 String Pair.
    Pair,
}

/// A line of the table: a property's identifier, its type, and where it may stand, a bit for each
/// place.
#[derive(Clone, Copy, Debug)]
pub struct Entry {
    pub id: u8,
    pub kind: ValueKind,
    pub places: u16,
}

/// Each property once, by rising identifier.
pub const TABLE: [Entry; 27] = [
    Entry {
        id: PAYLOAD_FORMAT_INDICATOR,
        kind: ValueKind::Byte,
        places: PUBLISH | WILL,
    },
    Entry {
        id: MESSAGE_EXPIRY_INTERVAL,
        kind: ValueKind::Four,
        places: PUBLISH | WILL,
    },
    Entry {
        id: CONTENT_TYPE,
        kind: ValueKind::Text,
        places: PUBLISH | WILL,
    },
    Entry {
        id: RESPONSE_TOPIC,
        kind: ValueKind::Text,
        places: PUBLISH | WILL,
    },
    Entry {
        id: CORRELATION_DATA,
        kind: ValueKind::Blob,
        places: PUBLISH | WILL,
    },
    Entry {
        id: SUBSCRIPTION_IDENTIFIER,
        kind: ValueKind::Vbi,
        places: PUBLISH | SUBSCRIBE,
    },
    Entry {
        id: SESSION_EXPIRY_INTERVAL,
        kind: ValueKind::Four,
        places: CONNECT | CONNACK | DISCONNECT,
    },
    Entry {
        id: ASSIGNED_CLIENT_IDENTIFIER,
        kind: ValueKind::Text,
        places: CONNACK,
    },
    Entry {
        id: SERVER_KEEP_ALIVE,
        kind: ValueKind::Two,
        places: CONNACK,
    },
    Entry {
        id: AUTHENTICATION_METHOD,
        kind: ValueKind::Text,
        places: CONNECT | CONNACK | AUTH,
    },
    Entry {
        id: AUTHENTICATION_DATA,
        kind: ValueKind::Blob,
        places: CONNECT | CONNACK | AUTH,
    },
    Entry {
        id: REQUEST_PROBLEM_INFORMATION,
        kind: ValueKind::Byte,
        places: CONNECT,
    },
    Entry {
        id: WILL_DELAY_INTERVAL,
        kind: ValueKind::Four,
        places: WILL,
    },
    Entry {
        id: REQUEST_RESPONSE_INFORMATION,
        kind: ValueKind::Byte,
        places: CONNECT,
    },
    Entry {
        id: RESPONSE_INFORMATION,
        kind: ValueKind::Text,
        places: CONNACK,
    },
    Entry {
        id: SERVER_REFERENCE,
        kind: ValueKind::Text,
        places: CONNACK | DISCONNECT,
    },
    Entry {
        id: REASON_STRING,
        kind: ValueKind::Text,
        places: CONNACK
            | PUBACK
            | PUBREC
            | PUBREL
            | PUBCOMP
            | SUBACK
            | UNSUBACK
            | DISCONNECT
            | AUTH,
    },
    Entry {
        id: RECEIVE_MAXIMUM,
        kind: ValueKind::Two,
        places: CONNECT | CONNACK,
    },
    Entry {
        id: TOPIC_ALIAS_MAXIMUM,
        kind: ValueKind::Two,
        places: CONNECT | CONNACK,
    },
    Entry {
        id: TOPIC_ALIAS,
        kind: ValueKind::Two,
        places: PUBLISH,
    },
    Entry {
        id: MAXIMUM_QOS,
        kind: ValueKind::Byte,
        places: CONNACK,
    },
    Entry {
        id: RETAIN_AVAILABLE,
        kind: ValueKind::Byte,
        places: CONNACK,
    },
    Entry {
        id: USER_PROPERTY,
        kind: ValueKind::Pair,
        places: EVERYWHERE,
    },
    Entry {
        id: MAXIMUM_PACKET_SIZE,
        kind: ValueKind::Four,
        places: CONNECT | CONNACK,
    },
    Entry {
        id: WILDCARD_SUBSCRIPTION_AVAILABLE,
        kind: ValueKind::Byte,
        places: CONNACK,
    },
    Entry {
        id: SUBSCRIPTION_IDENTIFIER_AVAILABLE,
        kind: ValueKind::Byte,
        places: CONNACK,
    },
    Entry {
        id: SHARED_SUBSCRIPTION_AVAILABLE,
        kind: ValueKind::Byte,
        places: CONNACK,
    },
];

/// By identifier: its line in the table. An identifier that has no line is given the first.
const LINES: [u8; 43] = [
    0, 0, 1, 2, 0, 0, 0, 0, 3, 4, 0, 5, 0, 0, 0, 0, 0, 6, 7, 8, 0, 9, 10, 11, 12, 13, 14, 0, 15, 0,
    0, 16, 0, 17, 18, 19, 20, 21, 22, 23, 24, 25, 26,
];

/// The line of an identifier, in a table that is indexed by these numbers.
fn line_of(table: &[Entry], lines: &[u8], id: u8) -> Option<Entry>
    requires { IsTrue (is_indexed 0 table.now lines.now) }
    ensures { result ≡ find (λ e. e.id == id) table.now }
{
    let id_index = id as usize;
    if id_index >= lines.len() {
        return None;
    }
    let line = lines[id_index] as usize;
    if line >= table.len() {
        return None;
    }
    let entry = table[line];
    if entry.id == id { Some(entry) } else { None }
}

/// The line of an identifier, if there is such a property.
#[tactic(auto, unfolding(crate::specs::Table::entry_of))]
pub(crate) fn entry_of(id: u8) -> Option<Entry>
    ensures { result ≡ entry_of id }
{
    line_of(&TABLE, &LINES, id)
}

/// Whether the property of this line may stand here.
#[tactic(auto, unfolding(crate::specs::Table::is_here))]
pub(crate) fn is_here(entry: Entry, place: Place) -> bool
    ensures { result ≡ is_here entry place }
{
    entry.places & place.bit() != 0
}
