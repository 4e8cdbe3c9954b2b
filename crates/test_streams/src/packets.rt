//! Packets that a client may send once it is accepted, whole and with one byte of them wrong, and what MQTT 5.0 answers to each.

use crate::changes::bytes_of;
use crate::streams::{CLIENT, connect, leave};
use std::alloc::Global;
use std::process::Abort;
use trial_streams::{Said, Stage, Told};

/// What is sent on a connection of its own, and what goes out: packets by their names and Reason Codes, and the close.
const ROWS: [(&str, &str, &str); 65] = [
    // PUBLISH (3.3).
    ("PUBLISH at QoS 0", "30050001740078", ""),
    ("PUBLISH at QoS 1", "320700017400010078", "PUBACK 00"),
    ("PUBLISH at QoS 2", "340700017400020078", "PUBREC 00"),
    (
        "PUBLISH with DUP at QoS 0 [MQTT-3.3.1-2]",
        "38050001740078",
        "DISCONNECT 81, close",
    ),
    (
        "PUBLISH at QoS 3 [MQTT-3.3.1-4]",
        "360700017400020078",
        "DISCONNECT 81, close",
    ),
    (
        "PUBLISH at QoS 1 under the identifier 0 [MQTT-2.2.1-3]",
        "320700017400000078",
        "DISCONNECT 82, close",
    ),
    (
        "PUBLISH at QoS 2 under the identifier 0 [MQTT-2.2.1-3]",
        "340700017400000078",
        "DISCONNECT 82, close",
    ),
    (
        "PUBLISH with a wildcard in its topic [MQTT-3.3.2-2]",
        "320700012300010078",
        "DISCONNECT 90, close",
    ),
    (
        "PUBLISH with a Topic Alias, and then under it alone",
        "30080001740323000178 300700000323000179",
        "",
    ),
    (
        "PUBLISH with the Topic Alias 0 [MQTT-3.3.2-8]",
        "30080001740323000078",
        "DISCONNECT 94, close",
    ),
    (
        "PUBLISH with a Topic Alias above the maximum [MQTT-3.3.2-9]",
        "30080001740323001178",
        "DISCONNECT 94, close",
    ),
    (
        "PUBLISH under a Topic Alias that wasn't set (3.3.4)",
        "300700000323000179",
        "DISCONNECT 82, close",
    ),
    (
        "PUBLISH with a Subscription Identifier [MQTT-3.3.4-6]",
        "3007000174020b0178",
        "DISCONNECT 82, close",
    ),
    // PUBACK (3.4), for a message that the client was sent, and for none.
    (
        "PUBACK for its message",
        "820700010000017401 320700017400010078 40020001",
        "SUBACK 01, PUBACK 00, PUBLISH",
    ),
    (
        "PUBACK with a failure",
        "820700010000017401 320700017400010078 4003000197",
        "SUBACK 01, PUBACK 00, PUBLISH",
    ),
    ("PUBACK for no message", "40020007", ""),
    (
        "PUBACK with wrong flags [MQTT-2.1.3-1]",
        "41020007",
        "DISCONNECT 81, close",
    ),
    (
        "PUBACK for the identifier 0 [MQTT-2.2.1-3]",
        "40020000",
        "DISCONNECT 82, close",
    ),
    // PUBREC (3.5, 4.3.3).
    (
        "PUBREC for its message",
        "820700010000017402 340700017400010078 50020001",
        "SUBACK 02, PUBREC 00, PUBLISH, PUBREL 00",
    ),
    (
        "PUBREC with a failure",
        "820700010000017402 340700017400010078 5003000197",
        "SUBACK 02, PUBREC 00, PUBLISH",
    ),
    ("PUBREC for no message", "50020007", "PUBREL 92"),
    (
        "PUBREC with wrong flags [MQTT-2.1.3-1]",
        "51020007",
        "DISCONNECT 81, close",
    ),
    (
        "PUBREC for the identifier 0 [MQTT-2.2.1-3]",
        "50020000",
        "DISCONNECT 82, close",
    ),
    // PUBREL (3.6, 4.3.3).
    (
        "PUBREL for its message",
        "340700017400020078 62020002",
        "PUBREC 00, PUBCOMP 00",
    ),
    (
        "PUBREL under another identifier",
        "340700017400020078 62020003",
        "PUBREC 00, PUBCOMP 92",
    ),
    ("PUBREL for no message", "62020007", "PUBCOMP 92"),
    (
        "PUBREL with wrong flags [MQTT-3.6.1-1]",
        "60020007",
        "DISCONNECT 81, close",
    ),
    (
        "PUBREL for the identifier 0 [MQTT-2.2.1-3]",
        "62020000",
        "DISCONNECT 82, close",
    ),
    // PUBCOMP (3.7, 4.3.3).
    (
        "PUBCOMP for its message",
        "820700010000017402 340700017400010078 50020001 70020001",
        "SUBACK 02, PUBREC 00, PUBLISH, PUBREL 00",
    ),
    ("PUBCOMP for no message", "70020007", ""),
    (
        "PUBCOMP with wrong flags [MQTT-2.1.3-1]",
        "72020007",
        "DISCONNECT 81, close",
    ),
    (
        "PUBCOMP for the identifier 0 [MQTT-2.2.1-3]",
        "70020000",
        "DISCONNECT 82, close",
    ),
    // SUBSCRIBE (3.8), with QoS 1, No Local, Retain As Published and Retain Handling 2.
    (
        "SUBSCRIBE with all options",
        "82070001000001742d",
        "SUBACK 01",
    ),
    (
        "SUBSCRIBE with them and a Subscription Identifier",
        "82090001020b050001742d",
        "SUBACK 01",
    ),
    (
        "SUBSCRIBE to a text that is no filter [MQTT-4.7.1-1]",
        "8208000100000274230d",
        "SUBACK 8f",
    ),
    (
        "SUBSCRIBE with wrong flags [MQTT-3.8.1-1]",
        "80070001000001742d",
        "DISCONNECT 81, close",
    ),
    (
        "SUBSCRIBE with the first reserved bit [MQTT-3.8.3-5]",
        "82070001000001746d",
        "DISCONNECT 81, close",
    ),
    (
        "SUBSCRIBE with the second reserved bit [MQTT-3.8.3-5]",
        "8207000100000174ad",
        "DISCONNECT 81, close",
    ),
    (
        "SUBSCRIBE with QoS 3 (3.8.3.1)",
        "82070001000001742f",
        "DISCONNECT 82, close",
    ),
    (
        "SUBSCRIBE with Retain Handling 3 (3.8.3.1)",
        "82070001000001743d",
        "DISCONNECT 82, close",
    ),
    (
        "SUBSCRIBE with No Local on a shared filter [MQTT-3.8.3-4]",
        "8210000100000a2473686172652f672f7404",
        "DISCONNECT 82, close",
    ),
    (
        "SUBSCRIBE with the Subscription Identifier 0 (3.8.2.1.2)",
        "82090001020b000001742d",
        "DISCONNECT 82, close",
    ),
    (
        "SUBSCRIBE under the identifier 0 [MQTT-2.2.1-3]",
        "82070000000001742d",
        "DISCONNECT 82, close",
    ),
    // UNSUBSCRIBE (3.10).
    (
        "UNSUBSCRIBE from what was subscribed to",
        "820700010000017400 a206000200000174",
        "SUBACK 00, UNSUBACK 00",
    ),
    (
        "UNSUBSCRIBE from another filter",
        "820700010000017400 a206000200000175",
        "SUBACK 00, UNSUBACK 11",
    ),
    (
        "UNSUBSCRIBE with wrong flags [MQTT-3.10.1-1]",
        "a006000200000174",
        "DISCONNECT 81, close",
    ),
    (
        "UNSUBSCRIBE without a filter [MQTT-3.10.3-2]",
        "a203000200",
        "DISCONNECT 82, close",
    ),
    (
        "UNSUBSCRIBE under the identifier 0 [MQTT-2.2.1-3]",
        "a206000000000174",
        "DISCONNECT 82, close",
    ),
    // PINGREQ (3.12).
    ("PINGREQ as it is", "c000", "PINGRESP"),
    (
        "PINGREQ with wrong flags [MQTT-2.1.3-1]",
        "c100",
        "DISCONNECT 81, close",
    ),
    (
        "PINGREQ with a byte after its length",
        "c00100",
        "DISCONNECT 81, close",
    ),
    // DISCONNECT (3.14). What follows isn't looked at.
    ("DISCONNECT with no reason", "e000 c000", "close"),
    ("DISCONNECT with a will to be sent", "e00104 c000", "close"),
    (
        "DISCONNECT for Receive Maximum exceeded",
        "e00193 c000",
        "close",
    ),
    ("DISCONNECT for Packet too large", "e00195 c000", "close"),
    (
        "DISCONNECT with wrong flags [MQTT-3.14.1-1]",
        "e100",
        "DISCONNECT 81, close",
    ),
    (
        "DISCONNECT with a session that lasts after one that didn't (3.14.2.2.2)",
        "e0070005110000000a",
        "DISCONNECT 82, close",
    ),
    // AUTH (3.15), of a client whose CONNECT had no Authentication Method (4.12).
    (
        "AUTH that goes on",
        "f00618041500016d",
        "DISCONNECT 82, close",
    ),
    ("AUTH with no reason", "f000", "DISCONNECT 82, close"),
    (
        "AUTH with wrong flags [MQTT-3.15.1-1]",
        "f10618041500016d",
        "DISCONNECT 81, close",
    ),
    // Packets that it may not send: a second CONNECT [MQTT-3.1.0-2], and those of a server.
    (
        "CONNECT",
        "100e00044d5154540502003c00000161",
        "DISCONNECT 82, close",
    ),
    ("CONNACK", "2003000000", "DISCONNECT 82, close"),
    ("SUBACK", "900400010000", "DISCONNECT 82, close"),
    ("UNSUBACK", "b00400020011", "DISCONNECT 82, close"),
    ("PINGRESP", "d000", "DISCONNECT 82, close"),
];

/// The names of the packets by their types (2.1.2).
const NAMES: [&str; 16] = [
    "",
    "CONNECT",
    "CONNACK",
    "PUBLISH",
    "PUBACK",
    "PUBREC",
    "PUBREL",
    "PUBCOMP",
    "SUBSCRIBE",
    "SUBACK",
    "UNSUBSCRIBE",
    "UNSUBACK",
    "PINGREQ",
    "PINGRESP",
    "DISCONNECT",
    "AUTH",
];

const PUBLISH: u8 = 3;

const PINGRESP: u8 = 13;

/// Whether packets of a type have a Reason Code.
fn has_code(kind: u8) -> bool {
    kind != PUBLISH && kind != PINGRESP
}

fn word_of(rt: &impl Abort, alloc: Global, said: Said) -> String {
    let word = match said {
        Said::Packet { kind, code } => {
            let name = NAMES.get(kind as usize).copied().unwrap_or("");
            if has_code(kind) {
                format!(in alloc; "{name} {code:02x}")
            } else {
                format!(in alloc; "{name}")
            }
        }
        Said::Close => format!(in alloc; "close"),
        Said::Frame => format!(in alloc; "a frame"),
    };
    word.expect(rt, "memory")
}

/// What goes out on the connection of the client, which is all that goes out.
fn answer_of(rt: &impl Abort, alloc: Global, told: &[Told]) -> String {
    let mut answer = String::new(alloc);
    for each in told {
        assert!(rt; each.connection == CLIENT);
        let between = if answer.is_empty() { "" } else { ", " };
        answer.push_str(between).expect(rt, "memory");
        let word = word_of(rt, alloc, each.said);
        answer.push_str(word.as_str()).expect(rt, "memory");
    }
    answer
}

/// The client sends this, and what goes out is this. The witness is served after it.
fn is_answered(
    rt: &impl Abort,
    alloc: Global,
    stage: &mut Stage,
    sent: &str,
    answer: &str,
) -> bool {
    connect(rt, alloc, stage, true);
    let bytes = bytes_of(rt, alloc, sent);
    let told = stage.take(CLIENT, &bytes).expect(rt, "a node that goes on");
    let found = answer_of(rt, alloc, &told);
    leave(rt, alloc, stage, answer.ends_with("close"));
    found.as_str() == answer && stage.look().is_ok()
}

#[test]
fn a_packet_of_a_session_is_answered_as_the_standard_says(rt: HostRuntime) {
    let alloc = rt.alloc();
    let mut stage = Stage::open(alloc, 1).expect(&rt, "a node");
    for (what, sent, answer) in ROWS {
        assert!(rt; is_answered(&rt, alloc, &mut stage, sent, answer), "{what}");
    }
}
