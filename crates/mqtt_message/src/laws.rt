//! What holds of all messages and deliveries. The functions do nothing: their contracts are the laws.

ghost use Rattle.mqtt_message.specs.Laws.{ReadAsSpelled, SpelledIsAcceptable, SentIsSpelled};

/// What is read is spelled so, and what is spelled so is read again, whatever follows.
pub fn read_as_spelled()
    ensures { ReadAsSpelled }
{}

/// A message can be made of a PUBLISH that has a spelling, under any topic name.
pub fn spelled_is_acceptable()
    ensures { SpelledIsAcceptable }
{}

/// The PUBLISH that sends a delivery has a spelling exactly where its Packet Identifier is 0 at QoS 0 and
/// not 0 above, DUP isn't set at QoS 0, and it has at most 268,435,460 bytes: then it is sent, and
/// one that is longer is too large for any client.
pub fn sent_is_spelled()
    ensures { SentIsSpelled }
{}
