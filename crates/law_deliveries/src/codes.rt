//! SUBACK and UNSUBACK (MQTT 5.0, 3.8 to 3.11).
ghost use Rattle.law_deliveries.specs.Codes.{KeepsAnswers};

/// A SUBSCRIBE or UNSUBSCRIBE is answered once, after it came, by its own packet, with its identifier and one code for each filter,
/// where the server answers with these; no other event brings such a packet.
pub fn codes_answer_what_asked()
    ensures { KeepsAnswers }
{}
