//! What becomes of a copy that is queued (MQTT 5.0, 3.3.2.3.3, 3.1.2.11.4, 4.3, 4.4 and 4.6).
ghost use Rattle.law_deliveries.specs.Copies.{KeepsCopies};

/// A copy at QoS 1 or 2 that an event queues waits, from this event on, until one sends it first under an identifier or leaves it out;
/// or the queue is full, and says so. It is left out on an open connection alone, where its deadline has passed or it is longer than the
/// client takes. Once it was sent it is unfinished, until its own answer comes, PUBACK at QoS 1 and PUBREC at QoS 2, by a later event, or
/// it is too long when it is to be sent again.
pub fn copies_go_by_the_rules()
    ensures { KeepsCopies }
{}
