//! What is told to a client that publishes.
ghost use Rattle.law_runs.specs.StepPublishing.{AcceptedIsPassedOn, PubackTells, PubrecTells};

/// A session that answers PUBACK 0x00 asks its node to pass the message of that PUBLISH on; one that answers PUBREC 0x00 asks
/// so too, unless the exchange was open already (MQTT 5.0, 4.3.2 and 4.3.3).
pub fn acknowledged_is_accepted()
    ensures once { PubackTells }
    ensures twice { PubrecTells }
{}

/// What a session asks a node to pass on when it takes a PUBLISH is passed on directly after that, in the same step: with RETAIN
/// by a Put of its content (3.3.1.3), and unless its deadline has passed by copies that join their sessions at once (3.3.4), and by
/// messages that join the lanes to the other nodes where a client has its home that is to have it; where a lane is full, that is
/// left out.
pub fn accepted_is_passed_on()
    ensures { AcceptedIsPassedOn }
{}
