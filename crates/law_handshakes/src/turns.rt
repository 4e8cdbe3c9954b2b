//! Which PUBLISH is next.
ghost use Rattle.law_handshakes.specs.Turns.{NextIsATurn};

/// What `next` comes to is one of five. The quota is full, and nothing changes. Or exchanges have their turn that an earlier
/// connection sent: the first that isn't too long is sent again, and those before it end. Where all of these are too long they
/// end, and then no Packet Identifier is free; or the queue has its turn: the first copy that is neither late nor too long is sent
/// under the least identifier that is free, and those before it are left out; or all of the queue is.
pub fn next_is_a_turn()
    ensures { NextIsATurn }
{}
