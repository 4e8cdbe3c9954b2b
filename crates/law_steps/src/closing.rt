//! What comes of a connection that is opened or closed.
ghost use Rattle.law_steps.specs.Closing.{ClosesAreTold, ConnectionsAreOpened};

/// In each step of a node that has started, whatever it holds, in which a connection is opened: what is due comes first. Then the connection is
/// open, and nothing else is done.
pub fn connections_are_opened()
    ensures { ConnectionsAreOpened }
{}

/// In each step of a node that has started, whatever it holds, to which the end of a connection comes: what is due comes first. Then an open
/// connection is taken out, and where it has a client its session is told, on no connection from then on; nothing else is done of one that has none,
/// and nothing at all of one that isn't open.
pub fn closes_are_told()
    ensures { ClosesAreTold }
{}
