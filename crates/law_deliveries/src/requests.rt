//! Answers to SUBSCRIBE and UNSUBSCRIBE.
ghost use Rattle.law_deliveries.specs.Requests.{KeepsRequests};

/// A SUBSCRIBE or UNSUBSCRIBE of a connected client asks the server, unless an exchange is open under its Packet Identifier: then it is
/// answered by Packet Identifier in use for each filter, or its connection ends where that is too long for the client. A SUBSCRIBE
/// with No Local on a shared filter is left out here.
pub fn requests_are_asked()
    ensures { KeepsRequests }
{}
