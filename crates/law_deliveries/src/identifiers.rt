//! Packet Identifiers (MQTT 5.0, 2.2.1).
ghost use Rattle.law_deliveries.specs.Identifiers.{KeepsApart, KeepsLeastEach};

/// What is sent first takes the least identifier from 1 that is free at that moment, packet by packet: of each lesser one an exchange
/// goes on, and of it none that this connection sent.
pub fn identifiers_are_least_each()
    ensures { KeepsLeastEach }
{}

/// What was sent first and has not ended has distinct identifiers from 1 to 65,535, and none of an exchange that is released, as
/// events tell it.
pub fn identifiers_are_apart()
    ensures { KeepsApart }
{}
