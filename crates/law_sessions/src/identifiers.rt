//! Packet Identifiers (MQTT 5.0, 2.2.1).
ghost use Rattle.law_sessions.specs.Numbers.{KeepsLeast, KeepsNumbers};

/// Unfinished identifiers are distinct, and from 1 to 65,535.
pub fn identifiers_are_distinct()
    ensures { KeepsNumbers }
{}

/// A first send takes the least identifier that is free.
pub fn identifiers_are_least()
    ensures { KeepsLeast }
{}
