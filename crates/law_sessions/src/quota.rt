//! Receive Maximum (MQTT 5.0, 4.9).
ghost use Rattle.law_sessions.specs.Numbers.{KeepsBusy, KeepsQuota};
ghost use Rattle.law_sessions.specs.Quota.{KeepsWithin};

/// At most Receive Maximum PUBLISHes of a connection are unfinished: as the session holds them after each event, and as
/// the packets tell it, after each of them.
pub fn quota_is_kept()
    ensures held { KeepsQuota }
    ensures told { KeepsWithin }
{}

/// Nothing is held back: where the client is connected after an event, and room is left or isn't counted, the quota is full, or no
/// resend is owed and no identifier is free or nothing waits.
pub fn nothing_is_held_back()
    ensures { KeepsBusy }
{}
