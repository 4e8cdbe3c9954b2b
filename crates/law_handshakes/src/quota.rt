//! Receive Maximum (MQTT 5.0, 4.9).
ghost use Rattle.law_handshakes.specs.Quota.{KeepsBusy, KeepsQuota, KeepsWithin};

/// At each point at most Receive Maximum PUBLISHes of this connection are unfinished: as the session holds them, and as
/// the calls tell it.
pub fn quota_is_kept()
    ensures held { KeepsQuota }
    ensures told { KeepsWithin }
{}

/// Nothing is held back: where `next` gives nothing, the quota is full, or no resend is owed and no identifier is free
/// or nothing waits.
pub fn nothing_is_held_back()
    ensures { KeepsBusy }
{}
