//! Nothing is held back (MQTT 5.0, 4.4 and 4.9).
ghost use Rattle.law_deliveries.specs.Busy.{KeepsBusyTold};

/// After each event on an open connection, where room is left or isn't counted, the quota is full; or nothing is to be sent again, and
/// each identifier has an exchange that goes on or nothing waits, as events tell it.
pub fn nothing_is_held_back_told()
    ensures { KeepsBusyTold }
{}
