//! What a move takes of subscriptions.
ghost use Rattle.law_steps.specs.Standing.{MovesTakeTheOlder};

/// Where a step takes a table of homes, nothing stands afterwards of a client that goes, of what it subscribed under an older version; and
/// what was subscribed under the table's version or a newer one, or by a client that doesn't go, stands as before. So it is in every run, by
/// the operations that the node has taken (MQTT 5.0, 3.1.2.11.2 and 4.11).
pub fn moves_take_the_older()
    ensures { MovesTakeTheOlder }
{}
