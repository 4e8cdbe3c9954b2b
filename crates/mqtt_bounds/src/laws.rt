//! What holds of every packet. Each function states a law and does nothing.

ghost use Rattle.mqtt_bounds.specs.Laws.{GoesWhereWithin, OnlyWithinGoes};
ghost use Rattle.mqtt_bounds.specs.Refusing.{PublishIsRefused, SubscribeIsRefused};

/// A packet that breaks no limit goes on as it came.
pub fn goes_where_within()
    ensures { GoesWhereWithin }
{}

/// What goes on breaks no limit, whether it came so or not.
pub fn only_within_goes()
    ensures { OnlyWithinGoes }
{}

/// What breaks a limit is refused with its code: a PUBLISH by an acknowledgement or by the end of the connection, a SUBSCRIBE by a SUBACK whose codes
/// stand in the order of its filters.
pub fn refused_with_its_code()
    ensures publish { PublishIsRefused }
    ensures subscribe { SubscribeIsRefused }
{}
