//! Laws of copies and picks.

ghost use Rattle.bridge_routes.specs.Laws.{CopiesAreDetermined, IdentifiersAscend, OneAscends, PicksAreDetermined};

/// Two lists of copies of one message, by the same live subscriptions, are equal.
pub fn copies_are_determined()
    ensures { CopiesAreDetermined }
{}

/// Two lists of picks for one message at one turn, by the same live subscriptions, are equal.
pub fn picks_are_determined()
    ensures { PicksAreDetermined }
{}

/// The Subscription Identifiers of a copy are those of its subscriptions, ascending, repeats kept (MQTT 5.0, 3.3.4); and of some numbers
/// one list alone is their ascending permutation.
pub fn identifiers_ascend()
    ensures identifiers { IdentifiersAscend }
    ensures one { OneAscends }
{}
