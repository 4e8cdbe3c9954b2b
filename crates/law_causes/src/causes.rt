//! The causes of operations, and of what is passed on.
ghost use Rattle.law_causes.specs.Causes.{OperationsHaveCauses};
ghost use Rattle.law_causes.specs.Ends.{EndsHaveRemoves, EvictionsHaveRemoves};
ghost use Rattle.law_causes.specs.Expiring.{ExpiredGoNoFurther};

/// Each operation that a step makes has one of five causes, and the content that this gives it: a filter of a SUBSCRIBE or of an
/// UNSUBSCRIBE that a call took, a message with RETAIN that a call asks to pass on, a will or not, a session that is over directly after
/// it, or the eviction of a client. Nothing else makes one.
pub fn operations_have_causes()
    ensures { OperationsHaveCauses }
{}

/// Directly before a session is over, in the same step, one Remove takes exactly what its client subscribed to under the version of the
/// node's table of homes or an older one, or where its home is elsewhere under an older one; or nothing of that stands. The last act of
/// a step in which a node that has started evicts a client is one Remove of exactly all that stands of it, or nothing of it stands.
pub fn ends_have_removes()
    ensures over { EndsHaveRemoves }
    ensures eviction { EvictionsHaveRemoves }
{}

/// In each step of a node, whatever it holds: a message is passed on only before its deadline, if it has one, at the node's moment. So once that
/// has come no copy of it is made here, and nothing of it goes to other nodes.
pub fn expired_go_no_further()
    ensures { ExpiredGoNoFurther }
{}
