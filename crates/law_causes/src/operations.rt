//! What the causes of operations come to.
ghost use Rattle.law_causes.specs.Equals.{LastOfEqualsStands};
ghost use Rattle.law_causes.specs.Requests.{CausesHaveOperations};

/// Each cause has its operation. Directly after a call takes a SUBSCRIBE, and asks its node for it, its filters are answered in order,
/// each granted one by one Subscribe of its own, which covers what stood of the client to the filter: so of equal filters none but the
/// last one's stands. An UNSUBSCRIBE has one Remove for each filter of which something stood, a message with RETAIN that a client published
/// one Put, a session that is over and an eviction one Remove, or there is nothing to remove.
pub fn causes_have_operations()
    ensures { CausesHaveOperations }
{}

/// And the last one's does stand. Once the filters of a SUBSCRIBE are answered, of each that is granted, and is the last of those equal to
/// it, the subscription with its options and the packet's identifier is live, by what its node has taken then and by what it holds, and no
/// other one of the client to that filter stands (MQTT 5.0, 3.8.4).
pub fn last_of_equals_stands()
    ensures { LastOfEqualsStands }
{}
