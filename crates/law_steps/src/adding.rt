//! What joins queues and lanes, and what it is of.
ghost use Rattle.law_steps.specs.Adding.{NothingIsAdded};
ghost use Rattle.law_steps.specs.Offering.{OffersAreAskedFor, OffersOfRunsAreAskedFor};

/// In every step, whatever the node holds, nothing is added. What joins the queue of a session is one of the copies of the message that was passed
/// on, or taken of a lane, directly before, or one of the offers of the SUBSCRIBE that was answered directly before; each of these once, in order.
/// What joins the lane to another node is a route of such a message, each once. A message is passed on directly after a call that asks for that,
/// but for its Put, and so once for it; and offers are made directly after the call that gives their SUBACK its codes.
pub fn nothing_is_added()
    ensures { NothingIsAdded }
{}

/// In every step, and so in every step of a run: retained messages are offered only to a session whose client has asked for them in that step. Directly
/// before stand the calls of one SUBSCRIBE: one takes that packet and asks the node for it, then its Subscribes are made, and one gives its codes. So
/// they are offered once for each SUBSCRIBE, and never at a CONNECT (MQTT 5.0, 3.3.1.3, 3.8.3.1 and 3.8.4).
pub fn offers_are_asked_for()
    ensures step { OffersAreAskedFor }
    ensures run { OffersOfRunsAreAskedFor }
{}
