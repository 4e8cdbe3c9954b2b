//! What becomes of a will.
ghost use Rattle.law_steps.specs.Wills.{WillsArePassedOn, WillsStayPassedOn};

/// A will that a session asks its node to pass on, where it is due or its session ends, is passed on directly after that, in the same
/// step, as a message of a PUBLISH is: with RETAIN by a Put, and unless its deadline has passed by its copies and by what joins the lanes
/// to other nodes; one with RETAIN for whose topic there is no room is dropped. In a run its Put stays (MQTT 5.0, 3.1.2.5).
pub fn wills_are_passed_on()
    ensures passed { WillsArePassedOn }
    ensures stays { WillsStayPassedOn }
{}
