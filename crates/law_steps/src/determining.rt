//! That the laws of an event fix its step.
ghost use Rattle.law_steps.specs.Determining.{LawsDetermine, StepsKeepLaws};

/// Each step of a node keeps the laws of its event, whatever the node holds. They say what is done, and that nothing else is; they don't name the
/// relation that retraces the step.
pub fn steps_keep_laws()
    ensures { StepsKeepLaws }
{}

/// Any two lists of acts that a node may do from what it holds, and that keep the laws of the event, are one, whatever the event. So the same goes out to
/// each client and to each node, in the same order, and the node holds the same afterwards. The node's table is one of homes.
pub fn laws_determine()
    ensures { LawsDetermine }
{}
