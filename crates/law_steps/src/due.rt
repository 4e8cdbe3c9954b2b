//! What is due at a moment.
ghost use Rattle.law_steps.specs.Due.{EventsComeAfterDue, RunOutsAreExact, TicksDoWhatIsDue};

/// In each step of a node that has started, whatever it holds: a Tick does what is due at its moment, in this order, and nothing else. The
/// connections on which no packet has come for one and a half times their Keep Alive, and no others, get DISCONNECT 0x8D and are closed; wills
/// that are due are published; sessions whose end has come end. Any other event but Started comes after just these acts.
pub fn due_comes_first()
    ensures exact { RunOutsAreExact }
    ensures ticks { TicksDoWhatIsDue }
    ensures events { EventsComeAfterDue }
{}
