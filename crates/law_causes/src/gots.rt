//! What a Got tells.
ghost use Rattle.law_causes.specs.Gots.{GotStaysTrue};

/// The sender of a Got frame that was released has taken at least as many messages of the receiver's lane as the frame says, in every
/// later world too, and its rows count them, whether it runs or is down.
pub fn got_stays_true()
    ensures { GotStaysTrue }
{}
