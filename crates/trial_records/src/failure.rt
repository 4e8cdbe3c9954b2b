//! What is wrong with a run of which an allocation is refused.

ghost use Rattle.std.specs.Prelude.{◌≡◌, true, OnOk};

/// What is wrong with a run of which an allocation is refused.
#[derive(Clone, Copy, PartialEq, Eq)]
pub enum Failure {
    /// It can't be played.
    Unready,
    /// It gives something else, though no node has stopped.
    Other,
    /// It wants memory, and none was refused.
    Unrefused,
    /// What wanted memory doesn't answer that it has stopped.
    Unstopped,
    /// The rows aren't those of before.
    Changed,
    /// Opened again, it doesn't go on as after a crash.
    Onward,
}

impl Failure {
    pub fn text(self) -> &'static str {
        match self {
            Failure::Unready => "it can't be played",
            Failure::Other => "something else is given out",
            Failure::Unrefused => "NoMemory, and none was refused",
            Failure::Unstopped => "the next call isn't answered by Stopped or Spent",
            Failure::Changed => "the rows aren't those of before",
            Failure::Onward => "opened again, it doesn't go on as after a crash",
        }
    }
}

/// This is what is wrong, unless it holds.
pub fn ensure(holds: bool, failure: Failure) -> Result<(), Failure>
    ensures { OnOk result (holds ≡ true) }
{
    if holds { Ok(()) } else { Err(failure) }
}
