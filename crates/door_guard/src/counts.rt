//! How many were refused.

ghost use Rattle.std.specs.Prelude.{◌≡◌};
ghost use Rattle.door_guard.specs.Counts.{counted, more, none_refused, refused_by, with_one};
ghost use Rattle.door_guard.specs.Counts.Refusal.{Message};

use door_packets::Step;

/// How many were refused since the program began, each up to the greatest number that there is.
#[derive(Clone, Copy, Debug, PartialEq, Eq)]
pub struct Refusals {
    /// Clients that weren't let in.
    pub connects: u64,
    /// PUBLISHes, those at QoS 0 that were dropped among them.
    pub publishes: u64,
    /// Filters of SUBSCRIBEs.
    pub filters: u64,
    /// Messages that weren't sent, since their receiver may not read them; each of them ended its connection.
    pub messages: u64,
}

/// So many more.
fn more(count: u64, by: usize) -> u64
    ensures { result ≡ more by count }
{
    count.saturating_add(by as u64)
}

impl Refusals {
    /// None.
    pub fn none() -> Refusals
        ensures { result ≡ none_refused }
    {
        Refusals {
            connects: 0,
            publishes: 0,
            filters: 0,
            messages: 0,
        }
    }

    /// This is done.
    pub(crate) fn note(&mut self, step: &Step)
        ensures { self.new ≡ counted (refused_by step.now) self.old }
    {
        match step {
            Step::TurnsAway(_) => self.connects = more(self.connects, 1),
            Step::Acks(_) | Step::Drops | Step::Ends => self.publishes = more(self.publishes, 1),
            Step::Subacks(_, filters) => self.filters = more(self.filters, *filters),
            Step::Asks(_, Some(awaited)) => {
                self.filters = more(self.filters, awaited.codes.refused());
            }
            Step::Asks(_, None) | Step::Opens | Step::Rooms(_) | Step::Tells(_) => {}
        }
    }

    /// A message isn't sent.
    pub(crate) fn note_message(&mut self)
        ensures { self.new ≡ with_one Message self.old }
    {
        self.messages = more(self.messages, 1);
    }
}
