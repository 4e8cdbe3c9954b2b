//! When something is due of a session.

ghost use Rattle.std.specs.Prelude.{◌≡◌, IfSome};
ghost use Rattle.mqtt_sessions.specs.Saved.{state_of};
ghost use Rattle.session_table.specs.Listing as listing;

use mqtt_sessions::Session;

/// The moments at which something is due of a session.
#[derive(Clone, Copy)]
pub struct Moments {
    /// The Keep Alive of its connection runs out.
    pub run_out: Option<u64>,
    /// Its will is published.
    pub will: Option<u64>,
    /// It ends.
    pub end: Option<u64>,
}

/// Nothing is due.
pub(crate) fn no_moments() -> Moments
    ensures { result ≡ listing.no_moments }
{
    Moments {
        run_out: None,
        will: None,
        end: None,
    }
}

/// The moments of a session whose client is on a connection or not.
pub(crate) fn moments_of(session: &Session, connection: Option<u64>) -> Moments
    ensures { IfSome (state_of session.now) (λ s. result ≡ listing.moments_of s connection) }
{
    let run_out = match connection {
        Some(_) => session.runs_out_at(),
        None => None,
    };
    Moments {
        run_out,
        will: session.will_due(),
        end: session.end_due(),
    }
}
