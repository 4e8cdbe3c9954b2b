//! A session that is opened from its rows.
ghost use Rattle.law_sessions.specs.Reopened.{ReopensAsLost};

/// A session that is opened from its rows is what a crash leaves of it: what outlives its connections, and no connection.
pub fn reopens_as_lost()
    ensures { ReopensAsLost }
{}
