//! What a crash leaves, and what is to be kept.
ghost use Rattle.law_handshakes.specs.Kept.{CrashLeavesWhatIsKept, KeepsAgreed, KeepsTouched};

/// A crash leaves what `from_entries` makes of the entries that were there and of the next place: what is lost is what
/// isn't in them.
pub fn crash_leaves_what_is_kept()
    ensures { CrashLeavesWhatIsKept }
{}

/// The entries of a session that calls have led to, as no connection sent them, don't contradict each other: `from_entries`
/// makes it again of them. Deliveries are offered at QoS 1 or 2, as `offer` demands.
pub fn entries_agree()
    ensures { KeepsAgreed }
{}

/// Over any number of calls each place where what is durable has changed is touched: written from the places that
/// `touched` gives, what is kept is what is there. No other place is touched but where a call changed it and a later
/// one changed it back.
pub fn changes_are_touched()
    ensures { KeepsTouched }
{}
