//! Laws of permissions. Each function does nothing: its contract is the law.

ghost use Rattle.mqtt_access.specs.Laws.{CoversAllMatched, FiltersMatchAlike, MeetsSomeMatched, SubscribersMayRead, TopicsAreMatched};

/// Who may subscribe to a filter may read each topic that it matches.
pub fn subscribers_may_read()
    ensures { SubscribersMayRead }
{}

/// A rule passes exactly the topics that its levels match.
pub fn topics_are_matched()
    ensures { TopicsAreMatched }
{}

/// The levels of a filter match what the filter matches.
pub fn filters_match_alike()
    ensures { FiltersMatchAlike }
{}

/// A rule covers a filter exactly where it matches each topic that the filter matches.
pub fn covers_all_matched()
    ensures { CoversAllMatched }
{}

/// A rule meets a filter exactly where some topic is matched by both.
pub fn meets_some_matched()
    ensures { MeetsSomeMatched }
{}
