//! The latest of the subscriptions that stand at some dots.

ghost use Rattle.std.specs.Prelude.{◌≡◌, ◌+◌, ◌-◌, None};
ghost use Rattle.std.specs.Option.{option_copied};
ghost use Rattle.causal_context.specs.Ranges.{IsFine, IsSound, dots_from, dots_in};
ghost use Rattle.subscription_set.specs.Standing.{find_entry, standing};
ghost use Rattle.bridge_routes.specs.Latest.{IsLatest, beside, is_after, later, latest_from, standing_at};

use causal_context::{Context, Dot, Range};
use std::cmp::Ordering;
use subscription_set::{Entry, SubscriptionSet};

// Whether what stands at a dot is later than what was found, by the version, the number and the node.
fn is_later(subscriptions: &SubscriptionSet, found: Dot, dot: Dot, entry: &Entry) -> bool
    ensures { result ≡ is_after
        (beside found (find_entry found (standing subscriptions.now))) (dot, entry.now) }
{
    match subscriptions.entry(found) {
        None => true,
        Some(first) => first.version().cmp(&entry.version()).then(
            found
                .number()
                .cmp(&dot.number())
                .then(found.node().cmp(&dot.node())),
        ) == Ordering::Less,
    }
}

// The later of what was found and what stands at the dot.
fn later(subscriptions: &SubscriptionSet, found: Option<Dot>, dot: Dot) -> Option<Dot>
    ensures { standing_at (standing subscriptions.now) result
        ≡ later (standing_at (standing subscriptions.now) found) dot (find_entry dot (standing subscriptions.now)) }
{
    let Some(entry) = subscriptions.entry(dot) else {
        return found;
    };
    match found {
        None => Some(dot),
        Some(first) => {
            if is_later(subscriptions, first, dot, entry) {
                Some(dot)
            } else {
                found
            }
        }
    }
}

// The latest of what was found and what stands at the dots of the range.
fn latest_in(subscriptions: &SubscriptionSet, found: Option<Dot>, range: Range) -> Option<Dot>
    requires { IsFine range }
    ensures { standing_at (standing subscriptions.now) result
        ≡ latest_from (standing subscriptions.now) (standing_at (standing subscriptions.now) found)
        (dots_from range.node range.first (range.last + 1 - range.first)) }
{
    let mut latest = found;
    for i in 0..range.last + 1 - range.first {
        let dot = Dot::new(range.node, range.first + i).unwrap();
        latest = later(subscriptions, latest, dot);
    }
    latest
}

// The latest of what stands at the dots of the ranges.
fn latest_among(subscriptions: &SubscriptionSet, ranges: &[Range]) -> Option<Dot>
    requires { IsSound ranges.now }
    ensures { standing_at (standing subscriptions.now) result
        ≡ latest_from (standing subscriptions.now) None (dots_in ranges.now) }
{
    let mut latest = None;
    for range in ranges {
        latest = latest_in(subscriptions, latest, *range);
    }
    latest
}

/// The latest of what stands at the dots.
pub fn latest_at<'a>(subscriptions: &'a SubscriptionSet, dots: &Context) -> Option<&'a Entry>
    ensures { IsLatest (standing subscriptions.now) dots.now (option_copied result) }
{
    match latest_among(subscriptions, dots.ranges()) {
        None => None,
        Some(dot) => subscriptions.entry(dot),
    }
}
