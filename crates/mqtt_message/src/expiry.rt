//! When messages expire and wills are published.

ghost use Rattle.std.specs.Prelude.{◌≡◌, ◌<◌, ◌^◌};
ghost use Rattle.mqtt_message.specs.Expiry.{due_of, deadline_after, interval_left};

use mqtt_fields::NEVER_ENDS;
use mqtt_fields::identifier::WILL_DELAY_INTERVAL;
use mqtt_packets::Will;

/// The moment of expiry, for an interval in seconds that begins now.
pub(crate) fn deadline_after(now: u64, interval: Option<u32>) -> Option<u64>
    requires { now < 2 ^ 62 }
    ensures { result ≡ deadline_after now interval }
{
    interval.map(|seconds| now + 1000 * u64::from(seconds))
}

/// The whole seconds to the deadline, rounded up; 0 where it has passed.
pub(crate) fn interval_left(now: u64, deadline: Option<u64>) -> Option<u32>
    ensures { result ≡ interval_left now deadline }
{
    let seconds = deadline?.saturating_sub(now).div_ceil(1000);
    Some(seconds.min(u64::from(u32::MAX)) as u32)
}

/// The moment when the will of a session closed at this one is to be published: after its Will Delay
/// Interval, or when the session ends, whichever is first. `expiry` is the Session Expiry Interval.
pub fn due(will: &Will, closed_at: u64, expiry: u32) -> u64
    requires { closed_at < 2 ^ 62 }
    ensures { result ≡ due_of will.now closed_at expiry }
{
    let delay = will.properties.four(WILL_DELAY_INTERVAL).unwrap_or(0);
    let moment = closed_at + 1000 * u64::from(delay);
    if expiry == NEVER_ENDS {
        return moment;
    }
    moment.min(closed_at + 1000 * u64::from(expiry))
}
