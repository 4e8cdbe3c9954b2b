//! Which of two retained entries is the greater.
ghost use Rattle.std.specs.Prelude.{◌≡◌};
ghost use Rattle.std.specs.Option.{option_cmp, option_copied};
ghost use Rattle.mqtt_message.specs.Order.{message_cmp};

use mqtt_message::SharedMessage;
use std::cmp::Ordering;

pub fn compare_contents(a: Option<&SharedMessage>, b: Option<&SharedMessage>) -> Ordering
    ensures { result ≡ option_cmp message_cmp (option_copied a.entry) (option_copied b.entry) }
{
    match (a, b) {
        (None, None) => Ordering::Equal,
        (None, Some(_)) => Ordering::Less,
        (Some(_), None) => Ordering::Greater,
        (Some(a), Some(b)) => a.message().compare(b.message()),
    }
}
