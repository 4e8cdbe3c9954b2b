//! Why a text isn't a topic name or a topic filter.

ghost use Rattle.std.specs.Prelude.{◌≡◌};
ghost use Rattle.mqtt_topics.specs.declared.fault.TopicFault.TheVariants.{NoMemory};

use mqtt_fields::NoMemory as OutOfMemory;

#[derive(Clone, Copy, Debug, PartialEq, Eq)]
pub enum TopicFault {
    /// The text is empty.
    Empty = 1,
    /// After `$share/` the share name is empty or has a wildcard, or no filter follows.
    BadShare,
    /// A wildcard stands in a name, or doesn't fill its level, or `#` isn't the last level.
    Wildcard,
    NoMemory,
}

impl From<OutOfMemory> for TopicFault {
    ghost from_gives = { λ _ e. e ≡ NoMemory };

    fn from(_e: OutOfMemory) -> TopicFault {
        TopicFault::NoMemory
    }
}
