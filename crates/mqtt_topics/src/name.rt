//! Topic names.

ghost use Rattle.std.specs.Prelude.{◌≡◌, ◌⊎◌, IfOk, IfErr, OnOk, List, ℕ};
ghost use Rattle.mqtt_fields.specs.Numbers.{IsText};
ghost use Rattle.mqtt_topics.specs.Topics.{IsName, IsNameFault};

use crate::fault::TopicFault;
use crate::levels::has_wildcard;
use mqtt_fields::{NoMemory, Text};
use std::alloc::Global;
use std::marker::Model;

/// A topic name: a text of at least one character without wildcards (MQTT 5.0, 4.7.3).
#[derive(Debug, Drop, PartialEq, Eq, PartialOrd, Ord)]
pub struct TopicName {
    text: Text,
}

impl Model for TopicName {
    ghost Value = { List ℕ };

    ghost view = { λ n. n.text };

    ghost invariant = { λ n. IsName n.text };

    ghost inverse = { λ text. record { text = text } };
}

/// Why a text is no topic name.
fn check(text: &str) -> Result<(), TopicFault>
    requires { IsText text.now }
    ensures name { OnOk result (IsName text.now) }
    ensures fault { IfErr result (λ e. IsNameFault text.now e) }
{
    if text.is_empty() {
        return Err(TopicFault::Empty);
    }
    if has_wildcard(text) {
        return Err(TopicFault::Wildcard);
    }
    Ok(())
}

impl TopicName {
    /// The text as a topic name. Its fault is found before memory is asked for.
    pub fn parse(alloc: Global, text: &str) -> Result<TopicName, TopicFault>
        requires { IsText text.now }
        ensures name { IfOk result (λ n. (n ≡ text.now) × IsName text.now) }
        ensures fault { IfErr result (λ e. IsNameFault text.now e ⊎ ((e ≡ TopicFault.NoMemory) × IsName text.now)) }
    {
        check(text)?;
        let Ok(text) = Text::new(alloc, text) else {
            return Err(TopicFault::NoMemory);
        };
        Ok(TopicName { text })
    }

    /// The text as a topic name, which shares its bytes. Its fault is found before memory is asked for.
    pub fn of_text(alloc: Global, text: &Text) -> Result<TopicName, TopicFault>
        ensures name { IfOk result (λ n. (n ≡ text.now) × IsName text.now) }
        ensures fault { IfErr result (λ e. IsNameFault text.now e ⊎ ((e ≡ TopicFault.NoMemory) × IsName text.now)) }
    {
        check(text.as_str())?;
        let Ok(text) = text.copy(alloc) else {
            return Err(TopicFault::NoMemory);
        };
        Ok(TopicName { text })
    }

    pub fn as_str(&self) -> &str
        ensures same { result.now ≡ self.now }
        ensures name { IsName self.now }
    {
        self.text.as_str()
    }

    /// The name as a text, by which it is written.
    pub fn as_text(&self) -> &Text
        ensures same { result.now ≡ self.now }
        ensures name { IsName self.now }
    {
        &self.text
    }

    /// The same name once more, which shares its bytes.
    pub fn copy(&self, alloc: Global) -> Result<TopicName, NoMemory>
        ensures { IfOk result (λ n. n ≡ self.now) }
    {
        let text = self.text.copy(alloc)?;
        Ok(TopicName { text })
    }
}
