//! Values that the tests make.

use mqtt_fields::Text;
use mqtt_topics::{Filter, TopicName};
use std::alloc::Global;
use std::process::Abort;

pub fn name_of(rt: &impl Abort, alloc: Global, text: &str) -> TopicName {
    let text = Text::new(alloc, text).expect(rt, "a text");
    TopicName::parse(alloc, text.as_str()).expect(rt, "a name")
}

pub fn filter_of(rt: &impl Abort, alloc: Global, text: &str) -> Filter {
    let text = Text::new(alloc, text).expect(rt, "a text");
    Filter::parse(alloc, text.as_str()).expect(rt, "a filter")
}

/// Appends a text and a space.
pub fn tell(rt: &impl Abort, told: &mut String, text: &str) {
    told.push_str(text).expect(rt, "memory");
    told.push(' ').expect(rt, "memory");
}
