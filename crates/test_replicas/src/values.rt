//! Values that the tests make.

use causal_context::{Context, Dot};
use mqtt_fields::Text;
use mqtt_topics::Filter;
use std::alloc::Global;
use std::process::Abort;

pub fn dot(rt: &impl Abort, node: u16, number: u64) -> Dot {
    Dot::new(node, number).expect(rt, "a dot")
}

/// A context of these dots.
pub fn context(rt: &impl Abort, alloc: Global, dots: &[(u16, u64)]) -> Context {
    let mut context = Context::new(alloc);
    for (node, number) in dots {
        context.insert(dot(rt, *node, *number)).expect(rt, "memory");
    }
    context
}

pub fn text(rt: &impl Abort, alloc: Global, text: &str) -> Text {
    Text::new(alloc, text).expect(rt, "a text")
}

pub fn filter(rt: &impl Abort, alloc: Global, to: &str) -> Filter {
    let text = text(rt, alloc, to);
    Filter::parse(alloc, text.as_str()).expect(rt, "a filter")
}
