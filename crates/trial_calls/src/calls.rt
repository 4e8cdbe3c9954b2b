//! The calls that are tried, by their names.

use crate::packets::{try_accepting, try_feeding};
use crate::spellings::{Kind, try_reading, try_writing};
use crate::texts::{try_homes, try_topic_filter, try_topic_name};
use crate::tries::{
    try_filter_insertion, try_filters_matching, try_name_insertion, try_names_matching,
};
use std::alloc::Global;
use trial_refusals::{Call, Trial};

/// A call that is tried.
#[derive(Clone, Copy)]
pub enum Called {
    Read(Kind),
    Write(Kind),
    TopicName,
    TopicFilter,
    Homes,
    Feed,
    Accept,
    InsertFilter,
    MatchFilters,
    InsertName,
    MatchNames,
}

/// The calls and their names.
pub const CALLS: [(&str, Called); 26] = [
    ("Vbi::write", Called::Write(Kind::Number)),
    ("read_properties", Called::Read(Kind::Properties)),
    ("write_properties", Called::Write(Kind::Properties)),
    ("TopicName::parse", Called::TopicName),
    ("Filter::parse", Called::TopicFilter),
    ("HomeTable::parse", Called::Homes),
    ("read_packet, a CONNECT", Called::Read(Kind::Connect)),
    ("write_packet, a CONNECT", Called::Write(Kind::Connect)),
    ("read_packet, a PUBLISH", Called::Read(Kind::Publish)),
    ("write_packet, a PUBLISH", Called::Write(Kind::Publish)),
    ("Framer::feed", Called::Feed),
    ("Message::read", Called::Read(Kind::Message)),
    ("Message::write", Called::Write(Kind::Message)),
    ("Message::accept", Called::Accept),
    ("Context::read", Called::Read(Kind::Context)),
    ("Context::write", Called::Write(Kind::Context)),
    ("read_store", Called::Read(Kind::Store)),
    ("write_store", Called::Write(Kind::Store)),
    ("BridgeFrame::read, a Delta", Called::Read(Kind::Delta)),
    ("BridgeFrame::write, a Delta", Called::Write(Kind::Delta)),
    ("BridgeFrame::read, a Forward", Called::Read(Kind::Forward)),
    (
        "BridgeFrame::write, a Forward",
        Called::Write(Kind::Forward),
    ),
    ("FilterTrie::insert", Called::InsertFilter),
    ("FilterTrie::matching", Called::MatchFilters),
    ("TopicTrie::insert", Called::InsertName),
    ("TopicTrie::matching", Called::MatchNames),
];

impl Call for Called {
    fn attempt(&self, alloc: Global, number: usize) -> Trial {
        match *self {
            Called::Read(kind) => try_reading(alloc, number, kind),
            Called::Write(kind) => try_writing(alloc, number, kind),
            Called::TopicName => try_topic_name(alloc, number),
            Called::TopicFilter => try_topic_filter(alloc, number),
            Called::Homes => try_homes(alloc, number),
            Called::Feed => try_feeding(alloc, number),
            Called::Accept => try_accepting(alloc, number),
            Called::InsertFilter => try_filter_insertion(alloc, number),
            Called::MatchFilters => try_filters_matching(alloc, number),
            Called::InsertName => try_name_insertion(alloc, number),
            Called::MatchNames => try_names_matching(alloc, number),
        }
    }
}
