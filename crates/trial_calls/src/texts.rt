//! Texts that are parsed.

use home_table::HomeTable;
use mqtt_fields::Text;
use mqtt_topics::{Filter, TopicName};
use std::alloc::Global;
use trial_refusals::{Asking, Fault, Trial, ensure, try_asking};

#[derive(Drop)]
struct Named {
    name: Text,
}

impl Asking for Named {
    fn ask(&self, alloc: Global) -> Result<(), Fault> {
        let name = TopicName::parse(alloc, self.name.as_str())?;
        ensure(name.as_str() == "home/door")
    }
}

/// Tries to parse a topic name.
pub fn try_topic_name(alloc: Global, number: usize) -> Trial {
    let name = text(alloc, "home/door")?;
    try_asking(alloc, number, &Named { name })
}

fn text(alloc: Global, words: &str) -> Result<Text, Fault> {
    let text = Text::new(alloc, words)?;
    Ok(text)
}

#[derive(Drop)]
struct Filtered {
    filter: Text,
}

impl Asking for Filtered {
    fn ask(&self, alloc: Global) -> Result<(), Fault> {
        let filter = Filter::parse(alloc, self.filter.as_str())?;
        ensure(filter.group() == Some("g"))
    }
}

/// Tries to parse a topic filter.
pub fn try_topic_filter(alloc: Global, number: usize) -> Trial {
    let filter = text(alloc, "$share/g/home/+")?;
    try_asking(alloc, number, &Filtered { filter })
}

/// A table of two nodes and a home.
const HOMES: &str =
    "[[node]]\nname = \"n0\"\naddress = \"127.0.0.1:1883\"\nbridge = \"127.0.0.1:2883\"\n\
     [[node]]\nname = \"n1\"\naddress = \"127.0.0.1:1884\"\nbridge = \"127.0.0.1:2884\"\n\
     [[home]]\nprefix = \"d\"\nnode = \"n1\"\n";

#[derive(Drop)]
struct Homes;

impl Asking for Homes {
    fn ask(&self, alloc: Global) -> Result<(), Fault> {
        let table = HomeTable::parse(alloc, HOMES)?;
        ensure(table.nodes() == 2 && table.home_of("dog") == 1)
    }
}

/// Tries to parse a table of homes.
pub fn try_homes(alloc: Global, number: usize) -> Trial {
    try_asking(alloc, number, &Homes)
}
