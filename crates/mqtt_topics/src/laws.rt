//! Laws of topic names and filters.

ghost use Rattle.mqtt_topics.specs.Laws.{FiltersAreTested, FiltersOrFaults, NamesOrFaults, SharedMatchesAlike};

/// Each text is a topic name or has exactly one fault.
pub fn names_or_faults()
    ensures { NamesOrFaults }
{}

/// Each text is a topic filter or has exactly one fault.
pub fn filters_or_faults()
    ensures { FiltersOrFaults }
{}

/// The test of texts in `specs/Testing.antt` passes exactly the topic filters.
pub fn filters_are_tested()
    ensures { FiltersAreTested }
{}

/// A shared filter matches what its filter matches.
pub fn shared_matches_alike()
    ensures { SharedMatchesAlike }
{}
