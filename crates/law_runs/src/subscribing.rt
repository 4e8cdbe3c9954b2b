//! What is answered to a SUBSCRIBE.
ghost use Rattle.law_runs.specs.Subacks.{CodesAreExact, OffersAreExact};

/// Each Reason Code of a SUBACK comes exactly where it should, filter by filter in order, by what the node has taken when it comes to the
/// filter: 0x8F for a text that isn't a filter, 0x97 for a new subscription where the client has 1,000 live ones, and else the filter's
/// QoS. A granted filter has one Subscribe, its own, and a refused one has none.
pub fn codes_are_exact()
    ensures { CodesAreExact }
{}

/// Directly after a SUBACK its session is offered exactly the retained messages that match the granted filters which ask for them: by
/// Retain Handling 0, or by 1 where no subscription of the client to the filter stood. Nothing comes between.
pub fn offers_are_exact()
    ensures { OffersAreExact }
{}
