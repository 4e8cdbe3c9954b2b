//! SUBSCRIBE.

ghost use Rattle.std.specs.Prelude.{◌≡◌, ◌++◌, IfOk, OnOk, filter, is_none, is_some, map};
ghost use Rattle.std.specs.List.{list_all};
ghost use Rattle.mqtt_bounds.specs.Bounded.{all_refused, codes_of, filter_code, fitting, is_asked, merged, smaller, subscribe_verdict};

use crate::bounds::{Bounds, is_above, levels};
use crate::codes::Codes;
use crate::mending::merged;
use crate::verdict::{Mend, Verdict};
use mqtt_fields::{NoMemory, Properties};
use mqtt_packets::reason::{QUOTA_EXCEEDED, TOPIC_FILTER_INVALID};
use mqtt_packets::{Bytes, Packet, Reasons, Subscribe, SubscribeFilter, SubscribeFilters};
use std::alloc::Global;

/// The Reason Code with which a filter is refused, if it is.
fn filter_code(bounds: &Bounds, full: bool, filter: &SubscribeFilter) -> Option<u8>
    ensures { result ≡ filter_code bounds.now full filter.now }
{
    if full {
        Some(QUOTA_EXCEEDED)
    } else if is_above(
        bounds.most_levels,
        levels(filter.filter.as_str().as_bytes()),
    ) {
        Some(TOPIC_FILTER_INVALID)
    } else {
        None
    }
}

fn is_asked(bounds: &Bounds, full: bool, filter: &SubscribeFilter) -> bool
    ensures { result ≡ is_asked bounds.now full filter.now }
{
    filter_code(bounds, full, filter).is_none()
}

/// How many of so many filters a SUBSCRIBE may have.
fn fitting(most: Option<u32>, count: usize) -> usize
    ensures { result ≡ fitting most count }
{
    match most {
        None => count,
        Some(most) => count.min(most as usize),
    }
}

/// Puts the codes of these filters behind the others.
fn put_codes(
    codes: &mut Vec<Option<u8>>,
    bounds: &Bounds,
    full: bool,
    filters: &[SubscribeFilter],
) -> Result<(), NoMemory>
    ensures { OnOk result (codes.new.items ≡ codes.old.items ++ map (filter_code bounds.now full) filters.now) }
{
    for filter in filters {
        codes.push(filter_code(bounds, full, filter))?;
    }
    Ok(())
}

/// The codes of the filters: those behind the last that may be are refused, as all are where it is full.
fn codes_of(
    alloc: Global,
    bounds: &Bounds,
    full: bool,
    filters: &[SubscribeFilter],
) -> Result<Vec<Option<u8>>, NoMemory>
    ensures { IfOk result (λ codes. codes.items ≡ codes_of bounds.now full filters.now) }
{
    let mut codes = Vec::new(alloc);
    let (front, behind) = filters.split_at(fitting(bounds.most_filters, filters.len()));
    put_codes(&mut codes, bounds, full, front)?;
    put_codes(&mut codes, bounds, true, behind)?;
    Ok(codes)
}

/// Those of the filters that are asked for.
fn asked_of(
    alloc: Global,
    bounds: &Bounds,
    full: bool,
    filters: &[SubscribeFilter],
) -> Result<Vec<SubscribeFilter>, NoMemory>
    ensures { IfOk result (λ asked. asked.items ≡ filter (is_asked bounds.now full) filters.now) }
{
    let mut asked = Vec::new(alloc);
    for filter in filters {
        if is_asked(bounds, full, filter) {
            asked.push(filter.copy(alloc)?)?;
        }
    }
    Ok(asked)
}

/// The SUBSCRIBE of those filters alone that are asked for.
fn smaller(
    alloc: Global,
    bounds: &Bounds,
    full: bool,
    subscribe: Subscribe,
) -> Result<Subscribe, NoMemory>
    ensures { IfOk result (λ s. s ≡ smaller bounds.now full subscribe) }
{
    let filters = subscribe.filters.as_slice();
    let (front, _) = filters.split_at(fitting(bounds.most_filters, filters.len()));
    let asked = asked_of(alloc, bounds, full, front)?;
    Ok(Subscribe {
        identifier: subscribe.identifier,
        properties: subscribe.properties,
        filters: SubscribeFilters::new(asked),
    })
}

/// The SUBACK of a SUBSCRIBE of which all filters are refused with these codes.
fn all_refused(alloc: Global, identifier: u16, codes: &[Option<u8>]) -> Result<Packet, NoMemory>
    ensures { IfOk result (λ p. p ≡ all_refused identifier codes.now) }
{
    Ok(Packet::Suback(Reasons {
        identifier,
        properties: Properties::new(alloc),
        reasons: Bytes::new(merged(alloc, codes, &[])?),
    }))
}

fn are_none(codes: &[Option<u8>]) -> bool
    ensures { result ≡ list_all is_none codes.now }
{
    codes.iter().all(|code| code.is_none())
}

fn are_some(codes: &[Option<u8>]) -> bool
    ensures { result ≡ list_all is_some codes.now }
{
    codes.iter().all(|code| code.is_some())
}

pub(crate) fn subscribe_verdict(
    alloc: Global,
    bounds: &Bounds,
    full: bool,
    subscribe: Subscribe,
) -> Result<Verdict, NoMemory>
    ensures { IfOk result (λ v. v ≡ subscribe_verdict bounds.now full subscribe) }
{
    let codes = codes_of(alloc, bounds, full, subscribe.filters.as_slice())?;
    if !full && are_none(&codes) {
        return Ok(Verdict::Goes(Mend::Nothing));
    }
    let identifier = subscribe.identifier;
    if are_some(&codes) {
        let suback = all_refused(alloc, identifier, &codes)?;
        return Ok(Verdict::Refused(Some(suback)));
    }
    let smaller = smaller(alloc, bounds, full, subscribe)?;
    let mend = Mend::Suback(identifier, Codes::new(codes));
    Ok(Verdict::Becomes(Packet::Subscribe(smaller), mend))
}
