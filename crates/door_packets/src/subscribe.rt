//! SUBSCRIBE.

ghost use Rattle.std.specs.Prelude.{◌≡◌, IfOk, filter, is_none, is_some, map};
ghost use Rattle.std.specs.List.{list_all};
ghost use Rattle.door_packets.specs.Packets.{codes_of, filter_code, is_asked, smaller, subscribe_step, suback_step};

use crate::step::Step;
use crate::{Access, Awaited, Codes, Login, suback};
use mqtt_fields::NoMemory;
use mqtt_packets::reason::NOT_AUTHORIZED;
use mqtt_packets::{Bytes, Packet, Subscribe, SubscribeFilter, SubscribeFilters};
use std::alloc::Global;

fn is_asked<A: Access>(access: &A, login: &Login, filter: &SubscribeFilter) -> bool
    ensures { result ≡ is_asked (A.rights access.now) login.now filter.now }
{
    access.may_subscribe(login, filter.filter.as_str())
}

/// The Reason Code with which a filter is refused, if it is.
fn filter_code<A: Access>(access: &A, login: &Login, filter: &SubscribeFilter) -> Option<u8>
    ensures { result ≡ filter_code (A.rights access.now) login.now filter.now }
{
    if is_asked(access, login, filter) {
        None
    } else {
        Some(NOT_AUTHORIZED)
    }
}

/// The codes of the filters, in their order.
fn codes_of<A: Access>(
    alloc: Global,
    access: &A,
    login: &Login,
    filters: &[SubscribeFilter],
) -> Result<Vec<Option<u8>>, NoMemory>
    ensures { IfOk result (λ codes. codes.items ≡ codes_of (A.rights access.now) login.now filters.now) }
{
    let mut codes = Vec::new(alloc);
    for filter in filters {
        codes.push(filter_code(access, login, filter))?;
    }
    Ok(codes)
}

/// Those of the filters that are asked for.
fn asked_of<A: Access>(
    alloc: Global,
    access: &A,
    login: &Login,
    filters: &[SubscribeFilter],
) -> Result<Vec<SubscribeFilter>, NoMemory>
    ensures { IfOk result (λ asked. asked.items ≡ filter (is_asked (A.rights access.now) login.now) filters.now) }
{
    let mut asked = Vec::new(alloc);
    for filter in filters {
        if is_asked(access, login, filter) {
            asked.push(filter.copy(alloc)?)?;
        }
    }
    Ok(asked)
}

/// The SUBSCRIBE of those filters alone that are asked for.
fn smaller<A: Access>(
    alloc: Global,
    access: &A,
    login: &Login,
    subscribe: Subscribe,
) -> Result<Subscribe, NoMemory>
    ensures { IfOk result (λ s. s ≡ smaller (A.rights access.now) login.now subscribe) }
{
    let asked = asked_of(alloc, access, login, subscribe.filters.as_slice())?;
    Ok(Subscribe {
        identifier: subscribe.identifier,
        properties: subscribe.properties,
        filters: SubscribeFilters::new(asked),
    })
}

fn are_none(codes: &[Option<u8>]) -> bool
    ensures { result ≡ list_all is_none codes.now }
{
    codes.iter().all(|code| code.is_none())
}

fn are_some(codes: &[Option<u8>]) -> bool
    ensures { result ≡ list_all is_some codes.now }
{
    codes.iter().all(|code| code.is_some())
}

/// The SUBACK of a SUBSCRIBE of which all filters are refused.
fn suback_step(alloc: Global, identifier: u16, codes: Codes) -> Result<Step, NoMemory>
    ensures { IfOk result (λ step. step ≡ suback_step identifier codes) }
{
    let all = codes.merged(alloc, &[])?;
    let bytes = suback(alloc, identifier, &all)?;
    Ok(Step::Subacks(Bytes::new(bytes), codes.refused()))
}

/// What is done for a SUBSCRIBE, whose bytes these are.
pub(crate) fn subscribe_step<A: Access>(
    alloc: Global,
    access: &A,
    login: &Login,
    bytes: &[u8],
    subscribe: Subscribe,
) -> Result<Step, NoMemory>
    ensures { IfOk result (λ step. step ≡ subscribe_step (A.rights access.now) login.now bytes.now subscribe) }
{
    let items = codes_of(alloc, access, login, subscribe.filters.as_slice())?;
    if are_none(&items) {
        return Ok(Step::Tells(Bytes::from_slice(alloc, bytes)?));
    }
    let identifier = subscribe.identifier;
    if are_some(&items) {
        return suback_step(alloc, identifier, Codes::new(items));
    }
    let smaller = smaller(alloc, access, login, subscribe)?;
    let codes = Codes::new(items);
    let awaited = Awaited { identifier, codes };
    Ok(Step::Asks(Packet::Subscribe(smaller), Some(awaited)))
}
