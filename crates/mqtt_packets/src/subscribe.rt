//! SUBSCRIBE.

ghost use Rattle.std.specs.Prelude.{◌≡◌, ◌++◌, List, [], length, ◌<◌, ◌^◌, flat_map, IfOk, IfSome, OnOk, IsErrOf, IsOk, OnErr, vec_len, vec_capacity, ◌+◌, ◌≤◌};
ghost use Rattle.std.specs.List.{list_all};
ghost use Rattle.mqtt_fields.specs.Numbers.{text};
ghost use Rattle.mqtt_packets.specs.Memory.{list_start};
ghost use Rattle.mqtt_packets.specs.Reading.{Gives, field_at};
ghost use Rattle.mqtt_packets.specs.Body.{many_at, many};
ghost use Rattle.mqtt_packets.specs.Measure.{MeasuresField, Measures};
ghost use Rattle.mqtt_packets.specs.Subscribe.{options, subscribe_filter, is_valid_filter, is_valid_subscribe, subscribe};

use crate::fault::PacketFault;
use crate::field::{put_properties, take_properties, take_text, take_u8, take_u16};
use crate::measure::{BODY_LIMIT, block_len, text_len, within};
use crate::values::are_valid;
use mqtt_fields::{NoMemory, Place, Properties, SubscriptionOptions, Text};
use std::alloc::Global;
use std::marker::Model;

/// A filter to be subscribed to, and how.
#[derive(Drop)]
pub struct SubscribeFilter {
    pub filter: Text,
    pub options: SubscriptionOptions,
}

impl SubscribeFilter {
    /// A filter and options equal to these.
    pub fn copy(&self, alloc: Global) -> Result<SubscribeFilter, NoMemory>
        ensures { IfOk result (λ x. x ≡ self.now) }
    {
        Ok(SubscribeFilter {
            filter: self.filter.copy(alloc)?,
            options: self.options,
        })
    }
}

/// Filters in order.
#[derive(Drop)]
pub struct SubscribeFilters {
    items: Vec<SubscribeFilter>,
}

impl Model for SubscribeFilters {
    ghost use Rattle.std.specs.Prelude.{List};
    ghost use Rattle.mqtt_packets.specs.declared.subscribe.SubscribeFilter.{SubscribeFilter};

    ghost Value = { List SubscribeFilter };

    ghost view = { λ f. f.items.items };
}

impl SubscribeFilters {
    /// These filters.
    pub fn new(items: Vec<SubscribeFilter>) -> SubscribeFilters
        ensures { result ≡ items.items }
    {
        SubscribeFilters { items }
    }

    /// The filters as a slice.
    pub fn as_slice(&self) -> &[SubscribeFilter]
        ensures { result.now ≡ self.now }
    {
        self.items.as_slice()
    }

    /// The filters, which aren't copied.
    pub fn into_vec(self) -> Vec<SubscribeFilter>
        ensures { result.items ≡ self }
    {
        self.items
    }

    /// Filters equal to these.
    pub fn copy(&self, alloc: Global) -> Result<SubscribeFilters, NoMemory>
        ensures { IfOk result (λ x. x ≡ self.now) }
    {
        let mut items = Vec::with_capacity(alloc, self.items.len())?;
        for filter in self.as_slice() {
            items.push(filter.copy(alloc)?)?;
        }
        Ok(SubscribeFilters::new(items))
    }
}

/// A client asks for the messages that match its filters (MQTT 5.0, 3.8).
#[derive(Drop)]
pub struct Subscribe {
    pub identifier: u16,
    pub properties: Properties,
    pub filters: SubscribeFilters,
}

fn take_options(bytes: &[u8]) -> Result<(u8, &[u8]), PacketFault>
    ensures exact { Gives (λ x. (x.0, x.1.now)) result (field_at options bytes.now) }
    ensures no_memory { IsErrOf result PacketFault.NoMemory → ⊥ }
{
    let (byte, rest) = take_u8(bytes)?;
    if byte >= 64 {
        return Err(PacketFault::Malformed);
    }
    Ok((byte, rest))
}

fn take_filter(alloc: Global, bytes: &[u8]) -> Result<(SubscribeFilter, &[u8]), PacketFault>
    ensures exact { Gives (λ x. (x.0, x.1.now)) result (field_at subscribe_filter bytes.now) }
    ensures no_memory { IsErrOf result PacketFault.NoMemory → IsOk (field_at text bytes.now) }
{
    let (filter, rest) = take_text(alloc, bytes)?;
    let (byte, rest) = take_options(rest)?;
    let options = SubscriptionOptions::of_byte(byte);
    Ok((SubscribeFilter { filter, options }, rest))
}

fn filters_of(alloc: Global, bytes: &[u8]) -> Result<SubscribeFilters, PacketFault>
    ensures exact { Gives (λ x. x) result (many_at subscribe_filter (length bytes.now) [] bytes.now) }
    ensures no_memory { IsErrOf result PacketFault.NoMemory → IsOk (field_at text bytes.now) }
{
    let mut items = Vec::new(alloc);
    let mut rest = bytes;
    while !rest.is_empty() {
        let (filter, after) = take_filter(alloc, rest)?;
        items.push(filter)?;
        rest = after;
    }
    Ok(SubscribeFilters::new(items))
}

fn is_valid_filter(f: &SubscribeFilter) -> bool
    ensures { result ≡ is_valid_filter f.now }
{
    f.options.qos() < 3 && f.options.retain_handling() < 3
}

fn is_each_valid(filters: &[SubscribeFilter]) -> bool
    ensures { result ≡ list_all is_valid_filter filters.now }
{
    filters.iter().all(|f| is_valid_filter(f))
}

fn put_filter(f: &SubscribeFilter, out: &mut Vec<u8>) -> Result<(), NoMemory>
    ensures ok { OnOk result (out.new.items ≡ out.old.items ++ subscribe_filter.bytes f.now) }
    ensures full { OnErr result (vec_capacity out.old < vec_len out.old + length (subscribe_filter.bytes f.now)) }
    ensures capacity { vec_capacity out.old ≤ vec_capacity out.new }
{
    f.filter.write(out)?;
    let byte = f.options.byte();
    out.push(byte)?;
    Ok(())
}

#[tactic(auto, using(crate::proofs::MeasureLaws::bytes_more))]
fn put_filters(filters: &[SubscribeFilter], out: &mut Vec<u8>) -> Result<(), NoMemory>
    ensures ok { OnOk result (out.new.items ≡ out.old.items ++ flat_map subscribe_filter.bytes filters.now) }
    ensures full { OnErr result (vec_capacity out.old < vec_len out.old + length (flat_map subscribe_filter.bytes filters.now)) }
    ensures capacity { vec_capacity out.old ≤ vec_capacity out.new }
{
    for f in filters {
        put_filter(f, out)?;
    }
    Ok(())
}

fn filter_len(f: &SubscribeFilter) -> Option<usize>
    ensures exact { MeasuresField subscribe_filter f.now result }
    ensures small { IfSome result (λ n. n < 2 ^ 18) }
{
    let n = text_len(&f.filter);
    let byte = f.options.byte();
    if byte < 64 { Some(n + 1) } else { None }
}

#[tactic(auto, using(crate::proofs::MeasureLaws::many_lengths))]
fn filters_len(filters: &[SubscribeFilter]) -> Option<usize>
    ensures { Measures (many subscribe_filter) filters.now result }
{
    let mut total = 0;
    for f in filters {
        match filter_len(f) {
            None => return None,
            Some(n) => {
                if n >= BODY_LIMIT - total {
                    return None;
                }
                total += n;
            }
        }
    }
    Some(total)
}

impl Subscribe {
    fn is_valid(&self) -> bool
        ensures { result ≡ is_valid_subscribe self.now }
    {
        let filters = self.filters.as_slice();
        self.identifier != 0
            && are_valid(self.properties.as_slice())
            && !filters.is_empty()
            && is_each_valid(filters)
    }

    #[tactic(auto, using(crate::proofs::MemoryLaws::list_read), unfolding(crate::specs::Subscribe::subscribe))]
    pub(crate) fn of(alloc: Global, bytes: &[u8]) -> Result<Subscribe, PacketFault>
        ensures exact { Gives (λ x. x) result (subscribe.of bytes.now) }
        ensures no_memory { IsErrOf result PacketFault.NoMemory → IsOk (list_start Place.Subscribe bytes.now) }
    {
        let (identifier, rest) = take_u16(bytes)?;
        let (properties, rest) = take_properties(alloc, Place::Subscribe, rest)?;
        let subscribe = Subscribe {
            identifier,
            properties,
            filters: filters_of(alloc, rest)?,
        };
        if !subscribe.is_valid() {
            return Err(PacketFault::ProtocolError);
        }
        Ok(subscribe)
    }

    #[tactic(auto, unfolding(crate::specs::Subscribe::subscribe))]
    pub(crate) fn write(&self, out: &mut Vec<u8>) -> Result<(), NoMemory>
        requires { subscribe.Fits self.now }
        ensures ok { OnOk result (out.new.items ≡ out.old.items ++ subscribe.bytes self.now) }
        ensures full { OnErr result (vec_capacity out.old < vec_len out.old + length (subscribe.bytes self.now)) }
        ensures capacity { vec_capacity out.old ≤ vec_capacity out.new }
    {
        out.extend_from_slice(&self.identifier.to_be_bytes())?;
        put_properties(Place::Subscribe, &self.properties, out)?;
        put_filters(self.filters.as_slice(), out)
    }

    /// How many bytes the body takes.
    #[tactic(auto, unfolding(crate::specs::Subscribe::subscribe))]
    pub(crate) fn len(&self) -> Option<usize>
        ensures { Measures subscribe self.now result }
    {
        let _identifier = self.identifier;
        if !self.is_valid() {
            return None;
        }
        let n = block_len(Place::Subscribe, &self.properties)?;
        let m = filters_len(self.filters.as_slice())?;
        within(2 + n + m)
    }

    /// A packet equal to this one.
    pub fn copy(&self, alloc: Global) -> Result<Subscribe, NoMemory>
        ensures { IfOk result (λ x. x ≡ self.now) }
    {
        Ok(Subscribe {
            identifier: self.identifier,
            properties: self.properties.copy(alloc)?,
            filters: self.filters.copy(alloc)?,
        })
    }
}
