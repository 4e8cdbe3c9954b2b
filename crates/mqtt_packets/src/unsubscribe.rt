//! UNSUBSCRIBE.

ghost use Rattle.std.specs.Prelude.{◌≡◌, ◌++◌, List, ℕ, [], length, flat_map, IfOk, OnOk, IsErrOf, IsOk, OnErr, vec_len, vec_capacity, ◌+◌, ◌<◌, ◌≤◌};
ghost use Rattle.mqtt_fields.specs.Numbers.{text};
ghost use Rattle.mqtt_packets.specs.Memory.{list_start};
ghost use Rattle.mqtt_packets.specs.Reading.{Gives, field_at};
ghost use Rattle.mqtt_packets.specs.Body.{many_at, many};
ghost use Rattle.mqtt_packets.specs.Measure.{Measures};
ghost use Rattle.mqtt_packets.specs.Unsubscribe.{is_valid_unsubscribe, unsubscribe};

use crate::fault::PacketFault;
use crate::field::{put_properties, take_properties, take_text, take_u16};
use crate::measure::{BODY_LIMIT, block_len, text_len, within};
use crate::values::are_valid;
use mqtt_fields::{NoMemory, Place, Properties, Text};
use std::alloc::Global;
use std::marker::Model;

/// Filters in order.
#[derive(Drop)]
pub struct UnsubscribeFilters {
    items: Vec<Text>,
}

impl Model for UnsubscribeFilters {
    ghost use Rattle.std.specs.Prelude.{List, ℕ};

    ghost Value = { List (List ℕ) };

    ghost view = { λ f. f.items.items };
}

impl UnsubscribeFilters {
    /// These filters.
    pub fn new(items: Vec<Text>) -> UnsubscribeFilters
        ensures { result ≡ items.items }
    {
        UnsubscribeFilters { items }
    }

    /// The filters as a slice.
    pub fn as_slice(&self) -> &[Text]
        ensures { result.now ≡ self.now }
    {
        self.items.as_slice()
    }

    /// The filters, which aren't copied.
    pub fn into_vec(self) -> Vec<Text>
        ensures { result.items ≡ self }
    {
        self.items
    }

    /// Filters equal to these.
    pub fn copy(&self, alloc: Global) -> Result<UnsubscribeFilters, NoMemory>
        ensures { IfOk result (λ x. x ≡ self.now) }
    {
        let mut items = Vec::with_capacity(alloc, self.items.len())?;
        for filter in self.as_slice() {
            items.push(filter.copy(alloc)?)?;
        }
        Ok(UnsubscribeFilters::new(items))
    }
}

/// A client gives up subscriptions (MQTT 5.0, 3.10).
#[derive(Drop)]
pub struct Unsubscribe {
    pub identifier: u16,
    pub properties: Properties,
    pub filters: UnsubscribeFilters,
}

fn filters_of(alloc: Global, bytes: &[u8]) -> Result<UnsubscribeFilters, PacketFault>
    ensures exact { Gives (λ x. x) result (many_at text (length bytes.now) [] bytes.now) }
    ensures no_memory { IsErrOf result PacketFault.NoMemory → IsOk (field_at text bytes.now) }
{
    let mut items = Vec::new(alloc);
    let mut rest = bytes;
    while !rest.is_empty() {
        let (filter, after) = take_text(alloc, rest)?;
        items.push(filter)?;
        rest = after;
    }
    Ok(UnsubscribeFilters::new(items))
}

#[tactic(auto, using(crate::proofs::MeasureLaws::bytes_more))]
fn put_filters(filters: &[Text], out: &mut Vec<u8>) -> Result<(), NoMemory>
    ensures ok { OnOk result (out.new.items ≡ out.old.items ++ flat_map text.bytes filters.now) }
    ensures full { OnErr result (vec_capacity out.old < vec_len out.old + length (flat_map text.bytes filters.now)) }
    ensures capacity { vec_capacity out.old ≤ vec_capacity out.new }
{
    for filter in filters {
        filter.write(out)?;
    }
    Ok(())
}

#[tactic(auto, using(crate::proofs::MeasureLaws::many_lengths))]
fn filters_len(filters: &[Text]) -> Option<usize>
    ensures { Measures (many text) filters.now result }
{
    let mut total = 0;
    for filter in filters {
        let n = text_len(filter);
        if n >= BODY_LIMIT - total {
            return None;
        }
        total += n;
    }
    Some(total)
}

impl Unsubscribe {
    fn is_valid(&self) -> bool
        ensures { result ≡ is_valid_unsubscribe self.now }
    {
        self.identifier != 0
            && are_valid(self.properties.as_slice())
            && !self.filters.as_slice().is_empty()
    }

    #[tactic(auto, using(crate::proofs::MemoryLaws::list_read), unfolding(crate::specs::Unsubscribe::unsubscribe))]
    pub(crate) fn of(alloc: Global, bytes: &[u8]) -> Result<Unsubscribe, PacketFault>
        ensures exact { Gives (λ x. x) result (unsubscribe.of bytes.now) }
        ensures no_memory { IsErrOf result PacketFault.NoMemory → IsOk (list_start Place.Unsubscribe bytes.now) }
    {
        let (identifier, rest) = take_u16(bytes)?;
        let (properties, rest) = take_properties(alloc, Place::Unsubscribe, rest)?;
        let unsubscribe = Unsubscribe {
            identifier,
            properties,
            filters: filters_of(alloc, rest)?,
        };
        if !unsubscribe.is_valid() {
            return Err(PacketFault::ProtocolError);
        }
        Ok(unsubscribe)
    }

    #[tactic(auto, unfolding(crate::specs::Unsubscribe::unsubscribe))]
    pub(crate) fn write(&self, out: &mut Vec<u8>) -> Result<(), NoMemory>
        requires { unsubscribe.Fits self.now }
        ensures ok { OnOk result (out.new.items ≡ out.old.items ++ unsubscribe.bytes self.now) }
        ensures full { OnErr result (vec_capacity out.old < vec_len out.old + length (unsubscribe.bytes self.now)) }
        ensures capacity { vec_capacity out.old ≤ vec_capacity out.new }
    {
        out.extend_from_slice(&self.identifier.to_be_bytes())?;
        put_properties(Place::Unsubscribe, &self.properties, out)?;
        put_filters(self.filters.as_slice(), out)
    }

    /// How many bytes the body takes.
    #[tactic(auto, unfolding(crate::specs::Unsubscribe::unsubscribe))]
    pub(crate) fn len(&self) -> Option<usize>
        ensures { Measures unsubscribe self.now result }
    {
        let _identifier = self.identifier;
        if !self.is_valid() {
            return None;
        }
        let n = block_len(Place::Unsubscribe, &self.properties)?;
        let m = filters_len(self.filters.as_slice())?;
        within(2 + n + m)
    }

    /// A packet equal to this one.
    pub fn copy(&self, alloc: Global) -> Result<Unsubscribe, NoMemory>
        ensures { IfOk result (λ x. x ≡ self.now) }
    {
        Ok(Unsubscribe {
            identifier: self.identifier,
            properties: self.properties.copy(alloc)?,
            filters: self.filters.copy(alloc)?,
        })
    }
}
