//! How a client gets a message by its subscriptions.

ghost use Rattle.std.specs.Prelude.{◌≡◌, ◌≤◌, length, IfOk, OnOk};
ghost use Rattle.std.specs.List.{insert};
ghost use Rattle.mqtt_message.specs.Identifiers.{identifiers_of};
ghost use Rattle.bridge_routes.specs.Ascending.{put_number, put_numbers};
ghost use Rattle.bridge_routes.specs.Deliveries.{least_qos, greatest_qos, any_as_published, identifiers_in, copy_for, offer_of};
ghost use Rattle.bridge_routes.specs.Tables.{referents};

use mqtt_fields::{NoMemory, Qos, SubscriptionOptions};
use mqtt_message::{Delivery, Identifiers, SharedMessage};
use std::alloc::Global;
use subscription_set::Entry;

/// The message's QoS, or the granted one where that is less (MQTT 5.0, 3.8.4).
pub fn least_qos(granted: u8, qos: Qos) -> Qos
    ensures { result ≡ least_qos granted qos }
{
    if granted >= qos.number() {
        return qos;
    }
    if granted == 0 {
        Qos::AtMostOnce
    } else {
        Qos::AtLeastOnce
    }
}

/// A retained message for a new subscription: with RETAIN 1, the least of both QoS, and the subscription's identifiers
/// (MQTT 5.0, 3.3.1.3 and 3.8.4).
pub fn offer_of(
    alloc: Global,
    message: &SharedMessage,
    options: SubscriptionOptions,
    identifiers: &Identifiers,
) -> Result<Delivery, NoMemory>
    ensures { IfOk result (λ offer. offer ≡ offer_of options identifiers.now message.now) }
{
    Ok(Delivery {
        message: message.copy()?,
        qos: least_qos(options.qos(), message.message().qos),
        retain: true,
        identifiers: identifiers.copy(alloc)?,
    })
}

// The greatest QoS that one of the subscriptions was granted.
fn greatest_qos(own: &[&Entry]) -> u8
    ensures { result ≡ greatest_qos (referents own.now) }
{
    let mut greatest = 0;
    for entry in own {
        greatest = entry.options().qos().max(greatest);
    }
    greatest
}

// Whether one of them has Retain As Published.
fn any_as_published(own: &[&Entry]) -> bool
    ensures { result ≡ any_as_published (referents own.now) }
{
    for entry in own {
        if entry.options().retain_as_published() {
            return true;
        }
    }
    false
}

// Where a number is to stand: before the first that isn't less.
fn place_of(numbers: &[u32], n: u32) -> usize
    ensures within { result ≤ length numbers.now }
    ensures place { insert numbers.now result n ≡ put_number n numbers.now }
{
    for i in 0..numbers.len() {
        if n <= numbers[i] {
            return i;
        }
    }
    numbers.len()
}

// Puts a number in its place.
fn put_number(numbers: &mut Vec<u32>, n: u32) -> Result<(), NoMemory>
    ensures { OnOk result (numbers.new.items ≡ put_number n numbers.old.items) }
{
    let place = place_of(numbers.as_slice(), n);
    numbers.insert(place, n)?;
    Ok(())
}

// Puts the identifier of a subscription in its place, if it has one.
fn put_identifier(numbers: &mut Vec<u32>, entry: &Entry) -> Result<(), NoMemory>
    ensures { OnOk result (numbers.new.items
        ≡ put_numbers (identifiers_of entry.now.identifier) numbers.old.items) }
{
    let n = entry.identifier();
    if n == 0 {
        return Ok(());
    }
    put_number(numbers, n)
}

// The identifiers of all of the subscriptions.
fn identifiers_in(alloc: Global, own: &[&Entry]) -> Result<Identifiers, NoMemory>
    ensures { IfOk result (λ i. i ≡ identifiers_in (referents own.now)) }
{
    let mut numbers = Vec::new(alloc);
    for entry in own {
        put_identifier(&mut numbers, *entry)?;
    }
    match Identifiers::of(numbers) {
        Some(identifiers) => Ok(identifiers),
        None => Err(NoMemory),
    }
}

/// The one copy for a client with these subscriptions, which shares the message. One with more than 65,535 identifiers can't
/// be had: it answers want of memory.
pub fn copy_for(
    alloc: Global,
    message: &SharedMessage,
    own: &[&Entry],
) -> Result<Delivery, NoMemory>
    ensures { IfOk result (λ copy. copy ≡ copy_for message.now (referents own.now)) }
{
    let identifiers = identifiers_in(alloc, own)?;
    Ok(Delivery {
        message: message.copy()?,
        qos: least_qos(greatest_qos(own), message.message().qos),
        retain: message.message().retain && any_as_published(own),
        identifiers,
    })
}
