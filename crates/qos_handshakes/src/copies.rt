//! The entries of a session in the order of their places, with the exchanges by identifier.
ghost use Rattle.std.specs.Prelude.{◌≡◌, ◌⊎◌, ◌≢◌, ◌+◌, ◌<◌, ◌≤◌, ◌++◌, ◌∷◌, [], ℕ, true, length, OnOk, IfOk, IfErr, OnErr, IfSome, IsSome, IsSomeAnd, MatchOption};
ghost use Rattle.std.specs.Option.{option_copied};
ghost use Rattle.std.specs.BTreeMap.{is_at, keys};
ghost use Rattle.std.specs.Ordering.{nat_cmp};
ghost use Rattle.std.specs.Map.{remove_entry, keys_of, values_of};
ghost use Rattle.std.specs.List.Sorted.{IsStrictlySortedBy};
ghost use Rattle.std.specs.List.{AllByRecursion};
ghost use Rattle.qos_handshakes.specs.Entries.{HasRange, HasRoom, as_here, find_id, place_from, drop_id, write_id, write_at, as_published, as_released, place_in, AllPlacesBelow, IsLeastFree, NoneFree, at_place};
ghost use Rattle.qos_handshakes.specs.Restored.{first_place, is_free};
ghost use Rattle.qos_handshakes.specs.Restoring.{IsPadded};
ghost use Rattle.qos_handshakes.specs.Touched.{IsPlaceOf};
ghost use Rattle.qos_handshakes.specs.Outbox.{waits, waiting_entry, away, is_owed, stage_id, stage_order, HaveOrders, order_above, by_release};

use crate::Slots;
use mqtt_fields::NoMemory;
use mqtt_message::Delivery;
use std::alloc::Global;
use std::collections::BTreeMap;
use std::marker::Model;

/// How far a copy has come.
#[derive(Clone, Copy)]
pub enum Stage {
    Waiting,
    /// Its PUBLISH was sent, under this identifier.
    Published(u16),
    /// Its PUBREC came, with this order among the session's.
    Released(u16, u64),
}

/// A delivery on its way.
#[derive(Drop)]
pub struct Entry {
    pub stage: Stage,
    /// Whether its PUBLISH was sent on this connection.
    pub here: bool,
    pub delivery: Delivery,
}

/// Slot `id - 1` has an exchange's place, or 0 where the identifier is free.
#[derive(Drop)]
pub struct Copies {
    entries: BTreeMap<u64, Entry>,
    places: Slots,
}

impl Model for Copies {
    ghost use Rattle.std.specs.Prelude.{length};
    ghost use Rattle.qos_handshakes.specs.Entries.{Held, IsIndexed};

    ghost Value = { Held };

    ghost view = { λ a. record { entries = a.entries.entries; slots = length a.places } };

    ghost invariant = { λ a. IsIndexed a.entries.entries a.places };
}

fn place_of(places: &Slots, id: u16) -> u64
    ensures { result ≡ place_in places.now id }
{
    if id == 0 {
        return 0;
    }
    places.get((id - 1) as usize)
}

fn mark_published(entries: &mut BTreeMap<u64, Entry>, place: u64, id: u16)
    ensures written { entries.new.entries ≡ write_at (as_published id) place entries.old.entries }
    ensures ordered { keys entries.new ≡ keys entries.old }
{
    if let Some(entry) = entries.get_mut(&place) {
        entry.stage = Stage::Published(id);
        entry.here = true;
    }
}

fn mark_here(entries: &mut BTreeMap<u64, Entry>, place: u64)
    ensures written { entries.new.entries ≡ write_at as_here place entries.old.entries }
    ensures ordered { keys entries.new ≡ keys entries.old }
{
    if let Some(entry) = entries.get_mut(&place) {
        entry.here = true;
    }
}

/// The identifier of an exchange, or 0.
pub fn id_of(entry: &Entry) -> u16
    ensures { result ≡ stage_id entry.now.stage }
{
    match entry.stage {
        Stage::Waiting => 0,
        Stage::Published(id) => id,
        Stage::Released(id, _) => id,
    }
}

/// The released exchanges by their order.
fn released_by_order(
    alloc: Global,
    entries: &BTreeMap<u64, Entry>,
) -> Result<BTreeMap<u64, u16>, NoMemory>
    ensures orders { IfOk result (λ orders. orders.entries ≡ by_release entries.now.entries) }
    ensures need { OnErr result (by_release entries.now.entries ≢ []) }
{
    let mut orders = BTreeMap::new(alloc);
    let mut left = entries.values();
    while let Some(entry) = left.next_back() {
        let Stage::Released(id, order) = entry.stage else {
            continue;
        };
        orders.insert(order, id)?;
    }
    Ok(orders)
}

/// The order of release of an entry, or 0.
fn order_of(entry: &Entry) -> u64
    ensures { result ≡ stage_order entry.now.stage }
{
    match entry.stage {
        Stage::Waiting | Stage::Published(_) => 0,
        Stage::Released(_, order) => order,
    }
}

/// One above the greatest order of release.
fn order_above(entries: &BTreeMap<u64, Entry>) -> u64
    requires { HaveOrders entries.now.entries }
    ensures { result ≡ order_above entries.now.entries }
{
    let mut above = 1;
    let mut left = entries.values();
    while let Some(entry) = left.next_back() {
        let order = order_of(entry);
        if order >= above {
            above = order + 1;
        }
    }
    above
}

fn mark_released(entries: &mut BTreeMap<u64, Entry>, place: u64, id: u16, order: u64)
    ensures written { entries.new.entries ≡ write_at (as_released id order) place entries.old.entries }
    ensures ordered { keys entries.new ≡ keys entries.old }
{
    if let Some(entry) = entries.get_mut(&place) {
        entry.stage = Stage::Released(id, order);
    }
}

fn first_from(entries: &BTreeMap<u64, Entry>, place: u64) -> Option<u64>
    ensures { result ≡ place_from place entries.now.entries }
{
    match entries.range(place..).next() {
        Some((found, _)) => Some(*found),
        None => None,
    }
}

fn mark_away(entries: &mut BTreeMap<u64, Entry>)
    ensures { entries.new.entries ≡ away entries.old.entries }
{
    entries.retain(|_, entry| {
        entry.here = false;
        true
    });
}

/// Adds free slots up to a length.
fn grow(places: &mut Slots, len: usize) -> Result<(), NoMemory>
    requires len { len ≤ 65535 }
    requires small { length places.old ≤ 65535 }
    ensures padded { IsPadded places.old places.new }
    ensures small { length places.new ≤ 65535 }
    ensures long { OnOk result (len ≤ length places.new) }
    ensures need { OnErr result (length places.old < len) }
{
    while places.len() < len {
        places.add()?;
    }
    Ok(())
}

impl Copies {
    pub fn new(alloc: Global) -> Self
        ensures { result ≡ record { entries = []; slots = 0 } }
    {
        Copies {
            entries: BTreeMap::new(alloc),
            places: Slots::new(alloc),
        }
    }

    pub fn get(&self, id: u16) -> Option<&Entry>
        ensures { option_copied result ≡ find_id id self.now.entries }
    {
        let place = place_of(&self.places, id);
        self.entries.get(&place)
    }

    pub fn at(&self, place: u64) -> Option<&Entry>
        ensures { option_copied result ≡ at_place place self.now.entries }
    {
        self.entries.get(&place)
    }

    /// The place of an exchange.
    pub fn place_of(&self, id: u16) -> u64
        requires { IsSome (find_id id self.now.entries) }
        ensures { IsPlaceOf self.now.entries id result }
    {
        place_of(&self.places, id)
    }

    /// The places of the entries. Of none there is no want of memory.
    pub fn places(&self, alloc: Global) -> Result<Vec<u64>, NoMemory>
        ensures all { IfOk result (λ places. places.items ≡ keys_of self.now.entries) }
        ensures need { OnErr result (self.now.entries ≢ []) }
    {
        let mut places = Vec::new(alloc);
        for place in self.entries.keys() {
            places.push(*place)?;
        }
        Ok(places)
    }

    /// How many entries there are.
    pub fn count(&self) -> usize
        ensures { result ≡ length self.now.entries }
    {
        self.entries.len()
    }

    /// Ends an exchange, if there is one.
    pub fn remove(&mut self, id: u16)
        ensures { self.new ≡ record self.old { entries = drop_id id self.old.entries } }
    {
        let place = place_of(&self.places, id);
        if place == 0 {
            return;
        }
        let _ = self.entries.remove(&place);
        self.places.set((id - 1) as usize, 0);
    }

    /// Adds a copy that waits, at a place past all others.
    pub fn push(&mut self, place: u64, delivery: Delivery) -> Result<(), Delivery>
        requires past { AllPlacesBelow self.old.entries place }
        requires counted { 1 ≤ place }
        ensures ok { OnOk result (self.new ≡ record self.old { entries = self.old.entries ++ (place, waiting_entry delivery) ∷ [] }) }
        ensures back { IfErr result (λ d. d ≡ delivery) }
        ensures err { OnErr result (self.new ≡ self.old) }
    {
        let entry = Entry {
            stage: Stage::Waiting,
            here: false,
            delivery,
        };
        match self.entries.insert(place, entry) {
            Ok(_) => Ok(()),
            Err(failed) => Err(failed.value.1.delivery),
        }
    }

    /// Adds an entry before all others; if it doesn't wait, its identifier is free.
    pub fn put_first(&mut self, place: u64, entry: Entry) -> Result<(), NoMemory>
        requires counted { 1 ≤ place }
        requires before { place < first_place (place + 1) self.old.entries }
        requires free { (waits entry.stage ≡ true) ⊎ (is_free (stage_id entry.stage) self.old.entries ≡ true) }
        ensures { OnOk result (self.new.entries ≡ (place, entry) ∷ self.old.entries) }
    {
        let id = id_of(&entry);
        grow(&mut self.places, id as usize)?;
        self.entries.insert(place, entry)?;
        if id != 0 {
            self.places.set((id - 1) as usize, place);
        }
        Ok(())
    }

    /// Makes room for an identifier more, where one is free. Where there is room it takes no memory.
    pub fn reserve(&mut self) -> Result<(), NoMemory>
        ensures room { OnOk result (HasRoom self.new) }
        ensures same { self.new.entries ≡ self.old.entries }
        ensures need { OnErr result (HasRoom self.old → ⊥) }
    {
        let free = self.places.first_free();
        if free < self.places.len() {
            return Ok(());
        }
        if free >= 65535 {
            return Ok(());
        }
        self.places.add()?;
        Ok(())
    }

    /// The least free identifier.
    pub fn least_free(&self) -> Option<u16>
        requires { HasRoom self.now }
        ensures { MatchOption result (NoneFree self.now.entries) (λ id. IsLeastFree self.now.entries id × (id ≤ self.now.slots)) }
    {
        let free = self.places.first_free();
        if free < self.places.len() {
            return Some(free as u16 + 1);
        }
        None
    }

    /// The places rise. This does nothing; its contract is a law.
    pub fn are_ordered(&self)
        ensures { IsStrictlySortedBy nat_cmp (keys_of self.now.entries) }
    {
        let _ = &self.entries;
    }

    /// The identifiers are from 1 to 65,535. This does nothing; its contract is a law.
    pub fn are_in_range(&self)
        ensures { AllByRecursion (λ e. HasRange e.1) self.now.entries }
    {
        let _ = &self.entries;
    }

    /// The first place from one on.
    pub fn first_from(&self, place: u64) -> Option<u64>
        ensures { result ≡ place_from place self.now.entries }
    {
        first_from(&self.entries, place)
    }

    /// Ends the exchange at a place.
    pub fn end_at(&mut self, place: u64)
        requires { IsSomeAnd (at_place place self.old.entries) (λ x. is_owed x ≡ true) }
        ensures { self.new ≡ record self.old { entries = remove_entry (is_at (nat_cmp place)) self.old.entries } }
    {
        let Some(entry) = self.entries.get(&place) else {
            return;
        };
        let id = id_of(entry);
        self.remove(id);
    }

    /// Notes that the PUBLISH of an exchange was sent on this connection.
    pub fn send_again(&mut self, place: u64)
        ensures { self.new ≡ record self.old { entries = write_at as_here place self.old.entries } }
    {
        mark_here(&mut self.entries, place);
    }

    /// A new connection, on which nothing was sent.
    pub fn resume(&mut self)
        ensures { self.new ≡ record self.old { entries = away self.old.entries } }
    {
        mark_away(&mut self.entries);
    }

    /// The identifiers of the released exchanges, by the order of their release.
    pub fn releases(&self, alloc: Global) -> Result<Vec<u16>, NoMemory>
        ensures ids { IfOk result (λ ids. ids.items ≡ values_of (by_release self.now.entries)) }
        ensures need { OnErr result (by_release self.now.entries ≢ []) }
    {
        let orders = released_by_order(alloc, &self.entries)?;
        let mut ids = Vec::new(alloc);
        for id in orders.values() {
            ids.push(*id)?;
        }
        Ok(ids)
    }

    /// One above the greatest order of release.
    pub fn order_above(&self) -> u64
        requires { HaveOrders self.now.entries }
        ensures { result ≡ order_above self.now.entries }
    {
        order_above(&self.entries)
    }

    /// Removes a copy that waits.
    pub fn leave_out(&mut self, place: u64)
        requires { IsSomeAnd (at_place place self.old.entries) (λ x. waits x.stage ≡ true) }
        ensures { self.new ≡ record self.old { entries = remove_entry (is_at (nat_cmp place)) self.old.entries } }
    {
        let _ = self.entries.remove(&place);
    }

    /// Gives a copy that waits an identifier.
    pub fn publish(&mut self, place: u64, id: u16)
        requires waiting { IsSomeAnd (at_place place self.old.entries) (λ x. waits x.stage ≡ true) }
        requires free { IsLeastFree self.old.entries id }
        requires room { id ≤ self.old.slots }
        ensures { self.new ≡ record self.old { entries = write_at (as_published id) place self.old.entries } }
    {
        mark_published(&mut self.entries, place, id);
        self.places.set((id - 1) as usize, place);
    }

    /// Notes that the PUBREC of an exchange came.
    pub fn release(&mut self, id: u16, order: u64)
        ensures { self.new ≡ record self.old { entries = write_id (as_released id order) id self.old.entries } }
    {
        let place = place_of(&self.places, id);
        mark_released(&mut self.entries, place, id, order);
    }
}
