//! The places whose entries have changed since they were last asked for, in the order of the changes.
ghost use Rattle.std.specs.Prelude.{◌≡◌, ◌≢◌, ◌+◌, ◌*◌, ◌≤◌, ◌++◌, ◌∷◌, [], OnOk, OnErr, IfOk};
ghost use Rattle.std.specs.Ordering.{nat_cmp};
ghost use Rattle.std.specs.List.Sorted.{IsStrictlySortedBy};
ghost use Rattle.qos_handshakes.specs.Touched.{AreListed, HasAll};

use mqtt_fields::NoMemory;
use std::alloc::Global;
use std::collections::BTreeSet;
use std::marker::Model;

/// So many entries can't be held.
const MOST: usize = 1 << 60;

/// The places as a set.
fn set_of(alloc: Global, places: &[u64]) -> Result<BTreeSet<u64>, NoMemory>
    ensures { IfOk result (λ set. HasAll set.keys places.now) }
{
    let mut set = BTreeSet::new(alloc);
    for place in places {
        set.insert(*place)?;
    }
    Ok(set)
}

/// The places of a set, by rising order.
fn rising_of(alloc: Global, set: &BTreeSet<u64>) -> Result<Vec<u64>, NoMemory>
    ensures { IfOk result (λ rising. (rising.items ≡ set.now.keys) × IsStrictlySortedBy nat_cmp rising.items) }
{
    let mut rising = Vec::new(alloc);
    for place in set.iter() {
        rising.push(*place)?;
    }
    Ok(rising)
}

#[derive(Drop)]
pub(crate) struct Log {
    places: Vec<u64>,
}

impl Model for Log {
    ghost use Rattle.std.specs.Prelude.{◌-◌, vec_len, vec_capacity};
    ghost use Rattle.qos_handshakes.specs.Touched.{Marked};

    ghost Value = { Marked };

    ghost view = { λ a. record { places = a.places.items; room = vec_capacity a.places - vec_len a.places } };
}

impl Log {
    pub(crate) fn new(alloc: Global) -> Self
        ensures { result.places ≡ [] }
    {
        Log {
            places: Vec::new(alloc),
        }
    }

    /// Makes room for all changes of as many entries, and of one more that is added.
    pub(crate) fn reserve(&mut self, entries: usize) -> Result<(), NoMemory>
        ensures room { OnOk result (3 * entries + 4 ≤ self.new.room) }
        ensures more { self.old.room ≤ self.new.room }
        ensures same { self.new.places ≡ self.old.places }
    {
        if entries >= MOST {
            return Err(NoMemory);
        }
        self.places.reserve(3 * entries + 4)?;
        Ok(())
    }

    /// The places by rising order, each once. They are forgotten.
    pub(crate) fn take(&mut self, alloc: Global) -> Result<Vec<u64>, NoMemory>
        ensures places { IfOk result (λ places. AreListed self.old.places places.items × (self.new.places ≡ [])) }
        ensures room { self.old.room ≤ self.new.room }
        ensures err { OnErr result (self.new ≡ self.old) }
        ensures need { OnErr result (self.old.places ≢ []) }
    {
        if self.places.is_empty() {
            return Ok(Vec::new(alloc));
        }
        let set = set_of(alloc, &self.places)?;
        let rising = rising_of(alloc, &set)?;
        self.places.clear();
        Ok(rising)
    }

    /// Notes a place, for which there is room.
    pub(crate) fn mark(&mut self, place: u64)
        requires { 1 ≤ self.old.room }
        ensures places { self.new.places ≡ self.old.places ++ place ∷ [] }
        ensures room { self.old.room ≤ self.new.room + 1 }
    {
        let _ = self.places.push(place);
    }
}
