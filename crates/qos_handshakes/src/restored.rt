//! What is made again of entries that were kept.
ghost use Rattle.std.specs.Prelude.{◌≡◌, ◌+◌, ◌≤◌, ◌<◌, ◌^◌, ◌∷◌, [], true, IfOk, OnOk};
ghost use Rattle.qos_handshakes.specs.Restored.{first_place, is_asked, is_free, precedes, restored, stage_fits};

use crate::copies::{Copies, Entry, Stage};
use crate::outgoing::Outgoing;
use mqtt_fields::{NUMBERS_END, NoMemory, Qos};
use std::alloc::Global;
use std::collections::BTreeMap;
use std::marker::Model;

/// The entries that have been put back, from the last one on.
#[derive(Drop)]
pub(crate) struct Restored {
    pub(crate) copies: Copies,
    orders: BTreeMap<u64, u16>,
    /// The place of the first one, or the next place.
    first: u64,
    /// Whether all of them wait.
    waiting: bool,
    /// The place of the first that waits, or the next place.
    pub(crate) first_waiting: u64,
    pub(crate) next_place: u64,
    /// One above the greatest order of release.
    pub(crate) next_order: u64,
}

impl Model for Restored {
    ghost use Rattle.qos_handshakes.specs.Restoring.{Putting, IsPutting};

    ghost Value = { Putting };

    ghost view = { λ a. record { entries = a.copies.entries; next = a.next_place } };

    ghost invariant = { λ a. IsPutting a.copies.entries a.orders.entries a.first a.waiting a.first_waiting a.next_place a.next_order };
}

fn is_asked_of(qos: Qos) -> bool
    ensures { result ≡ is_asked qos }
{
    match qos {
        Qos::AtMostOnce => false,
        Qos::AtLeastOnce | Qos::ExactlyOnce => true,
    }
}

impl Restored {
    pub(crate) fn new(alloc: Global, next_place: u64) -> Self
        requires least { 1 ≤ next_place }
        requires most { next_place ≤ 2 ^ 62 }
        ensures { result ≡ record { entries = []; next = next_place } }
    {
        Restored {
            copies: Copies::new(alloc),
            orders: BTreeMap::new(alloc),
            first: next_place,
            waiting: true,
            first_waiting: next_place,
            next_place,
            next_order: 1,
        }
    }

    fn is_free(&self, id: u16) -> bool
        ensures { result ≡ is_free id self.now.entries }
    {
        id != 0 && self.copies.get(id).is_none()
    }

    fn stage_fits(&self, place: u64, stage: Stage) -> bool
        requires { place < first_place self.now.next self.now.entries }
        ensures { result ≡ stage_fits self.now.next self.now.entries place stage }
    {
        match stage {
            Stage::Waiting => self.waiting && place + 1 == self.first,
            Stage::Published(id) => self.is_free(id),
            Stage::Released(id, order) => {
                self.is_free(id)
                    && order >= 1
                    && order < NUMBERS_END
                    && !self.orders.contains_key(&order)
            }
        }
    }

    /// Whether an entry may stand before those that have been put back.
    pub(crate) fn may_precede(&self, place: u64, entry: &Entry) -> bool
        ensures { result ≡ precedes self.now.next self.now.entries place entry.now }
    {
        place >= 1
            && place < self.first
            && !entry.here
            && is_asked_of(entry.delivery.qos)
            && self.stage_fits(place, entry.stage)
    }

    /// With an entry before them.
    pub(crate) fn with(self, place: u64, entry: Entry) -> Result<Restored, NoMemory>
        requires { precedes self.next self.entries place entry ≡ true }
        ensures { IfOk result (λ r. r ≡ record self { entries = (place, entry) ∷ self.entries }) }
    {
        let stage = entry.stage;
        let mut copies = self.copies;
        copies.put_first(place, entry)?;
        match stage {
            Stage::Waiting => Ok(Restored {
                copies,
                orders: self.orders,
                first: place,
                waiting: self.waiting,
                first_waiting: place,
                next_place: self.next_place,
                next_order: self.next_order,
            }),
            Stage::Published(_) => Ok(Restored {
                copies,
                orders: self.orders,
                first: place,
                waiting: false,
                first_waiting: self.first_waiting,
                next_place: self.next_place,
                next_order: self.next_order,
            }),
            Stage::Released(id, order) => {
                let mut orders = self.orders;
                orders.insert(order, id)?;
                Ok(Restored {
                    copies,
                    orders,
                    first: place,
                    waiting: false,
                    first_waiting: self.first_waiting,
                    next_place: self.next_place,
                    next_order: self.next_order.max(order + 1),
                })
            }
        }
    }
}
