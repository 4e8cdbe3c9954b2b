//! The handler with limits before another one.

ghost use Rattle.std.specs.Prelude.{◌≡◌, ℕ, None, false, is_some, IfSome, not};
ghost use Rattle.door_bounds.specs.Clients.{client_of};
ghost use Rattle.door_bounds.specs.Limits.{are_none};

use crate::Gauge;
use crate::answer::answer;
use crate::door::{Door, weigh_if};
use crate::fault::BoundedFault;
use crate::limits::BoundLimits;
use broker_sockets::{BridgeHandler, Event, Given, Handler, Output, PeerEvent};
use std::alloc::Global;

/// A handler before another one, with limits on what clients of MQTT 5.0 send or without. With limits the handler inside is told of packets
/// that break none of them. What answers the others goes out in its place; `CONNACK` and `SUBACK` say what came of the limits, and all
/// else that the handler inside gives goes out as it is. At each tick the gauge is asked how much memory is held.
#[derive(Drop)]
pub struct Bounded<H, G> {
    alloc: Global,
    inside: H,
    gauge: G,
    door: Option<Door>,
}

/// What is kept, where something is asked.
fn door_if(alloc: Global, limits: BoundLimits) -> Option<Door>
    ensures asks { is_some result ≡ not (are_none limits) }
    ensures begins { IfSome result (λ k. (k.limits ≡ limits) × (k.full ≡ false) × ((q : ℕ) → client_of k.clients q ≡ None)) }
{
    if limits.are_none() {
        None
    } else {
        Some(Door::new(alloc, limits))
    }
}

impl<H, G> Bounded<H, G> {
    /// A handler with these limits. No connection is open.
    pub fn new(alloc: Global, limits: BoundLimits, gauge: G, inside: H) -> Bounded<H, G>
        ensures inside { result.inside ≡ inside }
        ensures asks { is_some result.door ≡ not (are_none limits) }
        ensures begins { IfSome result.door (λ k. (k.limits ≡ limits) × (k.full ≡ false) × ((q : ℕ) → client_of k.clients q ≡ None)) }
    {
        Bounded {
            alloc,
            inside,
            gauge,
            door: door_if(alloc, limits),
        }
    }

    /// The handler inside.
    pub fn inside(&self) -> &H
        ensures { result.now ≡ self.now.inside }
    {
        &self.inside
    }
}

impl<H, G: Drop> Bounded<H, G> {
    /// Hands out the handler inside.
    pub fn into_inside(self) -> H
        ensures { result ≡ self.inside }
    {
        let Bounded {
            alloc: _alloc,
            inside,
            gauge: _gauge,
            door: _door,
        } = self;
        inside
    }
}

impl<H: Handler, G: Gauge> Handler for Bounded<H, G> {
    type Fault = BoundedFault<H::Fault>;

    ghost use Rattle.door_bounds.specs.Answering.{IsAnswered, IsSettled};
    ghost use Rattle.door_bounds.specs.Faults.{IsCutOff, IsRefused};

    ghost handles = { IsAnswered H.handles };

    ghost refuses = { IsRefused H.handles H.refuses };

    ghost settles = { IsSettled H.settles };

    ghost stops = { IsCutOff H.stops };

    /// Tells the handler inside, of packets that break no limit.
    #[tactic(auto, using(crate::proofs::Coming::handled))]
    fn handle(&mut self, event: Event) -> Result<Vec<Output>, BoundedFault<H::Fault>> {
        match &mut self.door {
            None => match self.inside.handle(event) {
                Ok(outputs) => Ok(outputs),
                Err(fault) => Err(BoundedFault::Inside(fault)),
            },
            Some(door) => {
                weigh_if(&mut self.gauge, door, &event.kind);
                answer(self.alloc, &mut self.inside, door, event)
            }
        }
    }

    /// The handler inside settles.
    fn settle(&mut self) -> Result<(), BoundedFault<H::Fault>> {
        match self.inside.settle() {
            Ok(()) => Ok(()),
            Err(fault) => Err(BoundedFault::Inside(fault)),
        }
    }
}

impl<H: BridgeHandler, G: Gauge> BridgeHandler for Bounded<H, G> {
    ghost use Rattle.door_bounds.specs.Answering.{IsHeard};
    ghost use Rattle.door_bounds.specs.Faults.{IsDeclined};

    ghost hears = { IsHeard H.hears };

    ghost declines = { IsDeclined H.declines };

    /// Tells the handler inside what other nodes bring about.
    fn hear(&mut self, event: PeerEvent) -> Result<Given, BoundedFault<H::Fault>> {
        match self.inside.hear(event) {
            Ok(given) => {
                if let Some(door) = &mut self.door {
                    door.clients.note(&given.outputs);
                }
                Ok(given)
            }
            Err(fault) => Err(BoundedFault::Inside(fault)),
        }
    }
}
