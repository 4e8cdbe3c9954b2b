//! The handler that guards another one.

ghost use Rattle.std.specs.Prelude.{◌≡◌, ℕ, None, Some, IfSome, option_map};
ghost use Rattle.door_guard.specs.Answering.{refusals_of};
ghost use Rattle.door_guard.specs.Clients.{client_of};
ghost use Rattle.door_guard.specs.Counts.{none_refused};

use crate::answer::{answer, hear_on};
use crate::counts::Refusals;
use crate::door::Door;
use crate::fault::GuardFault;
use broker_sockets::{BridgeHandler, Event, Given, Handler, Output, PeerEvent};
use door_packets::Access;
use std::alloc::Global;

/// A handler before another one, with users or without. With users the handler inside is told of a client once it is let in, and of those packets alone
/// that its user may send. What answers the others goes out in its place, and no message that its user may not read.
#[derive(Drop)]
pub struct Guarded<H, A> {
    alloc: Global,
    inside: H,
    door: Option<Door<A>>,
}

/// What is kept, where there are users.
fn door_if<A>(alloc: Global, access: Option<A>) -> Option<Door<A>>
    ensures access { option_map (λ k. k.access) result ≡ access }
    ensures begins { IfSome result (λ k. (q : ℕ) → client_of k.known.clients q ≡ None) }
    ensures counts { refusals_of result ≡ none_refused }
{
    match access {
        None => None,
        Some(access) => Some(Door::new(alloc, access)),
    }
}

impl<H, A> Guarded<H, A> {
    /// A handler with these users, or without. No connection is open.
    pub fn new(alloc: Global, access: Option<A>, inside: H) -> Guarded<H, A>
        ensures inside { result.inside ≡ inside }
        ensures access { option_map (λ k. k.access) result.door ≡ access }
        ensures begins { IfSome result.door (λ k. (q : ℕ) → client_of k.known.clients q ≡ None) }
        ensures counts { refusals_of result.door ≡ none_refused }
    {
        Guarded {
            alloc,
            inside,
            door: door_if(alloc, access),
        }
    }

    /// The handler inside.
    pub fn inside(&self) -> &H
        ensures { result.now ≡ self.now.inside }
    {
        &self.inside
    }

    /// How many were refused since the program began; none without users.
    pub fn refusals(&self) -> Refusals
        ensures { result ≡ refusals_of self.now.door }
    {
        match &self.door {
            None => Refusals::none(),
            Some(door) => door.known.refusals,
        }
    }
}

impl<H, A: Drop> Guarded<H, A> {
    /// Hands out the handler inside.
    pub fn into_inside(self) -> H
        ensures { result ≡ self.inside }
    {
        let Guarded {
            alloc: _alloc,
            inside,
            door: _door,
        } = self;
        inside
    }
}

impl<H: Handler, A: Access> Handler for Guarded<H, A> {
    type Fault = GuardFault<H::Fault>;

    ghost use Rattle.door_guard.specs.Answering.{IsAnswered, IsSettled};
    ghost use Rattle.door_guard.specs.Faults.{IsCutOff, IsRefused};

    ghost handles = { IsAnswered H.handles A.rights };

    ghost refuses = { IsRefused H.handles H.refuses };

    ghost settles = { IsSettled H.settles };

    ghost stops = { IsCutOff H.stops };

    /// Tells the handler inside of what its clients may do.
    #[tactic(auto, using(crate::proofs::Meets::handled))]
    fn handle(&mut self, event: Event) -> Result<Vec<Output>, GuardFault<H::Fault>> {
        match &mut self.door {
            None => match self.inside.handle(event) {
                Ok(outputs) => Ok(outputs),
                Err(fault) => Err(GuardFault::Inside(fault)),
            },
            Some(door) => answer(
                self.alloc,
                &door.access,
                &mut self.inside,
                &mut door.known,
                event,
            ),
        }
    }

    /// The handler inside settles.
    fn settle(&mut self) -> Result<(), GuardFault<H::Fault>> {
        match self.inside.settle() {
            Ok(()) => Ok(()),
            Err(fault) => Err(GuardFault::Inside(fault)),
        }
    }
}

impl<H: BridgeHandler, A: Access> BridgeHandler for Guarded<H, A> {
    ghost use Rattle.door_guard.specs.Answering.{IsHeard};
    ghost use Rattle.door_guard.specs.Faults.{IsDeclined};

    ghost hears = { IsHeard H.hears A.rights };

    ghost declines = { IsDeclined H.declines };

    /// Tells the handler inside what other nodes bring about.
    #[tactic(auto, using(crate::proofs::Meets::heard))]
    fn hear(&mut self, event: PeerEvent) -> Result<Given, GuardFault<H::Fault>> {
        match &mut self.door {
            None => match self.inside.hear(event) {
                Ok(given) => Ok(given),
                Err(fault) => Err(GuardFault::Inside(fault)),
            },
            Some(door) => hear_on(
                self.alloc,
                &door.access,
                &mut self.inside,
                &mut door.known,
                event,
            ),
        }
    }
}
