//! The handler that wraps another one.

ghost use Rattle.std.specs.Prelude.{◌≡◌, ℕ, None, is_some, IfSome};
ghost use Rattle.door_mqtt3.specs.Stages.{stage_of};

use crate::clients::Clients;
use crate::fault::Mqtt3Fault;
use crate::telling::{answer, hear_on};
use broker_sockets::{BridgeHandler, Event, Given, Handler, Output, PeerEvent};
use std::alloc::Global;

/// A handler that wraps another one, and translates or doesn't. The handler inside is told of a client of MQTT 3.1.1 or 3.1 what it would
/// have sent as one of MQTT 5.0, and what it gives for such a client goes out in the client's version. What comes of others is handed on.
#[derive(Drop)]
pub struct Mqtt3<H> {
    alloc: Global,
    inside: H,
    clients: Option<Clients>,
}

/// The connections, where it translates.
fn clients_if(alloc: Global, translates: bool) -> Option<Clients>
    ensures translates { is_some result ≡ translates }
    ensures none { IfSome result (λ k. (q : ℕ) → stage_of k q ≡ None) }
{
    if translates {
        Some(Clients::new(alloc))
    } else {
        None
    }
}

impl<H> Mqtt3<H> {
    /// A handler that translates, or that doesn't. No connection is open.
    pub fn new(alloc: Global, translates: bool, inside: H) -> Mqtt3<H>
        ensures inside { result.inside ≡ inside }
        ensures translates { is_some result.clients ≡ translates }
        ensures none { IfSome result.clients (λ k. (q : ℕ) → stage_of k q ≡ None) }
    {
        Mqtt3 {
            alloc,
            inside,
            clients: clients_if(alloc, translates),
        }
    }

    /// The handler inside.
    pub fn inside(&self) -> &H
        ensures { result.now ≡ self.now.inside }
    {
        &self.inside
    }

    /// Hands out the handler inside.
    pub fn into_inside(self) -> H
        ensures { result ≡ self.inside }
    {
        let Mqtt3 {
            alloc: _alloc,
            inside,
            clients: _clients,
        } = self;
        inside
    }
}

impl<H: Handler> Handler for Mqtt3<H> {
    type Fault = Mqtt3Fault<H::Fault>;

    ghost use Rattle.door_mqtt3.specs.Telling.{IsAnswered, IsCutOff, IsRefused, IsSettled};

    ghost handles = { IsAnswered H.handles };

    ghost refuses = { IsRefused H.handles H.refuses };

    ghost settles = { IsSettled H.settles };

    ghost stops = { IsCutOff H.stops };

    /// Tells the handler inside, of a client of a version before 5 in MQTT 5.0.
    fn handle(&mut self, event: Event) -> Result<Vec<Output>, Mqtt3Fault<H::Fault>> {
        match &mut self.clients {
            None => match self.inside.handle(event) {
                Ok(outputs) => Ok(outputs),
                Err(fault) => Err(Mqtt3Fault::Inside(fault)),
            },
            Some(clients) => answer(self.alloc, &mut self.inside, clients, event),
        }
    }

    /// The handler inside settles.
    fn settle(&mut self) -> Result<(), Mqtt3Fault<H::Fault>> {
        match self.inside.settle() {
            Ok(()) => Ok(()),
            Err(fault) => Err(Mqtt3Fault::Inside(fault)),
        }
    }
}

impl<H: BridgeHandler> BridgeHandler for Mqtt3<H> {
    ghost use Rattle.door_mqtt3.specs.Telling.{IsDeclined, IsHeard};

    ghost hears = { IsHeard H.handles H.hears };

    ghost declines = { IsDeclined H.handles H.refuses H.hears H.declines };

    /// Tells the handler inside what other nodes bring about.
    fn hear(&mut self, event: PeerEvent) -> Result<Given, Mqtt3Fault<H::Fault>> {
        match &mut self.clients {
            None => match self.inside.hear(event) {
                Ok(given) => Ok(given),
                Err(fault) => Err(Mqtt3Fault::Inside(fault)),
            },
            Some(clients) => hear_on(self.alloc, &mut self.inside, clients, event),
        }
    }
}
