//! The door.

ghost use Rattle.std.specs.Prelude.{◌≡◌, option_map};
ghost use Rattle.std.specs.Option.{option_copied};
ghost use Rattle.status_tally.specs.Tallying.{gave, gave_frames, heard, met};

use crate::tally::Tally;
use broker_sockets::{
    BridgeHandler, Event, EventKind, Given, Handler, Output, PeerEvent, PeerEventKind, PeerFrame,
};

/// A handler behind a door that counts, or that doesn't. The handler inside is told all, and just what it gives out goes out.
#[derive(Drop)]
pub struct Tallied<H> {
    inside: H,
    tally: Option<Tally>,
}

impl<H> Tallied<H> {
    /// A door that counts into this tally, or one that doesn't count.
    pub fn new(inside: H, tally: Option<Tally>) -> Tallied<H>
        ensures inside { result.inside ≡ inside }
        ensures tally { result.tally ≡ tally }
    {
        Tallied { inside, tally }
    }

    /// The handler inside.
    pub fn inside(&self) -> &H
        ensures { result.now ≡ self.now.inside }
    {
        &self.inside
    }

    /// Takes the door away from the handler inside.
    pub fn into_inside(self) -> H
        ensures { result ≡ self.inside }
    {
        let Tallied {
            inside,
            tally: _tally,
        } = self;
        inside
    }

    /// What the door has counted, if it counts.
    pub fn tally(&self) -> Option<&Tally>
        ensures { option_copied result ≡ self.now.tally }
    {
        self.tally.as_ref()
    }
}

/// Counts an event, where the door counts.
fn meet(tally: &mut Option<Tally>, at: u64, kind: &EventKind)
    ensures { tally.new ≡ option_map (met at kind.now) tally.old }
{
    match tally {
        Some(tally) => tally.meet(at, kind),
        None => {}
    }
}

/// Counts what is given out for clients.
fn give(tally: &mut Option<Tally>, outputs: &[Output])
    ensures { tally.new ≡ option_map (gave outputs.now) tally.old }
{
    match tally {
        Some(tally) => tally.give(outputs),
        None => {}
    }
}

/// Counts an event of other nodes.
fn hear(tally: &mut Option<Tally>, at: u64, kind: &PeerEventKind)
    ensures { tally.new ≡ option_map (heard at kind.now) tally.old }
{
    match tally {
        Some(tally) => tally.hear(at, kind),
        None => {}
    }
}

/// Counts what is given out for other nodes.
fn give_frames(tally: &mut Option<Tally>, frames: &[PeerFrame])
    ensures { tally.new ≡ option_map (gave_frames frames.now) tally.old }
{
    match tally {
        Some(tally) => tally.give_frames(frames),
        None => {}
    }
}

impl<H: Handler> Handler for Tallied<H> {
    type Fault = H::Fault;

    ghost use Rattle.status_tally.specs.Doors.{IsAnswered, IsRefused, IsSettled, IsStopped};

    ghost handles = { IsAnswered H.handles };

    ghost refuses = { IsRefused H.refuses };

    ghost settles = { IsSettled H.settles };

    ghost stops = { IsStopped H.stops };

    /// Tells the handler inside.
    fn handle(&mut self, event: Event) -> Result<Vec<Output>, H::Fault> {
        meet(&mut self.tally, event.at, &event.kind);
        match self.inside.handle(event) {
            Ok(outputs) => {
                give(&mut self.tally, &outputs);
                Ok(outputs)
            }
            Err(fault) => Err(fault),
        }
    }

    /// The handler inside settles.
    fn settle(&mut self) -> Result<(), H::Fault> {
        self.inside.settle()
    }
}

impl<H: BridgeHandler> BridgeHandler for Tallied<H> {
    ghost use Rattle.status_tally.specs.Doors.{IsDeclined, IsHeard};

    ghost hears = { IsHeard H.hears };

    ghost declines = { IsDeclined H.declines };

    /// Tells the handler inside.
    fn hear(&mut self, event: PeerEvent) -> Result<Given, H::Fault> {
        hear(&mut self.tally, event.at, &event.kind);
        match self.inside.hear(event) {
            Ok(given) => {
                give(&mut self.tally, &given.outputs);
                give_frames(&mut self.tally, &given.frames);
                Ok(given)
            }
            Err(fault) => Err(fault),
        }
    }
}
