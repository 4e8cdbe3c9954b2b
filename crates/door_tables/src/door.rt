//! The door.

ghost use Rattle.std.specs.Prelude.{◌≡◌, IfErr, IfOk, option_map, IfSome};
ghost use Rattle.std.specs.Option.{option_copied};
ghost use Rattle.door_tables.specs.Answering.{IsAsked, IsGiven, is_tick};
ghost use Rattle.door_tables.specs.Faults.{IsDenied};
ghost use Rattle.door_tables.specs.Newer.{IsNewer};

use crate::tables::{Tables, TakesTables};
use broker_sockets::{BridgeHandler, Event, EventKind, Given, Handler, Output, PeerEvent};
use home_table::HomeTable;

/// A handler behind a door at which it is given newer tables of homes, or none. At each tick the door asks whether there is one, and gives it to
/// the handler inside in place of the tick. The handler inside is told all else, and just what it gives out goes out.
#[derive(Drop)]
pub struct Tabled<H, F> {
    inside: H,
    tables: Option<F>,
}

impl<H, F> Tabled<H, F> {
    /// A door with tables from here, or with none.
    pub fn new(inside: H, tables: Option<F>) -> Tabled<H, F>
        ensures inside { result.inside ≡ inside }
        ensures tables { result.tables ≡ tables }
    {
        Tabled { inside, tables }
    }

    /// The handler inside.
    pub fn inside(&self) -> &H
        ensures { result.now ≡ self.now.inside }
    {
        &self.inside
    }

    /// Where tables come from, if there may be any.
    pub fn tables(&self) -> Option<&F>
        ensures { option_copied result ≡ self.now.tables }
    {
        self.tables.as_ref()
    }
}

fn is_tick(kind: &EventKind) -> bool
    ensures { result ≡ is_tick kind.now }
{
    match kind {
        EventKind::Tick => true,
        _ => false,
    }
}

/// The table that is to be taken in place of this one, if there is one.
fn ask<F: Tables>(tables: &mut Option<F>, at: u64, homes: &HomeTable) -> Option<HomeTable>
    ensures newer { IfSome result (IsNewer homes.now) }
    ensures asked { IsAsked F.offers at homes.now tables.old result tables.new }
{
    match tables {
        Some(tables) => tables.offer(at, homes),
        None => None,
    }
}

/// Gives a table to a handler, if there is one, and tells it the event otherwise.
fn give<H: TakesTables>(
    inside: &mut H,
    event: Event,
    offered: Option<HomeTable>,
) -> Result<Vec<Output>, H::Fault>
    ensures ok { IfOk result (λ outputs. IsGiven H.handles H.takes offered event inside.old outputs.items inside.new) }
    ensures fault { IfErr result (λ fault. IsDenied H.refuses H.denies offered event inside.old fault inside.new) }
{
    match offered {
        Some(homes) => inside.take_table(event.at, homes),
        None => inside.handle(event),
    }
}

impl<H: TakesTables, F: Tables> Handler for Tabled<H, F> {
    type Fault = H::Fault;

    ghost use Rattle.door_tables.specs.Answering.{IsAnswered, IsSettled};
    ghost use Rattle.door_tables.specs.Faults.{IsRefused};

    ghost handles = { IsAnswered H.handles H.takes H.goes_by F.offers };

    ghost refuses = { IsRefused H.refuses H.denies H.goes_by F.offers };

    ghost settles = { IsSettled H.settles };

    ghost stops = { λ d fault d'. H.stops d.inside fault d'.inside };

    /// Tells the handler inside, or gives it a newer table in place of a tick.
    fn handle(&mut self, event: Event) -> Result<Vec<Output>, H::Fault> {
        if is_tick(&event.kind) {
            let offered = ask(&mut self.tables, event.at, self.inside.homes());
            give(&mut self.inside, event, offered)
        } else {
            self.inside.handle(event)
        }
    }

    /// The handler inside settles.
    fn settle(&mut self) -> Result<(), H::Fault> {
        self.inside.settle()
    }
}

impl<H: TakesTables, F: Tables> BridgeHandler for Tabled<H, F> {
    ghost use Rattle.door_tables.specs.Answering.{IsHeard};

    ghost hears = { IsHeard H.hears };

    ghost declines = { λ d e fault d'. H.declines d.inside e fault d'.inside };

    /// Tells the handler inside.
    fn hear(&mut self, event: PeerEvent) -> Result<Given, H::Fault> {
        self.inside.hear(event)
    }
}
