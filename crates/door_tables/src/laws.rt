//! Laws of the door.
ghost use Rattle.door_tables.specs.Laws.{NoTablesChangeNothing, TablesAreNewer};

use crate::door::Tabled;
use crate::tables::{Tables, TakesTables};
use broker_sockets::{BridgeHandler, Handler};

/// Where no tables may come each call of the door is just that call of the handler inside.
pub fn no_tables_change_nothing<H: TakesTables, F: Tables>()
    ensures { NoTablesChangeNothing H.handles H.hears H.settles H.goes_by H.takes
        ⟦<Tabled<H, F> as Handler>⟧.handles ⟦<Tabled<H, F> as BridgeHandler>⟧.hears ⟦<Tabled<H, F> as Handler>⟧.settles }
{}

/// Whatever calls are made of the door, each is that call of the handler inside, but that a table may come in place of a tick: one for as many
/// nodes as the table by which the handler goes then, and with a greater version.
pub fn tables_are_newer<H: TakesTables, F: Tables>()
    ensures { TablesAreNewer H.handles H.hears H.settles H.goes_by H.takes
        ⟦<Tabled<H, F> as Handler>⟧.handles ⟦<Tabled<H, F> as BridgeHandler>⟧.hears ⟦<Tabled<H, F> as Handler>⟧.settles }
{}
