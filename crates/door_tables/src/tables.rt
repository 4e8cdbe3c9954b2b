//! Where tables of homes come from while a node runs, and what takes them.

use broker_sockets::{BridgeHandler, Output};
use home_table::HomeTable;

/// Where tables of homes come from.
///
/// `offers` relates it before a call, at a moment and for a node that goes by a table, to the table that it answers and to it after the
/// call.
pub trait Tables {
    ghost use Rattle.std.specs.Prelude.{ℕ, Option, IfSome};
    ghost use Rattle.home_table.specs.Table.{Table};
    ghost use Rattle.door_tables.specs.Newer.{IsNewer};

    ghost offers: { Self → ℕ → Table → Option Table → Self → Type 0 };

    /// The table that a node is to take at a moment in milliseconds in place of the one that it goes by, if there is one: a newer one, for as many
    /// nodes.
    fn offer(&mut self, at: u64, homes: &HomeTable) -> Option<HomeTable>
        ensures newer { IfSome result (IsNewer homes.now) }
        ensures offered { offers self.old at homes.now result self.new };

    /// Why what is there now isn't taken, if it isn't.
    fn refusal(&self) -> Option<&str>;
}

/// Nowhere: there never is one.
#[derive(Drop)]
pub struct NoTables;

impl Tables for NoTables {
    ghost use Rattle.std.specs.Prelude.{◌≡◌, None};

    ghost offers = { λ _ _ _ offered _. offered ≡ None };

    fn offer(&mut self, _at: u64, _homes: &HomeTable) -> Option<HomeTable> {
        None
    }

    fn refusal(&self) -> Option<&str> {
        None
    }
}

/// A handler that goes by a table of homes, and takes another one.
///
/// `takes` relates it before it takes a table at a moment to its outputs, in order, and to it after that, and `denies` to a fault in their
/// place.
pub trait TakesTables: BridgeHandler {
    ghost use Rattle.std.specs.Prelude.{◌≡◌, ℕ, List, IfOk, IfErr};
    ghost use Rattle.home_table.specs.Table.{Table};
    ghost use Rattle.broker_sockets.specs.declared.events.Output.{Output};

    /// The table that it goes by.
    ghost goes_by: { Self → Table };

    ghost takes: { Self → ℕ → Table → List Output → Self → Type 0 };

    ghost denies: { Self → ℕ → Table → Self.Fault → Self → Type 0 };

    /// The table that it goes by.
    fn homes(&self) -> &HomeTable
        ensures { result.now ≡ goes_by self.now };

    /// Takes a table at a moment in milliseconds. Time has passed then, as at a tick.
    fn take_table(&mut self, at: u64, homes: HomeTable) -> Result<Vec<Output>, Self::Fault>
        ensures ok { IfOk result (λ outputs. takes self.old at homes outputs.items self.new) }
        ensures fault { IfErr result (λ fault. denies self.old at homes fault self.new) };
}
