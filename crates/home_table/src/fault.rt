//! Why a text is no home table.

ghost use Rattle.std.specs.Prelude.{◌≡◌};
ghost use Rattle.home_table.specs.declared.fault.TableFault.TheVariants.{NoMemory};

use mqtt_fields::NoMemory as OutOfMemory;
use std::alloc::{AllocError, AllocFailed};

/// The first reason, in this order, why a text is no home table.
#[derive(Clone, Copy, Debug, PartialEq, Eq)]
pub enum TableFault {
    /// The text isn't TOML, or has another key, lacks a key, or a value is of another kind or form, or there are more
    /// than 64 nodes.
    Syntax = 1,
    /// There is no node.
    NoNodes,
    /// Two nodes have one name, or two homes one prefix.
    TwiceNamed,
    /// A home is at a node that isn't there.
    UnknownNode,
    /// An allocation was refused.
    NoMemory,
}

impl From<OutOfMemory> for TableFault {
    ghost from_gives = { λ _ e. e ≡ NoMemory };

    fn from(_e: OutOfMemory) -> TableFault {
        TableFault::NoMemory
    }
}

impl From<AllocError> for TableFault {
    ghost from_gives = { λ _ e. e ≡ NoMemory };

    fn from(_e: AllocError) -> TableFault {
        TableFault::NoMemory
    }
}

impl<T: Drop> From<AllocFailed<T>> for TableFault {
    ghost from_gives = { λ _ e. e ≡ NoMemory };

    fn from(_e: AllocFailed<T>) -> TableFault {
        TableFault::NoMemory
    }
}
