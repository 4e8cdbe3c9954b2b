//! What calls answer, and how they are judged.

ghost use Rattle.std.specs.Prelude.{◌≡◌, true, OnOk};

use bridge_frames::LinkFault;
use home_table::TableFault;
use mqtt_fields::{FieldFault, NoMemory};
use mqtt_packets::{FeedFault, PacketFault};
use mqtt_sessions::SessionFault;
use mqtt_topics::TopicFault;
use replica_store::StoreFault;
use row_store::RowFault;
use std::alloc::{AllocError, AllocFailed};

/// Why a call doesn't give what it should.
#[derive(Clone, Copy, PartialEq, Eq)]
pub enum Fault {
    /// It names want of memory.
    NoMemory,
    /// It gives anything else.
    Other,
}

impl From<AllocError> for Fault {
    fn from(_fault: AllocError) -> Fault {
        Fault::NoMemory
    }
}

impl<T: Drop> From<AllocFailed<T>> for Fault {
    fn from(_fault: AllocFailed<T>) -> Fault {
        Fault::NoMemory
    }
}

impl From<NoMemory> for Fault {
    fn from(_fault: NoMemory) -> Fault {
        Fault::NoMemory
    }
}

/// Want of memory, where its name was answered.
fn named(is_memory: bool) -> Fault {
    if is_memory {
        Fault::NoMemory
    } else {
        Fault::Other
    }
}

impl From<FieldFault> for Fault {
    fn from(fault: FieldFault) -> Fault {
        named(fault == FieldFault::NoMemory)
    }
}

impl From<PacketFault> for Fault {
    fn from(fault: PacketFault) -> Fault {
        named(fault == PacketFault::NoMemory)
    }
}

impl From<FeedFault> for Fault {
    fn from(fault: FeedFault) -> Fault {
        named(fault == FeedFault::NoMemory)
    }
}

impl From<TopicFault> for Fault {
    fn from(fault: TopicFault) -> Fault {
        named(fault == TopicFault::NoMemory)
    }
}

impl From<StoreFault> for Fault {
    fn from(fault: StoreFault) -> Fault {
        named(fault == StoreFault::NoMemory)
    }
}

impl From<LinkFault> for Fault {
    fn from(fault: LinkFault) -> Fault {
        named(fault == LinkFault::NoMemory)
    }
}

impl From<TableFault> for Fault {
    fn from(fault: TableFault) -> Fault {
        named(fault == TableFault::NoMemory)
    }
}

impl From<RowFault> for Fault {
    fn from(fault: RowFault) -> Fault {
        named(fault == RowFault::NoMemory)
    }
}

impl From<SessionFault> for Fault {
    fn from(fault: SessionFault) -> Fault {
        named(fault == SessionFault::NoMemory)
    }
}

/// This is what the call should give.
pub fn ensure(holds: bool) -> Result<(), Fault>
    ensures { OnOk result (holds ≡ true) }
{
    if holds { Ok(()) } else { Err(Fault::Other) }
}
