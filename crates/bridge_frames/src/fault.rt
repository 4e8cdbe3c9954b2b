//! Why a frame can't be read, or written.
ghost use Rattle.std.specs.Prelude.{◌≡◌};
ghost use Rattle.bridge_frames.specs.declared.fault.LinkFault.TheVariants.{NoMemory as OutOfMemory};

use mqtt_fields::NoMemory;
use std::fmt;
use std::fmt::Write;

/// Why a frame can't be read, or written.
#[derive(Clone, Copy, Debug, PartialEq, Eq)]
pub enum LinkFault {
    /// The bytes spell no frame.
    BadFrame = 1,
    /// More follows the length than a frame may have.
    TooLarge,
    /// An allocation was refused.
    NoMemory,
}

impl From<NoMemory> for LinkFault {
    ghost from_gives = { λ _ e. e ≡ OutOfMemory };

    fn from(_fault: NoMemory) -> LinkFault {
        LinkFault::NoMemory
    }
}

impl fmt::Display for LinkFault {
    fn fmt<W: Write>(&self, f: &mut fmt::Formatter<W>) -> fmt::Result {
        f.write_str(match self {
            LinkFault::BadFrame => "BadFrame",
            LinkFault::TooLarge => "TooLarge",
            LinkFault::NoMemory => "NoMemory",
        })
    }
}
