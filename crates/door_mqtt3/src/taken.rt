//! What comes of bytes that a client has sent.
use std::alloc::Global;

/// What comes of bytes that a client has sent.
#[derive(Drop)]
pub(crate) struct Taken {
    /// What the handler inside is told.
    pub told: Vec<u8>,
    /// What is sent to the client before all else.
    pub first: Vec<u8>,
}

impl Taken {
    ghost use Rattle.std.specs.Prelude.{◌≡◌, []};

    /// Nothing.
    pub(crate) fn none(alloc: Global) -> Taken
        ensures told { result.told.items ≡ [] }
        ensures first { result.first.items ≡ [] }
    {
        Taken::of(alloc, Vec::new(alloc))
    }

    /// The handler inside is told this.
    pub(crate) fn of(alloc: Global, told: Vec<u8>) -> Taken
        ensures told { result.told ≡ told }
        ensures first { result.first.items ≡ [] }
    {
        Taken {
            told,
            first: Vec::new(alloc),
        }
    }
}
