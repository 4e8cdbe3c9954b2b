//! What is known of a client's connection.

ghost use Rattle.std.specs.Prelude.{◌≡◌};
ghost use Rattle.door_bounds.specs.Walk.{fresh};

use mqtt_packets::Bytes;
use std::alloc::Global;

/// What is known of a client's connection.
#[derive(Drop)]
pub(crate) struct Client {
    /// What came and isn't a whole packet yet.
    pub(crate) partial: Bytes,
    /// A CONNECT came.
    pub(crate) greeted: bool,
    /// Its packets aren't looked at any more, since its connection ends.
    pub(crate) over: bool,
}

impl Client {
    /// A client of which nothing came.
    pub(crate) fn new(alloc: Global) -> Client
        ensures { result ≡ fresh }
    {
        Client {
            partial: Bytes::new(Vec::new(alloc)),
            greeted: false,
            over: false,
        }
    }
}
